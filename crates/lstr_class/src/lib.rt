// Tests of a subject's bytes that do not read the pattern's text, after lstrlib.c: classes by their letter, equal parts, balanced pairs and the byte before a place.
#![tactic(auto)]

pub mod class;
pub mod subject;
