// The check of pack formats, after luck's format_pattern.rs.
#![tactic(auto)]

pub mod pack;
