// What the checks of a text answer: luck's PatternError, the tests that come before every check, and the numbers.
#![tactic(auto)]

pub mod answer;
pub mod format_pattern;
