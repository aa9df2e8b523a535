// The check of a gsub replacement, after luck's format_pattern.rs.
#![tactic(auto)]

mod limit;
pub mod replacement;
