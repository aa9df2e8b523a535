// The check of a pattern, after luck's format_pattern.rs.
#![tactic(auto)]

mod captures;
pub mod pattern;
