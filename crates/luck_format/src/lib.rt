// The checks of formats and dates, after luck's format_pattern.rs.
#![tactic(auto)]

pub mod date;
pub mod format;
