// Stored trials of gsub, replayed one record at a time.
#![tactic(auto)]

pub mod trials;
