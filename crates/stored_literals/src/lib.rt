// Stored answers of decode_string, replayed one record at a time.
#![tactic(auto)]

pub mod literals;
