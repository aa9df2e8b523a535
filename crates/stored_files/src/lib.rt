// Stored files, read into a lent buffer.
#![tactic(auto)]

pub mod reader;
