// What every kind of stored file has: its records, numbers and runs of bytes, the output that is written to, and how many of its records ran and differ.
#![tactic(auto)]

pub mod bytes;
pub mod output;
pub mod records;
pub mod tally;
pub mod versions;
