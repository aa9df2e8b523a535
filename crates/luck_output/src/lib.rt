// What is written to a lent output: bytes, parts of a text, and the bytes of code points.
#![tactic(auto)]

pub mod character;
pub mod output;
