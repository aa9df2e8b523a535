// UTF-8, which Rust's `str` gives luck: the test of a text, the character at a place, and the bytes of a character.
#![tactic(auto)]

pub mod utf8;
