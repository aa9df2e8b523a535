// The items of a pattern as the matching reads them, what a single tests, captures, and what the rest of a pattern tests first, after lstrlib.c.
#![tactic(auto)]

pub mod ahead;
pub mod capture;
pub mod error;
pub mod item;
pub mod single;
pub mod state;
