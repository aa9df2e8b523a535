// Questions to the checks, as a file stores them, what the library answers, and what real Lua does.
#![tactic(auto)]

pub mod question;
pub mod real_lua;
