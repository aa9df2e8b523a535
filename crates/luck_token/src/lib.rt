// What the checks and the trial of Lua strings stand on: the versions' rules, line breaks, string literals and spans. The modules are named as in
// luck's crate luck_token.
#![tactic(auto)]

pub mod span;
pub mod string;
pub mod text;
pub mod version;
pub mod whitespace;
