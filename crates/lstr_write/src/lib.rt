// What gsub writes for a match, into a lent output.
#![tactic(auto)]

pub mod matched;
pub mod replace;
pub mod stop;
