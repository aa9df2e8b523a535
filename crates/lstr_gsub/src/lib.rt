// The trial of gsub: lstrlib.c's matching and replacing within a budget of steps. Its entry is `gsub::gsub`.
#![tactic(auto)]

pub mod gsub;
