// The matching of a pattern at a place of the subject, within a budget of steps, after `match` of lstrlib.c, which document 01 calls do_match.
#![tactic(auto)]

pub mod matcher;
pub mod outcome;
