// An attempt of the trial at a place of the subject: shortcuts to the answer of lstr_match's do_match, which is the rule.
#![tactic(auto)]

pub mod attempt;
pub mod lead;
