// The checks of a body by their kind letters, and the check of a literal in a source, after luck's crate luck_linter,
// whose other checks are luck_pattern, luck_replacement, luck_format and luck_pack here.
#![tactic(auto)]

pub mod checks;
pub mod rules;
