// Stored answers, replayed: a file is read record by record, the library is asked, and the records that differ are counted.
#![tactic(auto)]

pub mod checks;
pub mod literal_checks;
pub mod replay;
