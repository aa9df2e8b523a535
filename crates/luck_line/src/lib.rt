// A line of the program `bodies`: its head and body, the check that they ask for, and the row that it gives; and the line of
// totals.
#![tactic(auto)]

pub mod line;
pub mod row;
