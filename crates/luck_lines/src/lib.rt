// The lines of the program `bodies` as a stream: the listing of an input with its totals, however it is cut.
#![tactic(auto)]

pub mod buffer;
pub mod stream;
