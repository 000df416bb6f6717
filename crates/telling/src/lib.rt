// The panel's numbers: the header in lent numbers and back, and each answer as the number that is returned with what it writes.
#![tactic(auto)]

mod header; // header.rt: the header's numbers
mod answers; // answers.rt: the answers in numbers

pub use answers::{tell_figure, tell_flag, tell_head, tell_issued, tell_sides};
pub use header::{head_beside, head_in};
