// The calls once what is lent has been tested: the refusals of the tests as the verdict has them, the other refusals in order, then what the call
// does. An answer that changes the header hands it back; a refusal hands none back, and the one that went in still holds.
#![tactic(auto)]

mod answers; // answers.rt: refusals and acceptance, and the sides that are outside the domain
mod making; // making.rt: new
mod growing; // growing.rt: grow
mod deallocating; // deallocating.rt: deallocate
mod reading; // reading.rt: clear, and the four reading calls

pub use deallocating::deallocate;
pub use growing::grow;
pub use making::made;
pub use reading::{allocated_space, clear, free_space, is_empty, size};
