// Trace replay: the records of a trace that comes in chunks, one behind the other, and their lines in a lent buffer.
#![tactic(auto)]

mod walking; // walking.rt: the records of the bytes at hand
mod holding; // holding.rt: what is held over, and the chunk behind it
mod feeding; // feeding.rt: a chunk, and the end of input

pub use feeding::{feed, finish, start};
