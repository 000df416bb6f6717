// The two calls that keep an atlas over a restart (T-01): write, its header and tables into a lent buffer; read, a file's bytes into lent
// tables, the header back. Each answers on any input, and a refusal has written nothing.
#![tactic(auto)]

mod writes; // writes.rt: write
mod reads; // reads.rt: read

pub use reads::read;
pub use writes::write;
