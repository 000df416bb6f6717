// T-02's list, "one for each held rectangle, with id and rectangle", in either form in which a caller lends it: whether it fits the tables, where an
// entry stands, and how one goes in and out. What an entry is tested for is in the crate entries, by value.
#![tactic(auto)]

mod form; // form.rt: an entry as it is lent, a struct or a row of numbers
mod fitting; // fitting.rt: the list's test
mod keeping; // keeping.rt: an entry found, added and removed
mod judging; // judging.rt: the tests of all that is lent

pub use fitting::fits;
pub use form::Entry;
pub use judging::test;
pub use keeping::{add, find, remove};
