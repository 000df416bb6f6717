// What T-02's test asks of an entry of the held list by the tables, and of two entries; what a pass over a list keeps from one to the next; how many
// entries there are, and where one goes in. All by value, so that a list of either form is tested by the same functions.
#![tactic(auto)]

mod belonging; // belonging.rt: one entry in its bucket, and two entries
mod passing; // passing.rt: a list in order, in one pass
mod seeing; // seeing.rt: a list in any order, an entry against those before it
mod counting; // counting.rt: how many entries, and the place of a new one

pub use counting::{entries, place_for};
pub use passing::{Order, step};
pub use seeing::{admits, compare};
