// What "Sound tables" asks of one bucket at a time, by its shelf, and of a chain at its end. Nothing here walks.
#![tactic(auto)]

mod buckets; // buckets.rt: a bucket of a chain, and what a chain comes to

pub use buckets::{Tally, is_following, is_freed, tally_with};
