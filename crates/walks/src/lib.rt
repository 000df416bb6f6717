// The walk along a chain: each bucket's index is tested and marked, then its record is read, once, and tested. A marked bucket ends the
// walk, so a ring or a shared tail does too; and so does an index that is not below the count, as 65,535 never is.
#![tactic(auto)]

mod reading; // reading.rt: where the records come from
mod tables; // tables.rt: the lent tables
mod chain; // chain.rt: the chain of a shelf

pub use chain::walk_shelf;
pub use reading::Records;
pub use tables::Tables;
