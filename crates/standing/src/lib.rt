// What "Sound tables" asks row by row: of the lent room and the header, of a shelf by the row before it, and of the header at the end.
// Nothing here walks.
#![tactic(auto)]

mod header; // header.rt: the room lent, and the header by itself
mod shelves; // shelves.rt: where a shelf may stand
mod ending; // ending.rt: what must hold behind the last shelf

pub use ending::{Pass, is_ended};
pub use header::{is_head, is_lent};
pub use shelves::{Row, is_shelf, row_after};
