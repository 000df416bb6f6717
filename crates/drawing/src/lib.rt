// The picture of an atlas as text (T-07), from a place of a lent buffer on. Bytes past the buffer's end are not written and are counted all the same: so a
// drawing into no buffer is how long the text is. Each writer answers the place after what it wrote, as in `lines`.
#![tactic(auto)]

mod texts; // texts.rt: the lines
mod parts; // parts.rt: a bucket's parts, those of a chain, those of all shelves
mod showing; // showing.rt: the whole text; a picture past the tests

pub use showing::show;
