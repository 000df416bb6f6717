// The public calls. Each tests what is lent to it first and answers on any input; a refusal has written nothing and hands no header back: the
// one that went in still holds. `shelves` and `buckets` are the lent tables, `list` is the list lent beside them, `head` is the header as the last
// call left it.
#![tactic(auto)]

mod making; // making.rt: new and clear
mod growing; // growing.rt: grow
mod placing; // placing.rt: allocate
mod deallocating; // deallocating.rt: deallocate
mod reading; // reading.rt: the tests and the four reading calls

pub use deallocating::deallocate;
pub use growing::grow;
pub use making::{clear, new};
pub use placing::allocate;
pub use reading::{allocated_space, fits, free_space, is_empty, is_sound, size};
