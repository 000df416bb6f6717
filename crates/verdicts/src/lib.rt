// The calls that change something, by the verdict of the tests on what is lent: an accepted one hands back, beside its answer, how many entries the list has
// after it, which is their verdict on what it leaves. So who lends to each call what the last one left, and writes nothing between, tests once. An inner
// crate: that the verdict is that of what is lent is its caller's.
#![tactic(auto)]

mod placing; // placing.rt: allocate
mod changing; // changing.rt: deallocate, clear, grow

pub use changing::{clear, deallocate, grow};
pub use placing::allocate;
use rules::{Allocation, Head};

// What an accepted call leaves: the header, and how many entries the list has.
#[derive(Clone, Copy)]
pub struct Changed {
    pub head: Head,
    pub count: u32,
}

// What was placed, and what the request leaves.
#[derive(Clone, Copy)]
pub struct Placed {
    pub head: Head,
    pub allocation: Allocation,
    pub count: u32,
}
