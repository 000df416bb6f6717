// A list whose entries stand bucket by bucket, each bucket's from left to right with rising item numbers, as the calls leave it, is tested in
// one pass: an entry need only be compared with the one before it.
ghost use Rattle.std.specs.Prelude.{◌≡◌, ◌<◌, option_and_then};
ghost use Rattle.rules.specs.Limits.{number_most};
ghost use Rattle.rules.specs.Tables.{atlas};
ghost use Rattle.rules.specs.Sound.{Sound};
ghost use Rattle.entries.specs.Parts.{follows as Parts·follows};
ghost use Rattle.entries.specs.Passes.{begun, in_place, moved};
ghost use Rattle.entries.specs.Passes as passes;

use crate::belonging;
use rules::{Allocation, Head};

// Of the last entry: the bucket after its own, how many of its bucket were met, where its rectangle ends and the item number after its own. All 0
// before the first.
#[derive(Clone, Copy, Default)]
pub struct Order {
    pub next: u16,
    pub seen: u16,
    pub right: u16,
    pub item: u16,
}

// as an entry of bucket k finds it: gone on with in the same bucket, or begun with another
#[tactic(auto, unfolding(crate::specs::Passes::begun))]
fn begin(pass: Order, k: u16) -> Order
    requires { k < 4096 }
    ensures { result ≡ begun pass k }
{
    if k + 1 == pass.next {
        return pass;
    }
    Order {
        seen: 0,
        right: 0,
        item: 0,
        ..pass
    }
}

// the entry stands after the one before it
#[tactic(auto, unfolding(crate::specs::Parts::follows))]
fn follows(pass: Order, entry: Allocation) -> bool
    ensures { result ≡ Parts·follows pass entry }
{
    pass.next <= numbers::id_bucket(entry.id) + 1
        && pass.right <= entry.rectangle.left
        && pass.item <= numbers::id_item(entry.id)
}

// and at its place
#[tactic(auto, using(crate::proofs::Arms::in_place_is))]
fn in_place(head: Head, shelves: &[u16], buckets: &[u16], pass: Order, entry: Allocation) -> bool
    requires { Sound (atlas head shelves.now buckets.now) }
    ensures { result ≡ in_place (atlas head shelves.now buckets.now) pass entry }
{
    follows(pass, entry) && belonging::joins(head, shelves, buckets, entry, pass.seen as u32)
}

// after an entry that stands at its place
fn move_on(pass: Order, entry: Allocation) -> Order
    requires { pass.seen < number_most }
    ensures { result ≡ moved pass entry }
{
    Order {
        next: numbers::id_bucket(entry.id) + 1,
        seen: pass.seen + 1,
        right: entry.rectangle.right,
        item: numbers::id_item(entry.id) + 1,
    }
}

// One entry more, where it stands at its place. A pass that has failed stays so.
#[tactic(auto, unfolding(crate::specs::Passes::step))]
pub fn step(
    head: Head,
    shelves: &[u16],
    buckets: &[u16],
    pass: Option<Order>,
    entry: Allocation,
) -> Option<Order>
    requires { Sound (atlas head shelves.now buckets.now) }
    ensures { result ≡ option_and_then (λ p. passes.step (atlas head shelves.now buckets.now) p entry) pass }
{
    let pass = pass?;
    let before = begin(pass, numbers::id_bucket(entry.id));
    if !in_place(head, shelves, buckets, before, entry) {
        return None;
    }
    Some(move_on(before, entry))
}
