// The list's test: in one pass where the list is in order, as the calls leave it, and else each entry against all before it.
ghost use Rattle.std.specs.Prelude.{◌≡◌, ◌<◌, length, is_some};
ghost use Rattle.rules.specs.Tables.{atlas};
ghost use Rattle.rules.specs.Sound.{Sound};
ghost use Rattle.rules.specs.Held.{fits as Held·fits};
ghost use Rattle.entries.specs.Passes.{passed, seen, all_admitted};

use crate::form::Entry;
use entries::Order;
use rules::{Allocation, Head};

// each stands at its place after the one before it
fn in_order<T: Entry>(list: &[T], head: Head, shelves: &[u16], buckets: &[u16]) -> bool
    requires { Sound (atlas head shelves.now buckets.now) }
    ensures { result ≡ is_some (passed (atlas head shelves.now buckets.now) (T.entries list.now) (length list.now)) }
{
    let mut pass = Order::default();
    for held in list {
        let Some(next) = entries::step(head, shelves, buckets, Some(pass), held.entry()) else {
            return false;
        };
        pass = next;
    }
    true
}

// how many of those before the entry are of its bucket, unless one shares its id or a pixel
fn earlier<T: Entry>(before: &[T], entry: Allocation) -> Option<u32>
    requires { length before.now < 4294967296 }
    ensures { result ≡ seen (T.entries before.now) entry (length before.now) }
{
    let mut alike = 0;
    for other in before {
        alike = entries::compare(Some(alike), entry, other.entry())?;
    }
    Some(alike)
}

// each fits beside those before it
fn any_order<T: Entry>(list: &[T], head: Head, shelves: &[u16], buckets: &[u16]) -> bool
    requires { Sound (atlas head shelves.now buckets.now) × (length list.now < 4294967296) }
    ensures { result ≡ all_admitted (atlas head shelves.now buckets.now) (T.entries list.now) (length list.now) }
{
    for (i, held) in list.iter().enumerate() {
        let entry = held.entry();
        let before = earlier(&list[..i], entry);
        if !entries::admits(head, shelves, buckets, entry, before) {
            return false;
        }
    }
    true
}

// T-02's test of the list by the tables
pub fn fits<T: Entry>(list: &[T], head: Head, shelves: &[u16], buckets: &[u16]) -> bool
    requires { Sound (atlas head shelves.now buckets.now) }
    ensures { result ≡ Held·fits (atlas head shelves.now buckets.now) (T.entries list.now) }
{
    let n = entries::entries(head, buckets) as usize;
    let Some(live) = list.get(..n) else {
        return false;
    };
    in_order(live, head, shelves, buckets) || any_order(live, head, shelves, buckets)
}
