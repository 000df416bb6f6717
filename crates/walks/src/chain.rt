// The chain of a shelf.
ghost use Rattle.std.specs.Prelude.{◌≤◌, MatchOption};
ghost use Rattle.walks.specs.Walks.{CanWalk, EachTo, ShelfYes, ShelfNo};

use crate::reading::Records;
use asked::Tally;
use rules::{NONE, Shelf};

// The chain of shelf i, each bucket's end at most the x of the one before it, the first one's at most `right`. A `while`: which bucket is
// next stands in the one before it.
pub fn walk_shelf<R: Records + Copy>(
    records: R,
    count: usize,
    i: u16,
    shelf: Shelf,
    right: u32,
    marks: &mut [u8],
    from: Tally,
) -> Option<Tally>
    requires { CanWalk (R.buckets records) count marks.old from × (shelf.x ≤ right) × EachTo count (R.has_bucket records) }
    ensures { MatchOption result
        (ShelfNo (R.buckets records) count i shelf right marks.old)
        (ShelfYes (R.buckets records) count i shelf right marks.old marks.new from) }
{
    let mut here = shelf.first as usize;
    let mut edge = right;
    let mut seen = from.seen;
    let mut free = 0u32;
    while here < count {
        if marks[here] != 0 {
            return None;
        }
        marks[here] = 1;
        let bucket = records.bucket(here);
        if !asked::is_following(i, shelf, edge, bucket) {
            return None;
        }
        seen += 1;
        free += bucket.free as u32;
        edge = bucket.x as u32;
        here = bucket.next as usize;
    }
    if here != NONE as usize {
        return None;
    }
    asked::tally_with(from, shelf, seen, free, edge)
}
