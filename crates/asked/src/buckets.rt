// What is asked of a bucket once it is read, by its shelf and the bucket before it, and of a shelf's chain once it is walked.
ghost use Rattle.std.specs.Prelude.{◌≡◌, MatchOption};
ghost use Rattle.laws.proofs.Tests.Tells.{Tells};
ghost use Rattle.asked.specs.Buckets.{Agrees, InChain, Closed, Freed, Countable, Tallies, used_of};

use rules::{Bucket, Shelf};

// What the walks have counted: the buckets met, and used width times height over them, in pixels.
#[derive(Clone, Copy, Default)]
pub struct Tally {
    pub seen: u16,
    pub pixels: u64,
}

// "free width is at most the bucket width, and equal to it exactly when the reference count is 0. Reference count is at most item count."
// T-08: "an unreferenced bucket has item count 0". Branches and no `&&`: so the loop over a chain takes fewer instructions a bucket.
fn is_agreed(shelf: Shelf, bucket: Bucket) -> bool
    ensures { Tells result (Agrees shelf bucket) }
{
    if bucket.refs == 0 {
        if bucket.items != 0 {
            return false;
        }
        return bucket.free == shelf.width;
    }
    if bucket.free >= shelf.width {
        return false;
    }
    bucket.refs <= bucket.items
}

// A bucket of shelf i, its end at most `edge`.
pub fn is_following(i: u16, shelf: Shelf, edge: u32, bucket: Bucket) -> bool
    ensures { Tells result (InChain i shelf edge bucket) }
{
    bucket.shelf == i
        && bucket.x as u32 + shelf.width as u32 <= edge
        && bucket.generation <= 255
        && is_agreed(shelf, bucket)
}

// Asked once, at the end of a shelf's chain. Its buckets "lie in its column": the last x is the least. "those on height 0 have reference
// count 0": the width used is 0 exactly where no bucket is referenced.
fn is_closed(shelf: Shelf, edge: u32, used: u32) -> bool
    ensures { Tells result (Closed shelf edge used) }
{
    edge >= shelf.x as u32 && (shelf.height != 0 || used == 0)
}

// The tally with a shelf's chain: the buckets met by its end, the sum of its free widths, and its last x. None where the chain is not closed.
pub fn tally_with(from: Tally, shelf: Shelf, seen: u16, free: u32, edge: u32) -> Option<Tally>
    requires { Countable from shelf seen free }
    ensures { MatchOption result
        (Closed shelf edge (used_of from shelf seen free) → ⊥)
        (Tallies from shelf seen edge (used_of from shelf seen free)) }
{
    let used = (seen - from.seen) as u32 * shelf.width as u32 - free;
    if !is_closed(shelf, edge, used) {
        return None;
    }
    Some(Tally {
        seen,
        pixels: from.pixels + used as u64 * shelf.height as u64,
    })
}

// "Released buckets .. have reference count 0." T-08: and so item count 0.
pub fn is_freed(bucket: Bucket) -> bool
    ensures { Tells result (Freed bucket) }
{
    bucket.refs == 0 && bucket.items == 0 && bucket.generation <= 255
}
