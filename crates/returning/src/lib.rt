// Module 9, return and cleanup. A returned reference leaves its bucket; where that empties a bucket of the last shelf, the unreferenced last
// shelves are popped and their buckets released.
#![tactic(auto)]

ghost use Rattle.std.specs.Prelude.{◌&&◌, ◌≡◌, ◌+◌, ◌-◌, ◌≤◌, ◌<◌, eqb, ltb};
ghost use Rattle.rules.specs.Tables.{atlas};
ghost use Rattle.rules.specs.Builds.{present};
ghost use Rattle.rules.specs.Return.{returned_bucket, freed_area, uncleaned, stepped_back, popped, cleaned, returned};
ghost use Rattle.returning.specs.Needs.{CanReturnUncleaned, CanStep, CanPop, CanReturn};

use rules::{Bucket, Head, Shelf};

// "The reference count falls; at 0 .. its free width is whole again." T-08: at 0 "its item count becomes 0 and its generation rises by 1,
// wrapping".
#[tactic(auto, unfolding(rules::specs::Return::returned_bucket))]
fn returned_bucket(bucket: Bucket, shelf: Shelf) -> Bucket
    requires { 0 < bucket.refs }
    ensures { result ≡ returned_bucket present shelf bucket }
{
    let refs = bucket.refs - 1;
    if refs > 0 {
        return Bucket { refs, ..bucket };
    }
    Bucket {
        free: shelf.width,
        refs,
        items: 0,
        generation: numbers::next_generation(bucket.generation),
        ..bucket
    }
}

// What leaves the figure, in pixels.
#[tactic(auto, unfolding(rules::specs::Return::freed_area))]
fn freed_area(bucket: Bucket, shelf: Shelf) -> u32
    requires { bucket.free ≤ shelf.width }
    ensures { result ≡ freed_area shelf bucket }
{
    if bucket.refs == 1 {
        (shelf.width - bucket.free) as u32 * shelf.height as u32
    } else {
        0
    }
}

// Bucket k with one reference less.
#[tactic(auto, using(crate::proofs::Laws::area_within), unfolding(rules::specs::Return::uncleaned))]
fn return_uncleaned(head: Head, shelves: &[u16], buckets: &mut [u16], k: usize) -> Head
    requires { CanReturnUncleaned k (atlas head shelves.now buckets.old) }
    ensures { atlas result shelves.now buckets.new
        ≡ uncleaned present k (atlas head shelves.now buckets.old) }
{
    let bucket = records::bucket_at(buckets, k);
    let shelf = records::shelf_at(shelves, bucket.shelf as usize);
    let freed = freed_area(bucket, shelf);
    records::put_bucket(buckets, k, returned_bucket(bucket, shelf));
    Head {
        occupied: head.occupied - freed,
        ..head
    }
}

// "at y = 0 in a later column"
fn starts_column(head: Head, last: Shelf) -> bool
    ensures { result ≡ (eqb last.y 0 && ltb 0 head.column) }
{
    last.y == 0 && head.column > 0
}

// The column and its room once shelf m, the last, is gone.
#[tactic(auto, unfolding(rules::specs::Return::stepped_back))]
fn step_back(head: Head, shelves: &[u16], m: usize) -> Head
    requires { CanStep shelves.now m head }
    ensures { result ≡ stepped_back shelves.now m head }
{
    let last = records::shelf_at(shelves, m);
    if starts_column(head, last) {
        let before = records::shelf_at(shelves, m - 1);
        return Head {
            column: head.column - 1,
            room: head.height - (before.y + before.height),
            ..head
        };
    }
    Head {
        room: head.room + last.height,
        ..head
    }
}

// The last shelf is popped, its chain put in front of the released one.
fn pop_shelf(head: Head, shelves: &[u16], buckets: &mut [u16]) -> Head
    requires { CanPop (atlas head shelves.now buckets.old) × (0 < head.shelf_count) }
    ensures { atlas result shelves.now buckets.new
        ≡ popped (head.shelf_count - 1) (atlas head shelves.now buckets.old) }
{
    let m = head.shelf_count - 1;
    let last = records::shelf_at(shelves, m as usize);
    let back = step_back(head, shelves, m as usize);
    chains::release(buckets, last.first, head.released);
    Head {
        shelf_count: m,
        released: last.first,
        ..back
    }
}

// "unreferenced last shelves are popped": until one has a referenced bucket, or none is left.
fn cleanup(head: Head, shelves: &[u16], buckets: &mut [u16]) -> Head
    requires { CanPop (atlas head shelves.now buckets.old) }
    ensures { atlas result shelves.now buckets.new
        ≡ cleaned head.shelf_count (atlas head shelves.now buckets.old) }
{
    let mut after = head;
    while after.shelf_count != 0 {
        let last = records::shelf_at(shelves, after.shelf_count as usize - 1);
        if !chains::is_unreferenced(buckets, last.first) {
            return after;
        }
        after = pop_shelf(after, shelves, buckets);
    }
    after
}

// The return of a reference to `v` empties it, and it is on the last shelf. In 32 bits: a shelf number may be 65,535 here.
fn last_emptied(head: Head, bucket: Bucket) -> bool
    ensures { result ≡ (eqb bucket.refs 1 && eqb (bucket.shelf + 1) head.shelf_count) }
{
    bucket.refs == 1 && bucket.shelf as u32 + 1 == head.shelf_count as u32
}

// One reference to bucket k comes back.
pub fn return_reference(head: Head, shelves: &[u16], buckets: &mut [u16], k: usize) -> Head
    requires { CanReturn k (atlas head shelves.now buckets.old) }
    ensures { atlas result shelves.now buckets.new
        ≡ returned present k (atlas head shelves.now buckets.old) }
{
    let bucket = records::bucket_at(buckets, k);
    let after = return_uncleaned(head, shelves, buckets, k);
    if last_emptied(head, bucket) {
        return cleanup(after, shelves, buckets);
    }
    after
}
