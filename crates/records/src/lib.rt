// The records of the two lent tables, in and out by value. Nothing above these four functions sees an index into a table's numbers.
#![tactic(auto)]

mod heads; // heads.rt: a test of the header's columns

ghost use Rattle.std.specs.Prelude.{◌≡◌, ◌+◌, ◌*◌, ◌≤◌, length};
ghost use Rattle.rules.specs.Tables.{bucket_at, put_bucket, shelf_at, put_shelf};

pub use heads::another_column;
use rules::{Bucket, Shelf};

#[tactic(auto, unfolding(rules::specs::Tables::bucket_at))]
pub fn bucket_at(buckets: &[u16], i: usize) -> Bucket
    requires { 7 * i + 7 ≤ length buckets.now }
    ensures { result ≡ bucket_at buckets.now i }
{
    let k = 7 * i;
    Bucket {
        x: buckets[k],
        free: buckets[k + 1],
        next: buckets[k + 2],
        refs: buckets[k + 3],
        items: buckets[k + 4],
        shelf: buckets[k + 5],
        generation: buckets[k + 6],
    }
}

#[tactic(auto, unfolding(rules::specs::Tables::put_bucket))]
pub fn put_bucket(buckets: &mut [u16], i: usize, bucket: Bucket)
    requires { 7 * i + 7 ≤ length buckets.old }
    ensures { buckets.new ≡ put_bucket buckets.old i bucket }
{
    let k = 7 * i;
    buckets[k] = bucket.x;
    buckets[k + 1] = bucket.free;
    buckets[k + 2] = bucket.next;
    buckets[k + 3] = bucket.refs;
    buckets[k + 4] = bucket.items;
    buckets[k + 5] = bucket.shelf;
    buckets[k + 6] = bucket.generation;
}

#[tactic(auto, unfolding(rules::specs::Tables::shelf_at))]
pub fn shelf_at(shelves: &[u16], i: usize) -> Shelf
    requires { 5 * i + 5 ≤ length shelves.now }
    ensures { result ≡ shelf_at shelves.now i }
{
    let k = 5 * i;
    Shelf {
        x: shelves[k],
        y: shelves[k + 1],
        height: shelves[k + 2],
        width: shelves[k + 3],
        first: shelves[k + 4],
    }
}

#[tactic(auto, unfolding(rules::specs::Tables::put_shelf))]
pub fn put_shelf(shelves: &mut [u16], i: usize, shelf: Shelf)
    requires { 5 * i + 5 ≤ length shelves.old }
    ensures { shelves.new ≡ put_shelf shelves.old i shelf }
{
    let k = 5 * i;
    shelves[k] = shelf.x;
    shelves[k + 1] = shelf.y;
    shelves[k + 2] = shelf.height;
    shelves[k + 3] = shelf.width;
    shelves[k + 4] = shelf.first;
}
