// Module 4 of document 01, the bucket store: a new bucket, and a run of them laid left to right at the head of a chain.
// The shelf table is not looked at: each equation holds whatever it holds.
#![tactic(auto)]

ghost use Rattle.std.specs.Prelude.{◌≡◌, List, ℕ};
ghost use Rattle.rules.specs.Tables.{atlas};
ghost use Rattle.rules.specs.Store.{fresh, new_index, add_bucket, lay_one, lay_many};
ghost use Rattle.store.specs.Needs.{lays, RoomFor, CanLay};

use rules::{Bucket, Head, Laying, NONE};

// "Its free width is the bucket width, both its counts are 0."
fn fresh_bucket(x: u16, width: u16, next: u16, shelf: u16, generation: u16) -> Bucket
    ensures { result ≡ fresh x width next shelf generation }
{
    Bucket {
        x,
        free: width,
        next,
        refs: 0,
        items: 0,
        shelf,
        generation,
    }
}

// "A new bucket takes the head of the released chain, .. or else extends the table": its index.
#[tactic(auto, unfolding(rules::specs::Store::new_index))]
fn new_index(head: Head) -> u16
    ensures { result ≡ new_index head }
{
    if head.released == NONE {
        head.bucket_count
    } else {
        head.released
    }
}

// A new bucket at x, in front of `next`.
fn add_bucket(head: Head, buckets: &mut [u16], x: u16, width: u16, next: u16, shelf: u16) -> Head
    requires { RoomFor 1 head buckets.old }
    ensures { (shelves : List ℕ) → atlas result shelves buckets.new
        ≡ add_bucket x width next shelf (atlas head shelves buckets.old) }
{
    if head.released == NONE {
        let end = head.bucket_count;
        records::put_bucket(
            buckets,
            end as usize,
            fresh_bucket(x, width, next, shelf, 0),
        );
        return Head {
            bucket_count: end + 1,
            ..head
        };
    }
    let at = head.released;
    let old = records::bucket_at(buckets, at as usize);
    let generation = numbers::next_generation(old.generation);
    records::put_bucket(
        buckets,
        at as usize,
        fresh_bucket(x, width, next, shelf, generation),
    );
    Head {
        released: old.next,
        ..head
    }
}

// "Buckets are laid left to right, each put at the head of the chain."
#[tactic(auto, unfolding(rules::specs::Store::lay_one))]
fn lay_one(laying: Laying, buckets: &mut [u16], width: u16, shelf: u16) -> Laying
    requires { CanLay 1 width laying.x laying.head buckets.old }
    ensures { (shelves : List ℕ) → lays result shelves buckets.new
        ≡ lay_one width shelf (lays laying shelves buckets.old) }
{
    let head = laying.head;
    let at = new_index(head);
    let after = add_bucket(head, buckets, laying.x, width, laying.first, shelf);
    Laying {
        head: after,
        x: laying.x + width,
        first: at,
    }
}

// k of them.
pub fn lay_many(laying: Laying, buckets: &mut [u16], k: u16, width: u16, shelf: u16) -> Laying
    requires { CanLay k width laying.x laying.head buckets.old }
    ensures { (shelves : List ℕ) → lays result shelves buckets.new
        ≡ lay_many k width shelf (lays laying shelves buckets.old) }
{
    let mut laid = laying;
    for _ in 0..k {
        laid = lay_one(laid, buckets, width, shelf);
    }
    laid
}
