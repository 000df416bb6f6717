// One entry in the bucket that it names, and two entries against each other.
ghost use Rattle.std.specs.Prelude.{◌≡◌};
ghost use Rattle.rules.specs.Tables.{atlas};
ghost use Rattle.rules.specs.Sound.{Sound};
ghost use Rattle.rules.specs.Held.{belongs as Held·belongs, overlap as Held·overlap, clash as Held·clash};
ghost use Rattle.entries.specs.Parts.{lies, numbered, joins as Parts·joins};

use rules::{Allocation, Bucket, Head, ITEMS_MOST, Rectangle, Shelf};

// "its rectangle lies in that bucket's used span from the shelf's y to its top and is not empty". Sums are taken in 32 bits, where they fit
// whatever the records hold.
#[tactic(auto, unfolding(crate::specs::Parts::lies))]
fn lies(bucket: Bucket, shelf: Shelf, rectangle: Rectangle) -> bool
    ensures { result ≡ lies bucket shelf rectangle }
{
    bucket.x <= rectangle.left
        && rectangle.right as u32 + bucket.free as u32 <= bucket.x as u32 + shelf.width as u32
        && shelf.y <= rectangle.top
        && rectangle.bottom as u32 <= shelf.y as u32 + shelf.height as u32
        && rectangle.left < rectangle.right
        && rectangle.top < rectangle.bottom
}

// "Where a bucket's item count is below 4,095, the item number in each of its ids is from 1 to that count."
#[tactic(auto, unfolding(crate::specs::Parts::numbered))]
fn is_numbered(bucket: Bucket, item: u16) -> bool
    ensures { result ≡ numbered bucket item }
{
    bucket.items >= ITEMS_MOST || 1 <= item && item <= bucket.items
}

#[tactic(auto, unfolding(rules::specs::Held::belongs, crate::specs::Parts::lies, crate::specs::Parts::numbered))]
pub fn belongs(bucket: Bucket, shelf: Shelf, entry: Allocation) -> bool
    ensures { result ≡ Held·belongs bucket shelf entry }
{
    let rectangle = entry.rectangle;
    numbers::id_generation(entry.id) == bucket.generation
        && lies(bucket, shelf, rectangle)
        && is_numbered(bucket, numbers::id_item(entry.id))
}

// The entry belongs in the bucket that it names, and that bucket has a reference for it beside the `met` others. Only a bucket with a reference
// is known to name a shelf.
#[tactic(auto, unfolding(crate::specs::Parts::joins))]
pub(crate) fn joins(
    head: Head,
    shelves: &[u16],
    buckets: &[u16],
    entry: Allocation,
    met: u32,
) -> bool
    requires { Sound (atlas head shelves.now buckets.now) }
    ensures { result ≡ Parts·joins (atlas head shelves.now buckets.now) entry met }
{
    let k = numbers::id_bucket(entry.id);
    if k >= head.bucket_count {
        return false;
    }
    let bucket = records::bucket_at(buckets, k as usize);
    if met >= bucket.refs as u32 {
        return false;
    }
    let shelf = records::shelf_at(shelves, bucket.shelf as usize);
    belongs(bucket, shelf, entry)
}

// two rectangles that are not empty share a pixel
#[tactic(auto, unfolding(rules::specs::Held::overlap))]
fn overlap(one: Rectangle, other: Rectangle) -> bool
    ensures { result ≡ Held·overlap one other }
{
    one.left < other.right
        && other.left < one.right
        && one.top < other.bottom
        && other.top < one.bottom
}

// "no two share an id or a pixel"
#[tactic(auto, unfolding(rules::specs::Held::clash))]
pub fn clash(one: Allocation, other: Allocation) -> bool
    ensures { result ≡ Held·clash one other }
{
    let here = one.rectangle;
    let there = other.rectangle;
    one.id == other.id || overlap(here, there)
}
