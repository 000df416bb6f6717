// Module 8 of document 01, the issue of a rectangle: w of the free width of one bucket.
// Sides are in pixels.
#![tactic(auto)]

ghost use Rattle.std.specs.Prelude.{◌≡◌, ◌+◌, ◌*◌, ◌≤◌, ◌<◌};
ghost use Rattle.rules.specs.Limits.{items_last, number_most};
ghost use Rattle.rules.specs.Tables.{atlas, outcome};
ghost use Rattle.rules.specs.Issue.{rectangle_for, area, taken, allocation_for, issue};
ghost use Rattle.issue.specs.Needs.{CanTake, CanIssue};

use rules::{Allocation, Bucket, Head, Issued, Rectangle, Shelf};

// "The rectangle starts at bucket x + bucket width - free width and is w wide and as high as the shelf."
fn rectangle_for(shelf: Shelf, bucket: Bucket, w: u16) -> Rectangle
    requires { CanTake shelf bucket w }
    ensures { result ≡ rectangle_for shelf bucket w }
{
    let left = bucket.x + shelf.width - bucket.free;
    Rectangle {
        left,
        top: shelf.y,
        right: left + w,
        bottom: shelf.y + shelf.height,
    }
}

// "the id carries the risen item count"
fn allocation_for(k: u16, shelf: Shelf, bucket: Bucket, w: u16) -> Allocation
    requires { CanTake shelf bucket w × (k < 4096) }
    ensures { result ≡ allocation_for k shelf bucket w }
{
    let rectangle = rectangle_for(shelf, bucket, w);
    let id = numbers::id_of(k, bucket.items + 1, bucket.generation);
    Allocation { id, rectangle }
}

// "Reference and item counts rise by 1": the bucket with w less.
fn take(bucket: Bucket, w: u16) -> Bucket
    requires { (w ≤ bucket.free) × (bucket.refs < number_most) × (bucket.items < items_last) }
    ensures { result ≡ taken bucket w }
{
    Bucket {
        free: bucket.free - w,
        refs: bucket.refs + 1,
        items: bucket.items + 1,
        ..bucket
    }
}

fn area_of(rectangle: Rectangle) -> u32
    requires { (rectangle.left ≤ rectangle.right) × (rectangle.top ≤ rectangle.bottom) }
    ensures { result ≡ area rectangle }
{
    (rectangle.right - rectangle.left) as u32 * (rectangle.bottom - rectangle.top) as u32
}

// w from bucket k of shelf i; "the occupied figure rises by the area".
#[tactic(auto, unfolding(rules::specs::Issue::issue))]
pub fn issue(head: Head, shelves: &[u16], buckets: &mut [u16], i: u16, k: u16, w: u16) -> Issued
    requires { CanIssue i k w (atlas head shelves.now buckets.old) }
    ensures { outcome result.allocation (atlas result.head shelves.now buckets.new)
        ≡ issue i k w (atlas head shelves.now buckets.old) }
{
    let shelf = records::shelf_at(shelves, i as usize);
    let bucket = records::bucket_at(buckets, k as usize);
    let allocation = allocation_for(k, shelf, bucket, w);
    let pixels = area_of(allocation.rectangle);
    records::put_bucket(buckets, k as usize, take(bucket, w));
    let head = Head {
        occupied: head.occupied + pixels,
        ..head
    };
    Issued { head, allocation }
}
