// The parts of a bucket, those along a chain, those of all shelves: a line for each.
ghost use Rattle.std.specs.Prelude.{◌≡◌, ◌+◌, ◌≤◌, length};
ghost use Rattle.rules.specs.Limits.{picture_most};
ghost use Rattle.rules.specs.Tables.{atlas};
ghost use Rattle.rules.specs.Chains.{chain};
ghost use Rattle.rules.specs.Sound.{Sound};
ghost use Rattle.rules.specs.Picture.{used_part, free_part, parts, parts_along, parts_to, lines_of};
ghost use Rattle.lines.specs.Put.{Put};
ghost use Rattle.drawing.specs.Drawable.{Spanned, DrawableChain};

use crate::texts::put_rect;
use rules::{Bucket, Drawn, Head, NONE, Paint, Shelf};

// "one such line for the used part .., even if 0 wide"
fn used_part(shelf: Shelf, bucket: Bucket) -> Drawn
    requires { Spanned shelf bucket }
    ensures { result ≡ used_part shelf bucket }
{
    Drawn {
        x: bucket.x,
        y: shelf.y,
        width: shelf.width - bucket.free,
        height: shelf.height,
        paint: Paint::Used,
    }
}

fn free_part(shelf: Shelf, bucket: Bucket) -> Drawn
    requires { Spanned shelf bucket }
    ensures { result ≡ free_part shelf bucket }
{
    Drawn {
        x: bucket.x + (shelf.width - bucket.free),
        y: shelf.y,
        width: bucket.free,
        height: shelf.height,
        paint: Paint::Free,
    }
}

// "and one .. for the free part where it is not 0 wide"
fn put_parts(out: &mut [u8], at: usize, shelf: Shelf, bucket: Bucket) -> usize
    requires { Spanned shelf bucket × (at + length (lines_of (parts shelf bucket)) ≤ picture_most) }
    ensures { Put out.old out.new at result (lines_of (parts shelf bucket)) }
{
    let end = put_rect(out, at, used_part(shelf, bucket));
    if bucket.free == 0 {
        return end;
    }
    put_rect(out, end, free_part(shelf, bucket))
}

// "along each chain": that from `first` on, of a shelf.
fn put_along(out: &mut [u8], at: usize, shelf: Shelf, buckets: &[u16], first: u16) -> usize
    requires { DrawableChain buckets.now shelf first
        × (at + length (lines_of (parts_along buckets.now shelf (chain buckets.now first))) ≤ picture_most) }
    ensures { Put out.old out.new at result
        (lines_of (parts_along buckets.now shelf (chain buckets.now first))) }
{
    let mut end = at;
    let mut k = first;
    while k != NONE {
        let bucket = records::bucket_at(buckets, k as usize);
        end = put_parts(out, end, shelf, bucket);
        k = bucket.next;
    }
    end
}

// "shelf by shelf"
pub fn put_shelves(out: &mut [u8], at: usize, head: Head, shelves: &[u16], buckets: &[u16]) -> usize
    requires { Sound (atlas head shelves.now buckets.now)
        × (at + length (lines_of (parts_to (atlas head shelves.now buckets.now) head.shelf_count)) ≤ picture_most) }
    ensures { Put out.old out.new at result
        (lines_of (parts_to (atlas head shelves.now buckets.now) head.shelf_count)) }
{
    let mut end = at;
    for i in 0..head.shelf_count as usize {
        let shelf = records::shelf_at(shelves, i);
        end = put_along(out, end, shelf, buckets, shelf.first);
    }
    end
}
