// Module 10, grow and clear, and the free figure. Height, room and column width are set before the first bucket is added, so each added
// bucket lies in its column; the old column width is kept as the start.
#![tactic(auto)]

ghost use Rattle.std.specs.Prelude.{◌≡◌, ◌≤◌};
ghost use Rattle.rules.specs.Limits.{records_most};
ghost use Rattle.rules.specs.Tables.{atlas};
ghost use Rattle.rules.specs.Grow.{grown_head, more_buckets, widened, widened_to, grown, cleared_head, free_space};
ghost use Rattle.grow.specs.Needs.{CanSize, CanWiden, CanWidenAll, CanGrow, CanFree};

use rules::{Head, Laying, NONE, RECORDS_MOST, Shelf};

// "Room rises by the added height." One column: as wide as the atlas, unrounded; more columns: as many as fit.
#[tactic(auto, unfolding(rules::specs::Grow::grown_head))]
fn grown_head(head: Head, width: u16, height: u16) -> Head
    requires { CanSize height head }
    ensures { result ≡ grown_head width height head }
{
    let room = head.room + (height - head.height);
    let sized = Head {
        width,
        height,
        room,
        ..head
    };
    if head.columns == 1 {
        return Head {
            column_width: width,
            ..sized
        };
    }
    Head {
        columns: width / head.column_width,
        ..sized
    }
}

// "(new width - column width) / bucket width more buckets, but at most 4,095 less the bucket count at that moment"
fn more_buckets(added: u16, shelf: Shelf, head: Head) -> u16
    requires { (1 ≤ shelf.width) × (head.bucket_count ≤ records_most) }
    ensures { result ≡ more_buckets added shelf head }
{
    (added / shelf.width).min(RECORDS_MOST - head.bucket_count)
}

// Shelf i gets `count` more buckets from x on, "at the chain's head".
fn widen(head: Head, shelves: &mut [u16], buckets: &mut [u16], x: u16, count: u16, i: u16) -> Head
    requires { CanWiden x count i (atlas head shelves.old buckets.old) }
    ensures { atlas result shelves.new buckets.new
        ≡ widened x count i (atlas head shelves.old buckets.old) }
{
    let shelf = records::shelf_at(shelves, i as usize);
    let start = Laying {
        head,
        x,
        first: shelf.first,
    };
    let laid = store::lay_many(start, buckets, count, shelf.width, i);
    let headed = Shelf {
        first: laid.first,
        ..shelf
    };
    records::put_shelf(shelves, i as usize, headed);
    laid.head
}

// "each shelf in order": all of them, from x on.
fn widen_all(head: Head, shelves: &mut [u16], buckets: &mut [u16], x: u16, added: u16) -> Head
    requires { CanWidenAll x added (atlas head shelves.old buckets.old) }
    ensures { atlas result shelves.new buckets.new
        ≡ widened_to x added head.shelf_count (atlas head shelves.old buckets.old) }
{
    let mut after = head;
    for i in 0..head.shelf_count {
        let shelf = records::shelf_at(shelves, i as usize);
        let count = more_buckets(added, shelf, after);
        after = widen(after, shelves, buckets, x, count, i);
    }
    after
}

// To the present size too: one column may gain the strip lost to alignment.
pub fn grow(head: Head, shelves: &mut [u16], buckets: &mut [u16], width: u16, height: u16) -> Head
    requires { CanGrow width height (atlas head shelves.old buckets.old) }
    ensures { atlas result shelves.new buckets.new
        ≡ grown width height (atlas head shelves.old buckets.old) }
{
    let sized = grown_head(head, width, height);
    if head.columns == 1 {
        return widen_all(
            sized,
            shelves,
            buckets,
            head.column_width,
            width - head.column_width,
        );
    }
    sized
}

// "Clear drops both tables": by their counts alone.
#[tactic(auto, unfolding(rules::specs::Grow::cleared_head))]
pub fn cleared_head(head: Head) -> Head
    ensures { result ≡ cleared_head head }
{
    Head {
        column: 0,
        room: head.height,
        shelf_count: 0,
        bucket_count: 0,
        released: NONE,
        occupied: 0,
        ..head
    }
}

// "Free space is width times height less the occupied figure", in pixels.
#[tactic(auto, unfolding(rules::specs::Grow::free_space))]
pub fn free_space(head: Head) -> u32
    requires { CanFree head }
    ensures { result ≡ free_space head }
{
    head.width as u32 * head.height as u32 - head.occupied
}
