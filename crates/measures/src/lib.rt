// Module 5 of document 01, the measures of a new shelf: the column it goes to, its height, its buckets' number and width, its record, and when
// a filler before it would end the table. Sides and widths are in pixels.
#![tactic(auto)]

ghost use Rattle.std.specs.Prelude.{◌&&◌, ◌≡◌, List, ℕ, ◌+◌, ◌-◌, ◌≤◌, ◌<◌, eqb};
ghost use Rattle.rules.specs.Limits.{records_most, number_most};
ghost use Rattle.rules.specs.Tables.{atlas};
ghost use Rattle.rules.specs.Builds.{present};
ghost use Rattle.rules.specs.BucketCount.{bucket_count};
ghost use Rattle.rules.specs.NewShelf.{another_column, short, opened, tall, bucket_width, column_left, shelf_for, filler_ends};
ghost use Rattle.measures.specs.Needs.{CanPlainShelf};

use rules::{Head, NONE, RECORDS_MOST, Shelf};

// "If the room left in the column is neither 0 nor at least the height asked for (not yet rounded) and another column exists"
#[tactic(auto, unfolding(rules::specs::NewShelf::short))]
pub fn is_short(head: Head, height: u16) -> bool
    ensures { result ≡ short height head }
{
    head.room != 0 && head.room < height && records::another_column(head)
}

// "If the room is then 0 and a column is left, go to it with full height."
#[tactic(auto, unfolding(rules::specs::NewShelf::opened))]
pub fn open_column(head: Head) -> Head
    requires { head.column < head.columns }
    ensures { result ≡ opened head }
{
    if head.room == 0 && records::another_column(head) {
        return Head {
            column: head.column + 1,
            room: head.height,
            ..head
        };
    }
    head
}

// "Height is the rounded height, at most the room." The rounded height may pass 16 bits.
#[tactic(auto, unfolding(rules::specs::NewShelf::tall))]
pub fn tall_for(head: Head, height: u16) -> u16
    ensures { result ≡ tall height head }
{
    sizes::shelf_height(height as u32).min(head.room as u32) as u16
}

// How many buckets a shelf of this final height gets.
#[tactic(auto, using(laws::proofs::Numbers::BucketCount::bucket_count_room))]
pub fn count_for(head: Head, w: u16, height: u16) -> u16
    requires { (1 ≤ height) × (head.bucket_count ≤ records_most) }
    ensures { result ≡ bucket_count present head.column_width w height head.bucket_count }
{
    sizes::bucket_count(
        head.column_width as u32,
        w as u32,
        height as u32,
        head.bucket_count as u32,
    ) as u16
}

// "Bucket width is column width / count, less its remainder by the width alignment."
#[tactic(auto, unfolding(rules::specs::NewShelf::bucket_width))]
pub fn bucket_width(head: Head, count: u16) -> u16
    requires { (1 ≤ count) × (1 ≤ head.align_width) }
    ensures { result ≡ bucket_width head count }
{
    let share = head.column_width / count;
    share - share % head.align_width
}

pub fn shelf_for(head: Head, height: u16, width: u16, first: u16) -> Shelf
    requires { (column_left head ≤ number_most) × (head.room ≤ head.height) }
    ensures { result ≡ shelf_for head height width first }
{
    Shelf {
        x: head.column * head.column_width,
        y: head.height - head.room,
        height,
        width,
        first,
    }
}

// "the filler shelf would bring the bucket count to 4,095", decided before anything is written: none is released that it could take
// instead, and it takes all that the table still holds. A filler is as high as the room.
pub fn filler_ends(head: Head, height: u16) -> bool
    requires { (head.column < head.columns) × (head.bucket_count < records_most) }
    ensures { (shelves buckets : List ℕ) → CanPlainShelf height (atlas head shelves buckets)
        → result ≡ filler_ends present height (atlas head shelves buckets) }
{
    is_short(head, height)
        && head.released == NONE
        && count_for(head, 0, head.room) == RECORDS_MOST - head.bucket_count
}
