// Module 5 of document 01, a new shelf: its buckets, its record, and the filler that may go before it.
#![tactic(auto)]

ghost use Rattle.std.specs.Prelude.{◌≡◌, List, ℕ, ◌+◌, ◌*◌, ◌≤◌, ◌<◌, length};
ghost use Rattle.rules.specs.Limits.{records_most};
ghost use Rattle.rules.specs.Tables.{atlas};
ghost use Rattle.rules.specs.Builds.{present};
ghost use Rattle.rules.specs.NewShelf.{pushed, laid_shelf, plain_shelf, new_shelf};
ghost use Rattle.store.specs.Needs.{lays};
ghost use Rattle.measures.specs.Needs.{Framed, CanStand, CanPlainShelf, CanNewShelf};

use rules::{Head, Laying, NONE};

// The shelf's record goes after the last, its buckets being laid.
#[tactic(auto, unfolding(rules::specs::NewShelf::pushed))]
fn push_shelf(head: Head, shelves: &mut [u16], laying: Laying, height: u16, width: u16) -> Head
    requires { Framed head × (height ≤ head.room) × (head.shelf_count < records_most) × (5 * head.shelf_count + 5 ≤ length shelves.old) }
    ensures { (buckets : List ℕ) → atlas result shelves.new buckets
        ≡ pushed head height width (lays laying shelves.old buckets) }
{
    records::put_shelf(
        shelves,
        head.shelf_count as usize,
        measures::shelf_for(head, height, width, laying.first),
    );
    Head {
        column: head.column,
        room: head.room - height,
        shelf_count: head.shelf_count + 1,
        ..laying.head
    }
}

// A shelf of `count` buckets on the room of the current column.
fn lay_shelf(head: Head, shelves: &mut [u16], buckets: &mut [u16], height: u16, count: u16) -> Head
    requires { CanStand height count (atlas head shelves.old buckets.old) }
    ensures { atlas result shelves.new buckets.new
        ≡ laid_shelf height count (atlas head shelves.old buckets.old) }
{
    let width = measures::bucket_width(head, count);
    let start = Laying {
        head,
        x: head.column * head.column_width,
        first: NONE,
    };
    let laid = store::lay_many(start, buckets, count, width, head.shelf_count);
    push_shelf(head, shelves, laid, height, width)
}

// A column opened where it is time to, and a shelf in it.
fn plain_shelf(head: Head, shelves: &mut [u16], buckets: &mut [u16], w: u16, height: u16) -> Head
    requires { CanPlainShelf height (atlas head shelves.old buckets.old) }
    ensures { atlas result shelves.new buckets.new
        ≡ plain_shelf present w height (atlas head shelves.old buckets.old) }
{
    let open = measures::open_column(head);
    let high = measures::tall_for(open, height);
    let count = measures::count_for(open, w, high);
    lay_shelf(open, shelves, buckets, high, count)
}

// "a filler shelf takes that room first; the filler is laid by the same step called once more, with width 0"
pub fn new_shelf(head: Head, shelves: &mut [u16], buckets: &mut [u16], w: u16, height: u16) -> Head
    requires { CanNewShelf height (atlas head shelves.old buckets.old) }
    ensures { atlas result shelves.new buckets.new
        ≡ new_shelf present w height (atlas head shelves.old buckets.old) }
{
    if measures::is_short(head, height) {
        let room = head.room;
        let filled = new_shelf(head, shelves, buckets, 0, room);
        return plain_shelf(filled, shelves, buckets, w, height);
    }
    plain_shelf(head, shelves, buckets, w, height)
}
