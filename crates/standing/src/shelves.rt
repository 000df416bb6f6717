// Where a shelf may stand. "Shelves run column by column from column 0, none skipped": a shelf at y = 0 opens the next column, any other
// stands on the one before it. Left edges are kept by adding, so nothing is divided.
ghost use Rattle.std.specs.Prelude.{◌≡◌};
ghost use Rattle.laws.proofs.Tests.Tells.{Tells};
ghost use Rattle.standing.specs.Rows.{Opens, OnRow, Standing, Ranged, row_next};

use rules::{Head, NONE, Shelf};

// How many columns the shelves so far have opened, the left edge of the one after them, and the top of the last shelf; all 0 at first.
#[derive(Clone, Copy, Default)]
pub struct Row {
    pub opened: u16,
    pub left: u16,
    pub top: u16,
}

// "Each column starts at y = 0 with a shelf of height at least 1." No column is opened past the current one.
fn is_opening(head: Head, row: Row, shelf: Shelf) -> bool
    ensures { Tells result (Opens head row shelf) }
{
    shelf.height >= 1 && row.opened <= head.column && shelf.x == row.left
}

// "no top is above the atlas height .. each next y is the last one's top"
fn is_on_row(head: Head, row: Row, shelf: Shelf) -> bool
    ensures { Tells result (OnRow head row shelf) }
{
    if shelf.y as u32 + shelf.height as u32 > head.height as u32 {
        return false;
    }
    if shelf.y == 0 {
        return is_opening(head, row, shelf);
    }
    shelf.y == row.top && shelf.x as u32 + head.column_width as u32 == row.left as u32
}

// "With one column, bucket widths are at least 1."
fn is_narrow(head: Head, shelf: Shelf) -> bool
    ensures { Tells result ((head.columns ≡ 1) × (shelf.width ≡ 0)) }
{
    head.columns == 1 && shelf.width == 0
}

// All that is asked of a shelf but its chain's buckets.
pub fn is_shelf(head: Head, row: Row, shelf: Shelf) -> bool
    ensures { Tells result (Standing head row shelf) }
{
    shelf.first != NONE && !is_narrow(head, shelf) && is_on_row(head, row, shelf)
}

// The row after a shelf that may stand.
#[tactic(auto, unfolding(crate::specs::Rows::row_next))]
pub fn row_after(head: Head, row: Row, shelf: Shelf) -> Row
    requires { Ranged head row shelf }
    ensures { result ≡ row_next head row shelf }
{
    let top = shelf.y + shelf.height;
    if shelf.y == 0 {
        return Row {
            opened: row.opened + 1,
            left: row.left + head.column_width,
            top,
        };
    }
    Row { top, ..row }
}
