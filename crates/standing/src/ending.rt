// What the header says of the end of the shelves.
ghost use Rattle.std.specs.Prelude.{◌≡◌, ◌<◌};
ghost use Rattle.laws.proofs.Tests.Tells.{Tells};
ghost use Rattle.standing.specs.Ending.{Ends};

use crate::shelves::Row;
use asked::Tally;
use rules::Head;

// What the pass over the shelves has come to: the row, the pixels used before the last shelf, and the tally with it.
#[derive(Clone, Copy, Default)]
pub struct Pass {
    pub row: Row,
    pub before: u64,
    pub tally: Tally,
}

// "With no shelf: column 0, full room. With shelves: the last is in the current column and the room left is the height less its top."
// "The last shelf, if any, has a referenced bucket": the figure rose at it.
pub fn is_ended(head: Head, pass: Pass) -> bool
    requires { head.column < head.columns }
    ensures { Tells result (Ends head pass) }
{
    if head.occupied as u64 != pass.tally.pixels {
        return false;
    }
    if head.shelf_count == 0 {
        return head.column == 0 && head.room == head.height;
    }
    pass.row.opened == head.column + 1
        && head.room as u32 + pass.row.top as u32 == head.height as u32
        && pass.tally.pixels > pass.before
}
