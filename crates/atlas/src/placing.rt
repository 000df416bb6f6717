// Allocate: 1, 21, 4, 5, 22, 23, then 6, 7 or 8, then 19.
ghost use Rattle.std.specs.Prelude.{◌≡◌};
ghost use Rattle.rules.specs.Tables.{atlas};
ghost use Rattle.rules.specs.Left.{issued_by};
ghost use Rattle.rules.specs.Listed.{holding, beside};
ghost use Rattle.rules.specs.Listed as listed;

use held::Entry;
use rules::{Head, Issued, Refusal};

pub fn allocate<T: Entry>(
    head: Head,
    shelves: &mut [u16],
    buckets: &mut [u16],
    list: &mut [T],
    width: i32,
    height: i32,
) -> Result<Issued, Refusal>
    ensures { beside (issued_by head shelves.new buckets.new result) (T.entries list.new)
        ≡ listed.allocate width height (holding (atlas head shelves.old buckets.old) (T.entries list.old)) }
{
    let verdict = held::test(list, head, shelves, buckets);
    let placed = verdicts::allocate(verdict, head, shelves, buckets, list, width, height)?;
    Ok(Issued {
        head: placed.head,
        allocation: placed.allocation,
    })
}
