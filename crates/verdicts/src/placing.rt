// Allocate: 1 and 21 as the verdict has them, 4, 5, 22, 23, then 6, 7 or 8, then 19.
ghost use Rattle.std.specs.Prelude.{◌≡◌};
ghost use Rattle.rules.specs.Tables.{atlas};
ghost use Rattle.rules.specs.Listed.{holding};
ghost use Rattle.rules.specs.Listed as listed;
ghost use Rattle.verdicts.specs.Next.{Tested, TestedPlaced, placed_by};

use crate::Placed;
use held::Entry;
use rules::{Entering, Head, Refusal};

// "Allocate adds to it"
pub fn allocate<T: Entry>(
    verdict: Result<u32, Refusal>,
    head: Head,
    shelves: &mut [u16],
    buckets: &mut [u16],
    list: &mut [T],
    width: i32,
    height: i32,
) -> Result<Placed, Refusal>
    requires { Tested verdict head shelves.old buckets.old (T.entries list.old) }
    ensures { (placed_by head shelves.new buckets.new (T.entries list.new) result
        ≡ listed.allocate width height (holding (atlas head shelves.old buckets.old) (T.entries list.old)))
        × TestedPlaced verdict head shelves.new buckets.new (T.entries list.new) result }
{
    let count = verdict?;
    let Entering {
        head,
        allocation,
        place,
    } = requests::allocate(verdict, list.len(), head, shelves, buckets, width, height)?;
    held::add(list, count as usize, place as usize, allocation);
    Ok(Placed {
        head,
        allocation,
        count: count + 1,
    })
}
