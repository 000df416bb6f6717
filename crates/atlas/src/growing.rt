// Grow: 1, 21, 2, 12.
ghost use Rattle.std.specs.Prelude.{◌≡◌};
ghost use Rattle.rules.specs.Tables.{atlas};
ghost use Rattle.rules.specs.Left.{left_by};
ghost use Rattle.rules.specs.Listed.{holding, beside};
ghost use Rattle.rules.specs.Listed as listed;

use held::Entry;
use rules::{Head, Refusal};

pub fn grow<T: Entry>(
    head: Head,
    shelves: &mut [u16],
    buckets: &mut [u16],
    list: &[T],
    width: i32,
    height: i32,
) -> Result<Head, Refusal>
    ensures { beside (left_by head shelves.new buckets.new result) (T.entries list.now)
        ≡ listed.grow width height (holding (atlas head shelves.old buckets.old) (T.entries list.now)) }
{
    let verdict = held::test(list, head, shelves, buckets);
    tested::grow(verdict, head, shelves, buckets, width, height)
}
