// Deallocate: 1, 21, 9, 10, 11, 20.
ghost use Rattle.std.specs.Prelude.{◌≡◌};
ghost use Rattle.rules.specs.Tables.{atlas};
ghost use Rattle.rules.specs.Left.{left_by};
ghost use Rattle.rules.specs.Listed.{holding, beside};
ghost use Rattle.rules.specs.Listed as listed;

use held::Entry;
use rules::{Head, Refusal};

pub fn deallocate<T: Entry>(
    head: Head,
    shelves: &[u16],
    buckets: &mut [u16],
    list: &mut [T],
    id: u32,
) -> Result<Head, Refusal>
    ensures { beside (left_by head shelves.now buckets.new result) (T.entries list.new)
        ≡ listed.deallocate id (holding (atlas head shelves.now buckets.old) (T.entries list.old)) }
{
    let verdict = held::test(list, head, shelves, buckets);
    let kept = verdicts::deallocate(verdict, head, shelves, buckets, list, id)?;
    Ok(kept.head)
}
