// Deallocate: 1 and 21 as the verdict has them, 9, 10, 11, 20. Clear: 1, 21. Grow: 1, 21, 2, 12.
ghost use Rattle.std.specs.Prelude.{◌≡◌, List, ℕ};
ghost use Rattle.rules.specs.declared.Allocation.{Allocation};
ghost use Rattle.rules.specs.Tables.{atlas};
ghost use Rattle.rules.specs.Listed.{holding};
ghost use Rattle.rules.specs.Listed as listed;
ghost use Rattle.entries.specs.Verdicts.{Judged};
ghost use Rattle.verdicts.specs.Next.{Tested, TestedChanged, changed_by};

use crate::Changed;
use held::Entry;
use rules::{Head, Refusal};

// "return takes out"
pub fn deallocate<T: Entry>(
    verdict: Result<u32, Refusal>,
    head: Head,
    shelves: &[u16],
    buckets: &mut [u16],
    list: &mut [T],
    id: u32,
) -> Result<Changed, Refusal>
    requires { Tested verdict head shelves.now buckets.old (T.entries list.old) }
    ensures { (changed_by head shelves.now buckets.new (T.entries list.new) result
        ≡ listed.deallocate id (holding (atlas head shelves.now buckets.old) (T.entries list.old)))
        × TestedChanged verdict head shelves.now buckets.new (T.entries list.new) result }
{
    let count = verdict?;
    let at = held::find(list, count as usize, id);
    let after = tested::deallocate(verdict, at, head, shelves, buckets, id)?;
    held::remove(list, count as usize, at);
    Ok(Changed {
        head: after,
        count: count - 1,
    })
}

// "new and clear empty it". Nothing of tables and list is looked at.
pub fn clear(verdict: Result<u32, Refusal>, head: Head) -> Result<Changed, Refusal>
    ensures { (shelves buckets : List ℕ) (list : List Allocation) → Tested verdict head shelves buckets list
        → (changed_by head shelves buckets list result ≡ listed.clear (holding (atlas head shelves buckets) list))
        × TestedChanged verdict head shelves buckets list result }
{
    let after = tested::clear(verdict, head)?;
    Ok(Changed {
        head: after,
        count: 0,
    })
}

// No reference count is changed, so the list has as many entries as before.
pub fn grow(
    verdict: Result<u32, Refusal>,
    head: Head,
    shelves: &mut [u16],
    buckets: &mut [u16],
    width: i32,
    height: i32,
) -> Result<Changed, Refusal>
    requires { Judged verdict (atlas head shelves.old buckets.old) }
    ensures { (list : List Allocation) → Tested verdict head shelves.old buckets.old list
        → (changed_by head shelves.new buckets.new list result
        ≡ listed.grow width height (holding (atlas head shelves.old buckets.old) list))
        × TestedChanged verdict head shelves.new buckets.new list result }
{
    let count = verdict?;
    let after = tested::grow(verdict, head, shelves, buckets, width, height)?;
    Ok(Changed { head: after, count })
}
