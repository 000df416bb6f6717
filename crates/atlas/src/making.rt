// Creation and clear. New: 1 (room only), 2, 3. Clear: 1, 21.
ghost use Rattle.std.specs.Prelude.{◌≡◌};
ghost use Rattle.rules.specs.Tables.{atlas};
ghost use Rattle.rules.specs.Calls as calls;
ghost use Rattle.rules.specs.Listed.{holding, beside};
ghost use Rattle.rules.specs.Left.{left_by};
ghost use Rattle.rules.specs.Listed as listed;

use held::Entry;
use rules::{Head, Refusal};

// The tables are only looked at for their room, and nothing is written.
pub fn new(
    shelves: &[u16],
    buckets: &[u16],
    width: i32,
    height: i32,
    align_width: i32,
    align_height: i32,
    columns: i32,
    vertical: u8,
) -> Result<Head, Refusal>
    ensures { result ≡ calls.new width height align_width align_height columns vertical shelves.now buckets.now }
{
    if !sound::is_lent(shelves, buckets) {
        return Err(Refusal::Tables);
    }
    tested::made(
        numbers::natural(width),
        numbers::natural(height),
        numbers::natural(align_width),
        numbers::natural(align_height),
        numbers::natural(columns),
        vertical,
    )
}

pub fn clear<T: Entry>(
    head: Head,
    shelves: &[u16],
    buckets: &[u16],
    list: &[T],
) -> Result<Head, Refusal>
    ensures { beside (left_by head shelves.now buckets.now result) (T.entries list.now)
        ≡ listed.clear (holding (atlas head shelves.now buckets.now) (T.entries list.now)) }
{
    let verdict = held::test(list, head, shelves, buckets);
    tested::clear(verdict, head)
}
