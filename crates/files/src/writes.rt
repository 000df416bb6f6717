// Write: 1 and 21 by the tests of the lent tables and list, then 18. Who has the verdict of the tests already calls `writing::save` and
// lends no list.
ghost use Rattle.std.specs.Prelude.{◌≡◌};
ghost use Rattle.rules.specs.Tables.{atlas};
ghost use Rattle.rules.specs.Builds.{present};
ghost use Rattle.rules.specs.Files.{saved};
ghost use Rattle.rules.specs.Listed.{holding};
ghost use Rattle.rules.specs.Listed as listed;

use held::Entry;
use rules::{Head, Refusal};

// How many bytes the file takes is the answer; they stand from the buffer's start on.
pub fn write<T: Entry>(
    head: Head,
    shelves: &[u16],
    buckets: &[u16],
    list: &[T],
    out: &mut [u8],
) -> Result<u32, Refusal>
    ensures { saved result out.new
        ≡ listed.write present (holding (atlas head shelves.now buckets.now) (T.entries list.now)) out.old }
{
    let verdict = held::test(list, head, shelves, buckets);
    writing::save(verdict, head, shelves, buckets, out)
}
