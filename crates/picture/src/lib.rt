// The picture of an atlas for the service report (T-07), as SVG into a lent buffer: 1 and 21 by the tests of the lent tables and list, then 24. It answers
// on any input, and a refusal has written nothing. Who has the verdict of the tests already calls `drawing::show` and lends no list.
#![tactic(auto)]

ghost use Rattle.std.specs.Prelude.{◌≡◌};
ghost use Rattle.rules.specs.Tables.{atlas};
ghost use Rattle.rules.specs.Saving.{saved};
ghost use Rattle.rules.specs.Listed.{holding};
ghost use Rattle.rules.specs.Listed as listed;

use held::Entry;
use rules::{Head, Refusal};

// How many bytes the text takes is the answer; they stand from the buffer's start on.
pub fn picture<T: Entry>(
    head: Head,
    shelves: &[u16],
    buckets: &[u16],
    list: &[T],
    out: &mut [u8],
) -> Result<u32, Refusal>
    ensures { saved result out.new
        ≡ listed.picture (holding (atlas head shelves.now buckets.now) (T.entries list.now)) out.old }
{
    let verdict = held::test(list, head, shelves, buckets);
    drawing::show(verdict, head, shelves, buckets, out)
}
