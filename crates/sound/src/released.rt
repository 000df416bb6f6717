// The released chain.
ghost use Rattle.std.specs.Prelude.{MatchOption};
ghost use Rattle.walks.specs.Walks.{CanWalk, EachTo, FreeYes, FreeNo};

use asked::Tally;
use rules::NONE;
use walks::Records;

// From its `first` bucket on. A `while`: which bucket is next stands in the one before it.
pub(crate) fn walk_released<R: Records + Copy>(
    records: R,
    count: usize,
    first: u16,
    marks: &mut [u8],
    from: Tally,
) -> Option<Tally>
    requires { CanWalk (R.buckets records) count marks.old from × EachTo count (R.has_bucket records) }
    ensures { MatchOption result
        (FreeNo (R.buckets records) count first marks.old)
        (FreeYes (R.buckets records) count first marks.old marks.new from) }
{
    let mut here = first as usize;
    let mut seen = from.seen;
    while here < count {
        if marks[here] != 0 {
            return None;
        }
        marks[here] = 1;
        let bucket = records.bucket(here);
        if !asked::is_freed(bucket) {
            return None;
        }
        seen += 1;
        here = bucket.next as usize;
    }
    if here != NONE as usize {
        return None;
    }
    Some(Tally { seen, ..from })
}
