// The tests of what is lent, in the order in which a call makes them.
ghost use Rattle.std.specs.Prelude.{◌≡◌};
ghost use Rattle.rules.specs.Tables.{atlas};
ghost use Rattle.rules.specs.Listed.{holding, verdict as Listed·verdict};

use crate::fitting;
use crate::form::Entry;
use rules::{Head, Refusal};

// How many entries there are; "1 lent room too short, or tables not sound", "21 list not fitting the tables, straight after 1".
pub fn test<T: Entry>(
    list: &[T],
    head: Head,
    shelves: &[u16],
    buckets: &[u16],
) -> Result<u32, Refusal>
    ensures { result ≡ Listed·verdict (holding (atlas head shelves.now buckets.now) (T.entries list.now)) }
{
    if !sound::is_sound(head, shelves, buckets) {
        return Err(Refusal::Tables);
    }
    if !fitting::fits(list, head, shelves, buckets) {
        return Err(Refusal::List);
    }
    Ok(entries::entries(head, buckets))
}
