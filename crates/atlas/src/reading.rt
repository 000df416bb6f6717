// The tests, and the four reading calls: 1, 21.
ghost use Rattle.std.specs.Prelude.{◌≡◌, ◌&&◌};
ghost use Rattle.rules.specs.Tables.{atlas};
ghost use Rattle.rules.specs.Sound.{is_sound};
ghost use Rattle.rules.specs.Held.{fits as Held·fits};
ghost use Rattle.rules.specs.Listed.{holding};
ghost use Rattle.rules.specs.Listed as listed;

use held::Entry;
use rules::{Head, Refusal};

pub fn is_sound(head: Head, shelves: &[u16], buckets: &[u16]) -> bool
    ensures { result ≡ is_sound (atlas head shelves.now buckets.now) }
{
    sound::is_sound(head, shelves, buckets)
}

// The tables are sound and the list fits them.
pub fn fits<T: Entry>(head: Head, shelves: &[u16], buckets: &[u16], list: &[T]) -> bool
    ensures { result ≡ (is_sound (atlas head shelves.now buckets.now)
        && Held·fits (atlas head shelves.now buckets.now) (T.entries list.now)) }
{
    is_sound(head, shelves, buckets) && held::fits(list, head, shelves, buckets)
}

pub fn size<T: Entry>(
    head: Head,
    shelves: &[u16],
    buckets: &[u16],
    list: &[T],
) -> Result<(u16, u16), Refusal>
    ensures { result ≡ listed.size (holding (atlas head shelves.now buckets.now) (T.entries list.now)) }
{
    let verdict = held::test(list, head, shelves, buckets);
    tested::size(verdict, head)
}

pub fn is_empty<T: Entry>(
    head: Head,
    shelves: &[u16],
    buckets: &[u16],
    list: &[T],
) -> Result<bool, Refusal>
    ensures { result ≡ listed.is_empty (holding (atlas head shelves.now buckets.now) (T.entries list.now)) }
{
    let verdict = held::test(list, head, shelves, buckets);
    tested::is_empty(verdict, head)
}

pub fn allocated_space<T: Entry>(
    head: Head,
    shelves: &[u16],
    buckets: &[u16],
    list: &[T],
) -> Result<u32, Refusal>
    ensures { result ≡ listed.allocated_space (holding (atlas head shelves.now buckets.now) (T.entries list.now)) }
{
    let verdict = held::test(list, head, shelves, buckets);
    tested::allocated_space(verdict, head)
}

pub fn free_space<T: Entry>(
    head: Head,
    shelves: &[u16],
    buckets: &[u16],
    list: &[T],
) -> Result<u32, Refusal>
    ensures { result ≡ listed.free_space_of (holding (atlas head shelves.now buckets.now) (T.entries list.now)) }
{
    let verdict = held::test(list, head, shelves, buckets);
    tested::free_space(verdict, head)
}
