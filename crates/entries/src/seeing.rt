// A list in any order: each entry is compared with all before it.
ghost use Rattle.std.specs.Prelude.{◌≡◌, ◌<◌, ◌≤◌, ℕ, Option, option_and_then, IfSome};
ghost use Rattle.rules.specs.Tables.{atlas};
ghost use Rattle.rules.specs.Sound.{Sound};
ghost use Rattle.entries.specs.Passes.{compared, admitted};

use crate::belonging;
use rules::{Allocation, Head};

// One more of the entries before one: how many are of its bucket, unless one shares its id or a pixel.
pub fn compare(alike: Option<u32>, entry: Allocation, before: Allocation) -> Option<u32>
    requires { IfSome alike (λ n. n < 4294967295) }
    ensures { result ≡ option_and_then (λ n. compared entry n before) alike }
{
    let alike = alike?;
    if belonging::clash(entry, before) {
        return None;
    }
    let same = numbers::id_bucket(before.id) == numbers::id_bucket(entry.id);
    Some(alike + same as u32)
}

// the entry fits by itself, beside those before it
pub fn admits(
    head: Head,
    shelves: &[u16],
    buckets: &[u16],
    entry: Allocation,
    seen: Option<u32>,
) -> bool
    requires { Sound (atlas head shelves.now buckets.now) }
    ensures { result ≡ admitted (atlas head shelves.now buckets.now) entry seen }
{
    seen.is_some_and(|alike| belonging::joins(head, shelves, buckets, entry, alike))
}
