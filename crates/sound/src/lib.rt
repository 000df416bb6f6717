// The tables test: document 01's "Sound tables", decided in one pass. Each shelf and each bucket record in use is read once; a local
// array marks the buckets met. It answers on any numbers at all.
#![tactic(auto)]

mod pass; // pass.rt: all shelves, each followed by its chain
mod released; // released.rt: the released chain

ghost use Rattle.std.specs.Prelude.{◌≡◌, ◌≤◌};
ghost use Rattle.rules.specs.Tables.{atlas};
ghost use Rattle.rules.specs.Limits.{records_most};
ghost use Rattle.rules.specs.Sound.{Sound, is_sound};
ghost use Rattle.laws.proofs.Tests.Tells.{Tells};
ghost use Rattle.sound.specs.Pass.{Readable, Unmarked};

use rules::{Head, RECORDS_MOST};
pub use standing::is_lent;
use walks::{Records, Tables};

// How many buckets are few, and how many there are at most.
const FEW: usize = 512;

const ALL: usize = RECORDS_MOST as usize;

// The shelves and the released chain, once the room and the header are known to be good. Every bucket below the count is in exactly one
// chain where none was met twice and as many were met as there are.
fn are_tables<R: Records + Copy>(head: Head, records: R, marks: &mut [u8]) -> bool
    requires { Readable (atlas head (R.shelves records) (R.buckets records)) (R.has_shelf records) (R.has_bucket records)
        × Unmarked head.bucket_count marks.old }
    ensures { Tells result (Sound (atlas head (R.shelves records) (R.buckets records))) }
{
    let Some(pass) = pass::walk_shelves(head, records, marks) else {
        return false;
    };
    if !standing::is_ended(head, pass) {
        return false;
    }
    let count = head.bucket_count as usize;
    let Some(tally) = released::walk_released(records, count, head.released, marks, pass.tally)
    else {
        return false;
    };
    tally.seen == head.bucket_count
}

// With so many marks. The array has a function of its own, so that the stack holds one of them.
fn are_marked<R: Records + Copy, const N: usize>(head: Head, records: R) -> bool
    requires { Readable (atlas head (R.shelves records) (R.buckets records)) (R.has_shelf records) (R.has_bucket records)
        × (head.bucket_count ≤ N) × (N ≤ records_most) }
    ensures { Tells result (Sound (atlas head (R.shelves records) (R.buckets records))) }
{
    let mut marks = [0u8; N];
    are_tables(head, records, &mut marks)
}

// The tables test once the room and the header are known to be good. Few buckets take few marks, which are sooner cleared.
pub fn are_sound<R: Records + Copy>(head: Head, records: R) -> bool
    requires { Readable (atlas head (R.shelves records) (R.buckets records)) (R.has_shelf records) (R.has_bucket records) }
    ensures { Tells result (Sound (atlas head (R.shelves records) (R.buckets records))) }
{
    if head.bucket_count as usize <= FEW {
        return are_marked::<R, FEW>(head, records);
    }
    are_marked::<R, ALL>(head, records)
}

// "The test says yes exactly then." Room for fewer than 4,095 records of either table is no.
pub fn is_sound(head: Head, shelves: &[u16], buckets: &[u16]) -> bool
    ensures { result ≡ is_sound (atlas head shelves.now buckets.now) }
{
    standing::is_lent(shelves, buckets)
        && standing::is_head(head)
        && are_sound(head, Tables { shelves, buckets })
}
