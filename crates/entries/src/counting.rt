// How many entries a list has, which the tables tell, and the place of a new one.
ghost use Rattle.std.specs.Prelude.{◌≡◌, ℕ, ◌+◌, ◌*◌, ◌≤◌, ◌<◌, List, length};
ghost use Rattle.rules.specs.Limits.{records_most};
ghost use Rattle.rules.specs.Tables.{atlas};
ghost use Rattle.rules.specs.Chains.{sum_to};
ghost use Rattle.rules.specs.Held.{place_for};
ghost use Rattle.rules.specs.Held as held;
ghost use Rattle.entries.specs.Parts.{refs_in};

use rules::Head;

// the reference counts of the first `count` buckets, added up
fn references(buckets: &[u16], count: u16) -> u32
    requires { (count ≤ records_most) × (7 * count ≤ length buckets.now) }
    ensures { result ≡ sum_to count (refs_in buckets.now) }
{
    let mut sum = 0;
    for k in 0..count {
        sum += records::bucket_at(buckets, k as usize).refs as u32;
    }
    sum
}

#[tactic(auto, unfolding(rules::specs::Held::entries))]
pub fn entries(head: Head, buckets: &[u16]) -> u32
    requires { (head.bucket_count ≤ records_most) × (7 * head.bucket_count ≤ length buckets.now) }
    ensures { (shelves : List ℕ) → result ≡ held.entries (atlas head shelves buckets.now) }
{
    references(buckets, head.bucket_count)
}

// where a rectangle just issued from bucket k goes
#[tactic(auto, unfolding(rules::specs::Held::place_for))]
pub fn place_for(head: Head, buckets: &[u16], k: u16) -> u32
    requires { (k < records_most) × (7 * k + 7 ≤ length buckets.now) }
    ensures { (shelves : List ℕ) → result ≡ place_for k (atlas head shelves buckets.now) }
{
    references(buckets, k + 1).saturating_sub(1)
}
