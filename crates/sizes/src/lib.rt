// Document 01's modules 1 and 2: rounding up to a multiple, shelf heights, and how many buckets a new shelf gets.
// All in u32: a size of 16 bits may pass 16 bits when it is rounded up.
#![tactic(auto)]

mod heights; // heights.rt: the table of shelf heights

ghost use Rattle.std.specs.Prelude.{◌≡◌, ◌+◌, ◌≤◌, ◌<◌, min, max};
ghost use Rattle.rules.specs.Limits.{records_most};
ghost use Rattle.rules.specs.Rounding.{align, shelf_height};
ghost use Rattle.rules.specs.Builds.{present};
ghost use Rattle.rules.specs.BucketCount.{power_of_two, by_ratio, bucket_count};

use rules::{RECORDS_MOST, TABLED_MOST};

// "Aligning: up to the next multiple", of any step.
#[tactic(auto, using(laws::proofs::Numbers::Rounding::align_exact, laws::proofs::Numbers::Rounding::align_more))]
pub fn align_up(size: u32, step: u32) -> u32
    requires { (0 < step) × (size + step < 4294967296) }
    ensures { result ≡ align step size }
{
    let over = size % step;
    if over == 0 {
        size
    } else {
        size + (step - over)
    }
}

// "Shelf height: up to the next multiple of a step chosen by size: 0 to 31: 8; 32 to 127: 16; 128 to 511: 32; above: 64."
#[tactic(auto, unfolding(rules::specs::Rounding::shelf_height, rules::specs::Rounding::step))]
pub fn worked_out(size: u32) -> u32
    requires { size + 64 < 4294967296 }
    ensures { result ≡ shelf_height size }
{
    match size {
        0..=31 => align_up(size, 8),
        32..=127 => align_up(size, 16),
        128..=511 => align_up(size, 32),
        _ => align_up(size, 64),
    }
}

// T-03: from the table "for sizes 0 to 512", and "above that work it out as today".
pub fn shelf_height(size: u32) -> u32
    requires { size + 64 < 4294967296 }
    ensures { result ≡ shelf_height size }
{
    if size <= TABLED_MOST {
        return heights::tabled(size as usize) as u32;
    }
    worked_out(size)
}

// "raised to the next power of two, found from the count of leading zeros": of the number less one, so that a power of two stays.
fn power_of_two(n: u32) -> u32
    requires { (1 ≤ n) × (n ≤ 2147483648) }
    ensures { result ≡ power_of_two n }
{
    1u32 << (32 - u32::leading_zeros(n - 1))
}

// "0 to 4 gives 1, 5 to 16 gives 2, 17 to 32 gives 4; above that, n/16 - 1 raised to the next power of two". T-06: "every ratio above 32 gives at
// least 4 buckets before the cap".
#[tactic(auto, unfolding(rules::specs::BucketCount::by_ratio))]
pub fn by_ratio(n: u32) -> u32
    ensures { result ≡ by_ratio present n }
{
    match n {
        0..=4 => 1,
        5..=16 => 2,
        17..=32 => 4,
        _ => 4u32.max(power_of_two(n / 16 - 1)),
    }
}

// The count for a column of this width, a request w wide and the final shelf height, with so many buckets in the table, released ones
// included. "Then at most 4,095 less the present bucket count."
#[tactic(auto, unfolding(rules::specs::BucketCount::bucket_count, rules::specs::BucketCount::ratio))]
pub fn bucket_count(column_width: u32, w: u32, height: u32, buckets: u32) -> u32
    requires { (0 < height) × (buckets ≤ records_most) }
    ensures { result ≡ bucket_count present column_width w height buckets }
{
    let ratio = column_width / w.max(height);
    by_ratio(ratio).min(RECORDS_MOST as u32 - buckets)
}
