// Deallocate, on sound tables: 9, 10, 11, 20. Whether the id is in the list is asked before, and told where it is asked for.
ghost use Rattle.std.specs.Prelude.{◌≡◌, ltb, Err};
ghost use Rattle.rules.specs.Tables.{atlas, outcome};
ghost use Rattle.rules.specs.Left.{left_by};
ghost use Rattle.rules.specs.Builds.{present};
ghost use Rattle.rules.specs.Sound.{Sound};
ghost use Rattle.rules.specs.Calls as calls;
ghost use Rattle.rules.specs.Listed.{judged};
ghost use Rattle.entries.specs.Verdicts.{Judged};
ghost use Rattle.tested.specs.Within.{withheld};

use crate::answers;
use rules::{Head, Refusal};

fn return_id(
    head: Head,
    shelves: &[u16],
    buckets: &mut [u16],
    id: u32,
    held: bool,
) -> Result<Head, Refusal>
    requires { Sound (atlas head shelves.now buckets.old) }
    ensures { left_by head shelves.now buckets.new result
        ≡ withheld held (calls.return_id present id (atlas head shelves.now buckets.old)).answer
        (calls.return_id present id (atlas head shelves.now buckets.old)).state
        (atlas head shelves.now buckets.old) }
{
    let index = numbers::id_bucket(id);
    if index >= head.bucket_count {
        return Err(Refusal::Unknown);
    }
    let bucket = records::bucket_at(buckets, index as usize);
    if bucket.generation != numbers::id_generation(id) {
        return Err(Refusal::Stale);
    }
    if bucket.refs == 0 {
        return Err(Refusal::Unheld);
    }
    if !held {
        return Err(Refusal::NotHeld);
    }
    Ok(returning::return_reference(head, shelves, buckets, index as usize))
}

// `at` is the place of the id among the entries, or how many there are.
pub fn deallocate(
    verdict: Result<u32, Refusal>,
    at: usize,
    head: Head,
    shelves: &[u16],
    buckets: &mut [u16],
    id: u32,
) -> Result<Head, Refusal>
    requires { Judged verdict (atlas head shelves.now buckets.old) }
    ensures { left_by head shelves.now buckets.new result
        ≡ judged (λ q. outcome (Err q) (atlas head shelves.now buckets.old))
        (λ n. withheld (ltb at n) (calls.return_id present id (atlas head shelves.now buckets.old)).answer
        (calls.return_id present id (atlas head shelves.now buckets.old)).state
        (atlas head shelves.now buckets.old))
        verdict }
{
    let count = verdict?;
    return_id(head, shelves, buckets, id, at < count as usize)
}
