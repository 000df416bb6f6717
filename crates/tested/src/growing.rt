// Grow: 1 and 21 as the verdict has them, then 2, 12.
ghost use Rattle.std.specs.Prelude.{◌≡◌, ◌||◌, ltb, Err};
ghost use Rattle.rules.specs.Tables.{atlas, outcome};
ghost use Rattle.rules.specs.Left.{left_by};
ghost use Rattle.rules.specs.Sound.{Sound};
ghost use Rattle.rules.specs.Calls as calls;
ghost use Rattle.rules.specs.Calls.{natural};
ghost use Rattle.rules.specs.Listed.{judged};
ghost use Rattle.entries.specs.Verdicts.{Judged};

use crate::answers;
use rules::{Head, Refusal};

fn shrinks(head: Head, width: u32, height: u32) -> bool
    ensures { result ≡ (ltb width head.width || ltb height head.height) }
{
    width < head.width as u32 || height < head.height as u32
}

fn grow_to(
    head: Head,
    shelves: &mut [u16],
    buckets: &mut [u16],
    width: u32,
    height: u32,
) -> Result<Head, Refusal>
    requires { Sound (atlas head shelves.old buckets.old) }
    ensures { left_by head shelves.new buckets.new result
        ≡ calls.grow_to width height (atlas head shelves.old buckets.old) }
{
    if answers::sides_bad(width, height) {
        return Err(Refusal::Side);
    }
    if shrinks(head, width, height) {
        return Err(Refusal::Shrink);
    }
    Ok(grow::grow(head, shelves, buckets, width as u16, height as u16))
}

pub fn grow(
    verdict: Result<u32, Refusal>,
    head: Head,
    shelves: &mut [u16],
    buckets: &mut [u16],
    width: i32,
    height: i32,
) -> Result<Head, Refusal>
    requires { Judged verdict (atlas head shelves.old buckets.old) }
    ensures { left_by head shelves.new buckets.new result
        ≡ judged (λ q. outcome (Err q) (atlas head shelves.old buckets.old))
        (λ n. calls.grow_to (natural width) (natural height) (atlas head shelves.old buckets.old))
        verdict }
{
    verdict?;
    grow_to(
        head,
        shelves,
        buckets,
        numbers::natural(width),
        numbers::natural(height),
    )
}
