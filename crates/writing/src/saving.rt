// A write past the tests, by the verdict that its caller has of them: 1 and 21 are the verdict's, 18 is a buffer too short. A refusal has
// written nothing.
ghost use Rattle.std.specs.Prelude.{◌≡◌, Err};
ghost use Rattle.rules.specs.Tables.{atlas};
ghost use Rattle.rules.specs.Sound.{Sound};
ghost use Rattle.rules.specs.Builds.{present};
ghost use Rattle.rules.specs.Files.{saved};
ghost use Rattle.rules.specs.Files as rule;
ghost use Rattle.rules.specs.Listed.{judged};
ghost use Rattle.entries.specs.Verdicts.{Judged};

use rules::{Head, Refusal};

// "18 buffer too short for writing": of tables that are sound.
fn put(head: Head, shelves: &[u16], buckets: &[u16], out: &mut [u8]) -> Result<u32, Refusal>
    requires { Sound (atlas head shelves.now buckets.now) }
    ensures { saved result out.new ≡ rule.write present (atlas head shelves.now buckets.now) out.old }
{
    let length = crate::length_of(head);
    if out.len() < length {
        return Err(Refusal::Buffer);
    }
    crate::put_file(out, head, shelves, buckets);
    Ok(length as u32)
}

// 1 and 21 as the verdict of the tests has them.
pub fn save(
    verdict: Result<u32, Refusal>,
    head: Head,
    shelves: &[u16],
    buckets: &[u16],
    out: &mut [u8],
) -> Result<u32, Refusal>
    requires { Judged verdict (atlas head shelves.now buckets.now) }
    ensures { saved result out.new
        ≡ judged (λ q. saved (Err q) out.old)
        (λ n. rule.write present (atlas head shelves.now buckets.now) out.old)
        verdict }
{
    verdict?;
    put(head, shelves, buckets, out)
}
