// The whole text; and a picture past the tests, by the verdict that its caller has of them: 1 and 21 are the verdict's, 24 is a buffer too short. A
// refusal has written nothing.
ghost use Rattle.std.specs.Prelude.{◌≡◌, length, Err};
ghost use Rattle.rules.specs.Tables.{atlas};
ghost use Rattle.rules.specs.Sound.{Sound};
ghost use Rattle.rules.specs.Saving.{saved};
ghost use Rattle.rules.specs.Picture.{ground, picture_of};
ghost use Rattle.rules.specs.Picture as rule;
ghost use Rattle.rules.specs.Listed.{judged};
ghost use Rattle.entries.specs.Verdicts.{Judged};
ghost use Rattle.lines.specs.Put.{Put};

use crate::parts::put_shelves;
use crate::texts::{put_first, put_rect};
use lines::put_text;
use rules::{Drawn, Head, Paint, Refusal};

// "a rectangle for the whole atlas"
fn whole(head: Head) -> Drawn
    ensures { result ≡ ground head }
{
    Drawn {
        x: 0,
        y: 0,
        width: head.width,
        height: head.height,
        paint: Paint::Ground,
    }
}

fn put_picture(out: &mut [u8], head: Head, shelves: &[u16], buckets: &[u16]) -> usize
    requires { Sound (atlas head shelves.now buckets.now) }
    ensures { Put out.old out.new 0 result
        (picture_of (atlas head shelves.now buckets.now)) }
{
    let first = put_first(out, 0, head);
    let ground = put_rect(out, first, whole(head));
    let last = put_shelves(out, ground, head, shelves, buckets);
    put_text(out, last, b"</svg>\n")
}

// How long the text is: it is drawn into no buffer.
fn length_of(head: Head, shelves: &[u16], buckets: &[u16]) -> usize
    requires { Sound (atlas head shelves.now buckets.now) }
    ensures { result ≡ length (picture_of (atlas head shelves.now buckets.now)) }
{
    let mut nothing = [0u8; 0];
    put_picture(&mut nothing, head, shelves, buckets)
}

// "24 output buffer too short, with the buffer unchanged": of tables that are sound.
fn put(head: Head, shelves: &[u16], buckets: &[u16], out: &mut [u8]) -> Result<u32, Refusal>
    requires { Sound (atlas head shelves.now buckets.now) }
    ensures { saved result out.new ≡ rule.picture (atlas head shelves.now buckets.now) out.old }
{
    let length = length_of(head, shelves, buckets);
    if out.len() < length {
        return Err(Refusal::Output);
    }
    put_picture(out, head, shelves, buckets);
    Ok(length as u32)
}

// 1 and 21 as the verdict of the tests has them.
pub fn show(
    verdict: Result<u32, Refusal>,
    head: Head,
    shelves: &[u16],
    buckets: &[u16],
    out: &mut [u8],
) -> Result<u32, Refusal>
    requires { Judged verdict (atlas head shelves.now buckets.now) }
    ensures { saved result out.new
        ≡ judged (λ q. saved (Err q) out.old)
        (λ n. rule.picture (atlas head shelves.now buckets.now) out.old)
        verdict }
{
    verdict?;
    put(head, shelves, buckets, out)
}
