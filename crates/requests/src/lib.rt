// A request on sound tables: 4, 5, 22, 23, then where it goes, which is 6, 7 or 8 where there is no place; 19 where it would be placed and the list is
// full, which is decided before anything is written.
#![tactic(auto)]

ghost use Rattle.std.specs.Prelude.{◌≡◌, ℕ, ◌<◌, List};
ghost use Rattle.rules.specs.Tables.{atlas};
ghost use Rattle.rules.specs.Sound.{Sound};
ghost use Rattle.rules.specs.Builds.{present};
ghost use Rattle.rules.specs.Calls as calls;
ghost use Rattle.rules.specs.Calls.{aligned_sides};
ghost use Rattle.place.specs.Placed.{is_placed};
ghost use Rattle.entries.specs.Verdicts.{Judged};
ghost use Rattle.rules.specs.Left.{issued_by};
ghost use Rattle.requests.specs.Entering.{roomed, entering as enteringOf, entering_by, Placeable, PlaceOf, PlaceTold};

use rules::{Entering, Head, Issued, REQUEST_MOST, Refusal};

// The aligned sides, or the first of 4, 5, 22 and 23 that applies.
fn aligned_sides(head: Head, w: u32, h: u32) -> Result<(u16, u16), Refusal>
    requires { (0 < head.align_width) × (0 < head.align_height) }
    ensures { result ≡ aligned_sides w h head }
{
    if w == 0 || h == 0 {
        return Err(Refusal::Small);
    }
    if REQUEST_MOST < w || REQUEST_MOST < h {
        return Err(Refusal::Large);
    }
    let across = sizes::align_up(w, head.align_width as u32);
    if (head.column_width as u32) < across {
        return Err(Refusal::Wide);
    }
    let down = sizes::align_up(h, head.align_height as u32);
    if (head.height as u32) < down {
        return Err(Refusal::Tall);
    }
    Ok((across as u16, down as u16))
}

fn request(
    head: Head,
    shelves: &mut [u16],
    buckets: &mut [u16],
    w: u32,
    h: u32,
) -> Result<Issued, Refusal>
    requires { Sound (atlas head shelves.old buckets.old) }
    ensures { issued_by head shelves.new buckets.new result
        ≡ calls.request present w h (atlas head shelves.old buckets.old) }
{
    let (across, down) = aligned_sides(head, w, h)?;
    place::place(head, shelves, buckets, across, down)
}

// Whether the request would be placed, decided without writing anything.
fn would_request(head: Head, shelves: &[u16], buckets: &[u16], w: u32, h: u32) -> bool
    requires { Sound (atlas head shelves.now buckets.now) }
    ensures { result ≡ is_placed (calls.request present w h (atlas head shelves.now buckets.now)).answer }
{
    let Ok((across, down)) = aligned_sides(head, w, h) else {
        return false;
    };
    place::would_place(head, shelves, buckets, across, down)
}

// "19 list full, in allocate after 8"
fn request_within(
    head: Head,
    shelves: &mut [u16],
    buckets: &mut [u16],
    room: bool,
    w: u32,
    h: u32,
) -> Result<Issued, Refusal>
    requires { Sound (atlas head shelves.old buckets.old) }
    ensures { issued_by head shelves.new buckets.new result
        ≡ roomed room (calls.request present w h (atlas head shelves.old buckets.old)).answer
        (calls.request present w h (atlas head shelves.old buckets.old)).state
        (atlas head shelves.old buckets.old) }
{
    if room {
        return request(head, shelves, buckets, w, h);
    }
    if would_request(head, shelves, buckets, w, h) {
        return Err(Refusal::Full);
    }
    request(head, shelves, buckets, w, h)
}

// What was issued, with the place of its entry.
fn entering(issued: Issued, buckets: &[u16]) -> Entering
    requires { Placeable issued.allocation buckets.now }
    ensures { (result.allocation ≡ issued.allocation) × (result.head ≡ issued.head)
        × ((shelves : List ℕ) → PlaceOf result shelves buckets.now) }
{
    let Issued { head, allocation } = issued;
    let place = entries::place_for(head, buckets, numbers::id_bucket(allocation.id));
    Entering {
        head,
        allocation,
        place,
    }
}

// A request in a list that has room for `room` entries.
pub fn allocate(
    verdict: Result<u32, Refusal>,
    room: usize,
    head: Head,
    shelves: &mut [u16],
    buckets: &mut [u16],
    width: i32,
    height: i32,
) -> Result<Entering, Refusal>
    requires { Judged verdict (atlas head shelves.old buckets.old) }
    ensures { (entering_by head shelves.new buckets.new result
        ≡ enteringOf verdict room width height (atlas head shelves.old buckets.old))
        × PlaceTold result shelves.new buckets.new }
{
    let count = verdict?;
    let issued = request_within(
        head,
        shelves,
        buckets,
        (count as usize) < room,
        numbers::natural(width),
        numbers::natural(height),
    )?;
    Ok(entering(issued, buckets))
}
