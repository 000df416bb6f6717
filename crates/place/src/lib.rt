// Where an aligned request goes: a bucket that the search finds, a new shelf, or merged shelves, in this order. Refusals 6 and 7 are decided
// before anything is written. 8 can't arise (T-08): an unreferenced bucket has item count 0.
#![tactic(auto)]

ghost use Rattle.std.specs.Prelude.{◌≡◌, ◌-◌, Ok};
ghost use Rattle.rules.specs.Tables.{atlas, outcome};
ghost use Rattle.rules.specs.Builds.{present};
ghost use Rattle.rules.specs.Left.{issued_by};
ghost use Rattle.rules.specs.Calls.{issue_first, place_new, place_merged, place};
ghost use Rattle.rules.specs.Issue.{issue};
ghost use Rattle.place.specs.Needs.{CanIssueFirst, CanPlaceNew, CanPlace};
ghost use Rattle.place.specs.Placed.{is_placed};

use rules::{Head, Issued, Refusal};

// "The request goes to its chain's first bucket": of shelf i
#[tactic(auto, unfolding(rules::specs::Calls::issue_first, rules::specs::Issue::issue))]
fn issue_first(head: Head, shelves: &[u16], buckets: &mut [u16], i: u16, w: u16) -> Issued
    requires { CanIssueFirst i w (atlas head shelves.now buckets.old) }
    ensures { outcome (Ok result.allocation) (atlas result.head shelves.now buckets.new)
        ≡ issue_first i w (atlas head shelves.now buckets.old) }
{
    let shelf = records::shelf_at(shelves, i as usize);
    issue::issue(head, shelves, buckets, i, shelf.first, w)
}

// a new shelf, or 7
fn place_new(
    head: Head,
    shelves: &mut [u16],
    buckets: &mut [u16],
    w: u16,
    h: u16,
) -> Result<Issued, Refusal>
    requires { CanPlaceNew w h (atlas head shelves.old buckets.old) }
    ensures { issued_by head shelves.new buckets.new result
        ≡ place_new present w h (atlas head shelves.old buckets.old) }
{
    if measures::filler_ends(head, h) {
        return Err(Refusal::Filler);
    }
    let added = shelf::new_shelf(head, shelves, buckets, w, h);
    Ok(issue_first(added, shelves, buckets, added.shelf_count - 1, w))
}

// a merge, or 6
fn place_merged(
    head: Head,
    shelves: &mut [u16],
    buckets: &mut [u16],
    w: u16,
    h: u16,
) -> Result<Issued, Refusal>
    requires { CanPlace w h (atlas head shelves.old buckets.old) }
    ensures { issued_by head shelves.new buckets.new result
        ≡ place_merged w h (atlas head shelves.old buckets.old) }
{
    let run = merge::merge_run(w, h, head, shelves, buckets).ok_or(Refusal::NoPlace)?;
    merge::merge(run, shelves);
    Ok(issue_first(head, shelves, buckets, run.shelf, w))
}

#[tactic(auto, unfolding(rules::specs::Calls::place, rules::specs::Search::search, rules::specs::Issue::issue))]
pub fn place(
    head: Head,
    shelves: &mut [u16],
    buckets: &mut [u16],
    w: u16,
    h: u16,
) -> Result<Issued, Refusal>
    requires { CanPlace w h (atlas head shelves.old buckets.old) }
    ensures { issued_by head shelves.new buckets.new result
        ≡ place present w h (atlas head shelves.old buckets.old) }
{
    let add = search::can_add(h, head);
    if let Some(best) = search::search(w, h, add, shelves, buckets, head.shelf_count) {
        return Ok(issue::issue(head, shelves, buckets, best.shelf, best.bucket, w));
    }
    if add {
        return place_new(head, shelves, buckets, w, h);
    }
    place_merged(head, shelves, buckets, w, h)
}

#[tactic(auto, using(crate::proofs::Arms::merge_placed, crate::proofs::From::run_followed))]
fn would_merge(head: Head, shelves: &[u16], buckets: &[u16], w: u16, h: u16) -> bool
    requires { CanPlace w h (atlas head shelves.now buckets.now) }
    ensures { result ≡ is_placed (place_merged w h (atlas head shelves.now buckets.now)).answer }
{
    merge::merge_run(w, h, head, shelves, buckets).is_some()
}

// Whether `place` would place the request: decided without writing anything.
pub fn would_place(head: Head, shelves: &[u16], buckets: &[u16], w: u16, h: u16) -> bool
    requires { CanPlace w h (atlas head shelves.now buckets.now) }
    ensures { result ≡ is_placed (place present w h (atlas head shelves.now buckets.now)).answer }
{
    let more = search::can_add(h, head);
    if search::search(w, h, more, shelves, buckets, head.shelf_count).is_some() {
        return true;
    }
    if more {
        return !measures::filler_ends(head, h);
    }
    would_merge(head, shelves, buckets, w, h)
}
