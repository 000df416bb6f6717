// Module 6, the search: the best bucket that takes a request, shelf by shelf in order.
#![tactic(auto)]

ghost use Rattle.std.specs.Prelude.{◌≡◌, ◌&&◌, eqb};
ghost use Rattle.rules.specs.Chains.{chain};
ghost use Rattle.rules.specs.Search.{can_add, skipped, takes, pick_in, least_waste, is_over, considered, searched};
ghost use Rattle.chains.specs.Walk.{Walkable, WalkableShelves};

use rules::{Best, Bucket, Head, ITEMS_MOST, NONE, NUMBER_MOST, Pick, RECORDS_MOST, Shelf};

// "room left at least h or another column, and bucket count below 4,095"
#[tactic(auto, unfolding(rules::specs::Search::can_add))]
pub fn can_add(h: u16, head: Head) -> bool
    ensures { result ≡ can_add h head }
{
    head.bucket_count < RECORDS_MOST && (h <= head.room || records::another_column(head))
}

// "skip one that is too low or has too narrow buckets, whose waste (height - h) is above the best so far, or, when can add, whose waste is
// above h"
#[tactic(auto, unfolding(rules::specs::Search::skipped))]
fn skips(w: u16, h: u16, add: bool, best: u16, shelf: Shelf) -> bool
    ensures { result ≡ skipped w h add best shelf }
{
    if shelf.height < h {
        return true;
    }
    let waste = shelf.height - h;
    shelf.width < w || (best < waste || add && h < waste)
}

// "its free width at least w and its item count below 4,095"
#[tactic(auto, unfolding(rules::specs::Search::takes))]
fn takes(w: u16, bucket: Bucket) -> bool
    ensures { result ≡ takes w bucket }
{
    w <= bucket.free && bucket.items < ITEMS_MOST
}

// "with waste 0 and free width exactly w"
fn is_exact(w: u16, waste: u16, bucket: Bucket) -> bool
    ensures { result ≡ (eqb waste 0 && eqb bucket.free w) }
{
    waste == 0 && bucket.free == w
}

// One shelf's chain. Where the shelf's waste is below the best, its first takeable bucket ends the walk, exact or not.
fn pick_in(buckets: &[u16], w: u16, waste: u16, best: u16, first: u16) -> Pick
    requires { Walkable buckets.now first }
    ensures { result ≡ pick_in buckets.now w waste best (chain buckets.now first) }
{
    let mut k = first;
    while k != NONE {
        let here = k;
        let bucket = records::bucket_at(buckets, here as usize);
        k = bucket.next;
        if !takes(w, bucket) {
            continue;
        }
        if is_exact(w, waste, bucket) {
            return Pick::Exact(here);
        }
        if waste < best {
            return Pick::First(here);
        }
    }
    Pick::Nothing
}

// "Shelves in order"; an exact fit ends the search. Of the best so far the loop keeps shelf and bucket beside `least`, its waste, which is what a shelf is
// compared with: before the first best the number above every waste. An `if` and no `continue`: so it takes fewer instructions a shelf.
#[tactic(auto, unfolding(rules::specs::Search::searched, rules::specs::Search::considered, rules::specs::Search::skipped, rules::specs::Chains::first))]
pub fn search(
    w: u16,
    h: u16,
    add: bool,
    shelves: &[u16],
    buckets: &[u16],
    count: u16,
) -> Option<Best>
    requires { WalkableShelves shelves.now buckets.now count }
    ensures { result ≡ searched w h add shelves.now buckets.now count }
{
    let mut found: Option<(u16, u16)> = None;
    let mut least = NUMBER_MOST;
    for i in 0..count {
        let shelf = records::shelf_at(shelves, i as usize);
        if !skips(w, h, add, least, shelf) {
            let waste = shelf.height - h;
            match pick_in(buckets, w, waste, least, shelf.first) {
                Pick::Exact(bucket) => {
                    return Some(Best {
                        waste,
                        shelf: i,
                        bucket,
                        exact: true,
                    });
                }
                Pick::First(bucket) => {
                    found = Some((i, bucket));
                    least = waste;
                }
                Pick::Nothing => {}
            }
        }
    }
    let (shelf, bucket) = found?;
    Some(Best {
        waste: least,
        shelf,
        bucket,
        exact: false,
    })
}
