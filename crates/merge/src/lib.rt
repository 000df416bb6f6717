// Module 7, merging: the first run of unreferenced shelves of one column that is high enough together, and making one shelf of it.
#![tactic(auto)]

ghost use Rattle.std.specs.Prelude.{◌≡◌, List, ℕ, ◌+◌, ◌*◌, ◌≤◌, length};
ghost use Rattle.rules.specs.declared.Head.{Head};
ghost use Rattle.rules.specs.Tables.{atlas};
ghost use Rattle.rules.specs.Merging.{follows, run_of, follow, run_at, merge_run, flattened_to, merged};
ghost use Rattle.merge.specs.Needs.{CanScan, At, RunFits};

use rules::{Head, MergeRun, Shelf};

// Shelf i with so many followers, all together so high.
fn run_of(i: u16, followers: u16, height: u16) -> MergeRun
    ensures { result ≡ run_of i followers height }
{
    MergeRun {
        shelf: i,
        followers,
        height,
    }
}

// Shelf j is there, in the column of shelf i, and unreferenced. Whether it is there is asked first: the table may end before it.
#[tactic(auto, unfolding(rules::specs::Merging::follows, rules::specs::Chains::first))]
fn follows(head: Head, shelves: &[u16], buckets: &[u16], i: u16, j: u16) -> bool
    requires { At shelves.now buckets.now head.shelf_count i }
    ensures { result ≡ follows (atlas head shelves.now buckets.now) i j }
{
    if j >= head.shelf_count {
        return false;
    }
    let start = records::shelf_at(shelves, i as usize);
    let shelf = records::shelf_at(shelves, j as usize);
    shelf.x == start.x && chains::is_unreferenced(buckets, shelf.first)
}

// "followed in its column by one or two unreferenced shelves such that the running sum of heights reaches h; one, if one will do"
#[tactic(auto, unfolding(rules::specs::Merging::follow))]
fn follow(h: u16, head: Head, shelves: &[u16], buckets: &[u16], i: u16) -> Option<MergeRun>
    requires { At shelves.now buckets.now head.shelf_count i }
    ensures { result ≡ follow h (atlas head shelves.now buckets.now) i }
{
    if !follows(head, shelves, buckets, i, i + 1) {
        return None;
    }
    let start = records::shelf_at(shelves, i as usize);
    let second = records::shelf_at(shelves, i as usize + 1);
    let two = start.height + second.height;
    if h <= two {
        return Some(run_of(i, 1, two));
    }
    if !follows(head, shelves, buckets, i, i + 2) {
        return None;
    }
    let third = records::shelf_at(shelves, i as usize + 2);
    let three = two + third.height;
    (h <= three).then_some(run_of(i, 2, three))
}

// "with buckets at least w wide and none referenced"
#[tactic(auto, unfolding(rules::specs::Merging::run_at, rules::specs::Chains::first))]
fn run_at(w: u16, h: u16, head: Head, shelves: &[u16], buckets: &[u16], i: u16) -> Option<MergeRun>
    requires { At shelves.now buckets.now head.shelf_count i }
    ensures { result ≡ run_at w h (atlas head shelves.now buckets.now) i }
{
    let shelf = records::shelf_at(shelves, i as usize);
    if w <= shelf.width && chains::is_unreferenced(buckets, shelf.first) {
        follow(h, head, shelves, buckets, i)
    } else {
        None
    }
}

// "The first shelf, in order".
pub fn merge_run(w: u16, h: u16, head: Head, shelves: &[u16], buckets: &[u16]) -> Option<MergeRun>
    requires { CanScan shelves.now buckets.now head.shelf_count }
    ensures { result ≡ merge_run w h (atlas head shelves.now buckets.now) }
{
    (0..head.shelf_count).find_map(|i| run_at(w, h, head, shelves, buckets, i))
}

// Followers i + 1 to i + followers get height 0 and the given y.
#[tactic(auto, unfolding(rules::specs::Merging::flattened_to))]
fn flatten(shelves: &mut [u16], i: u16, y: u16, followers: u16)
    requires { 5 * (i + followers) + 5 ≤ length shelves.old }
    ensures { shelves.new ≡ flattened_to shelves.old i y followers }
{
    for k in 0..followers {
        let at = i as usize + k as usize + 1;
        let shelf = records::shelf_at(shelves, at);
        records::put_shelf(
            shelves,
            at,
            Shelf {
                y,
                height: 0,
                ..shelf
            },
        );
    }
}

// "It takes the sum; the followers get height 0 and the y of its top." Header and buckets are as they were.
#[tactic(auto, unfolding(rules::specs::Merging::merged))]
pub fn merge(run: MergeRun, shelves: &mut [u16])
    requires { RunFits shelves.old run }
    ensures { (head : Head) (buckets : List ℕ)
        → atlas head shelves.new buckets ≡ merged run (atlas head shelves.old buckets) }
{
    let shelf = records::shelf_at(shelves, run.shelf as usize);
    flatten(shelves, run.shelf, shelf.y + run.height, run.followers);
    records::put_shelf(
        shelves,
        run.shelf as usize,
        Shelf {
            height: run.height,
            ..shelf
        },
    );
}
