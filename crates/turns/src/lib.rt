// The turn of a record: the reader of its kind takes the payload, calls the atlas and writes the line of the answer. Tables and list are tested before the
// first record; from turn to turn goes what the tests say of them.
#![tactic(auto)]

ghost use Rattle.std.specs.Prelude.{◌≡◌, List, ℕ, ◌+◌, ◌≤◌, length, get_or, Ok};
ghost use Rattle.rules.specs.declared.Allocation.{Allocation};
ghost use Rattle.rules.specs.Tables.{atlas as atlas_of};
ghost use Rattle.held.specs.Rows.{entries_of};
ghost use Rattle.rules.specs.Calls as calls;
ghost use Rattle.rules.specs.Trace as rule;
ghost use Rattle.grow.specs.Needs.{CanFree};
ghost use Rattle.entries.specs.Verdicts.{Judged};
ghost use Rattle.lines.specs.Put.{Put};
ghost use Rattle.verdicts.specs.Next.{changed_by, placed_by, TestedChanged, TestedPlaced};
ghost use Rattle.turns.specs.Turns.{bench_of, refusal_of, anew, Wrote, Handed, TestedAt};

use rules::{Allocation, Head, Refusal};
use verdicts::{Changed, Placed};

// Where a replay stands: the place behind the last line, the atlas, once one is made, and what the tests say of it and of the list.
#[derive(Clone, Copy)]
pub struct Stand {
    pub at: usize,
    pub made: bool,
    pub head: Head,
    pub verdict: Result<u32, Refusal>,
}

// "1 new (width, height, two alignments, columns, all i32 here and below, vertical as a byte), 23"
fn made(payload: &[u8], shelves: &[u16], buckets: &[u16]) -> Result<Head, Refusal>
    requires { 21 ≤ length payload.now }
    ensures { result ≡ calls.new (rule.i32_at payload.now 0) (rule.i32_at payload.now 4)
        (rule.i32_at payload.now 8) (rule.i32_at payload.now 12) (rule.i32_at payload.now 16)
        (get_or payload.now 20 0) shelves.now buckets.now }
{
    let width = framing::i32_at(payload, 0);
    let height = framing::i32_at(payload, 4);
    let align_width = framing::i32_at(payload, 8);
    let align_height = framing::i32_at(payload, 12);
    let columns = framing::i32_at(payload, 16);
    atlas::new(
        shelves,
        buckets,
        width,
        height,
        align_width,
        align_height,
        columns,
        payload[20],
    )
}

// "A refused new keeps the old atlas"
fn after_new(out: &mut [u8], stand: Stand, answer: Result<Head, Refusal>) -> Stand
    requires { stand.at + 19 ≤ length out.old }
    ensures { ((shelves buckets : List ℕ) (list : List Allocation) → Wrote out.old out.new stand.at result shelves buckets list
        (rule.after_new answer (bench_of stand shelves buckets list))) × (result.verdict ≡ anew answer stand.verdict) }
{
    match answer {
        Ok(head) => {
            let end = lines::put_text(out, stand.at, b"new ok\n");
            Stand {
                at: end,
                made: true,
                head,
                verdict: Ok(0),
            }
        }
        Err(refusal) => {
            let end = lines::refused_line(out, stand.at, refusal);
            Stand { at: end, ..stand }
        }
    }
}

// The turn of a new.
fn new_turn(payload: &[u8], shelves: &[u16], buckets: &[u16], out: &mut [u8], stand: Stand) -> Stand
    requires { (21 ≤ length payload.now) × (stand.at + 19 ≤ length out.old) }
    ensures { (list : List Allocation) → Wrote out.old out.new stand.at result shelves.now buckets.now list
        (rule.new_turn payload.now (bench_of stand shelves.now buckets.now list))
        × (TestedAt stand shelves.now buckets.now list → TestedAt result shelves.now buckets.now list) }
{
    let answer = made(payload, shelves, buckets);
    after_new(out, stand, answer)
}

// The refusal of an answer that is one.
fn refusal_of<T: Copy>(answer: Result<T, Refusal>) -> Refusal
    ensures { result ≡ refusal_of answer }
{
    match answer {
        Ok(_) => Refusal::NoPlace,
        Err(refusal) => refusal,
    }
}

// "A record whose answer is a refusal writes its line and the replay goes on"
fn after_placing(out: &mut [u8], stand: Stand, answer: Result<Placed, Refusal>) -> Stand
    requires { stand.at + 61 ≤ length out.old }
    ensures { (shelves buckets : List ℕ) (list : List Allocation)
        → Wrote out.old out.new stand.at result shelves buckets list (rule.after_placing (placed_by stand.head shelves buckets list answer))
        × (TestedPlaced stand.verdict stand.head shelves buckets list answer → TestedAt result shelves buckets list) }
{
    let Ok(placed) = answer else {
        let end = lines::refused_line(out, stand.at, refusal_of(answer));
        return Stand {
            at: end,
            made: true,
            ..stand
        };
    };
    let end = lines::alloc_line(out, stand.at, placed.allocation);
    Stand {
        at: end,
        made: true,
        head: placed.head,
        verdict: Ok(placed.count),
    }
}

// "2 allocate (width, height), 10"
fn allocate_turn(
    payload: &[u8],
    shelves: &mut [u16],
    buckets: &mut [u16],
    list: &mut [[u16; 6]],
    out: &mut [u8],
    stand: Stand,
) -> Stand
    requires { (8 ≤ length payload.now) × (stand.at + 61 ≤ length out.old) × TestedAt stand shelves.old buckets.old (entries_of list.old) }
    ensures { Wrote out.old out.new stand.at result shelves.new buckets.new (entries_of list.new)
        (rule.allocate_turn payload.now (bench_of stand shelves.old buckets.old (entries_of list.old)))
        × TestedAt result shelves.new buckets.new (entries_of list.new) }
{
    let width = framing::i32_at(payload, 0);
    let height = framing::i32_at(payload, 4);
    let answer = verdicts::allocate(
        stand.verdict,
        stand.head,
        shelves,
        buckets,
        list,
        width,
        height,
    );
    after_placing(out, stand, answer)
}

// The line of a call that was done, or that of its refusal.
fn after_reply(out: &mut [u8], stand: Stand, line: &[u8], answer: Result<Changed, Refusal>) -> Stand
    requires { (stand.at + 19 ≤ length out.old) × (stand.at + length line.now ≤ length out.old) }
    ensures { (shelves buckets : List ℕ) (list : List Allocation)
        → Wrote out.old out.new stand.at result shelves buckets list (rule.after_reply line.now (changed_by stand.head shelves buckets list answer))
        × (TestedChanged stand.verdict stand.head shelves buckets list answer → TestedAt result shelves buckets list) }
{
    match answer {
        Ok(kept) => {
            let end = lines::put_text(out, stand.at, line);
            Stand {
                at: end,
                made: true,
                head: kept.head,
                verdict: Ok(kept.count),
            }
        }
        Err(refusal) => {
            let end = lines::refused_line(out, stand.at, refusal);
            Stand {
                at: end,
                made: true,
                ..stand
            }
        }
    }
}

// "3 deallocate (u32 id), 6"
fn deallocate_turn(
    payload: &[u8],
    shelves: &[u16],
    buckets: &mut [u16],
    list: &mut [[u16; 6]],
    out: &mut [u8],
    stand: Stand,
) -> Stand
    requires { (4 ≤ length payload.now) × (stand.at + 19 ≤ length out.old) × TestedAt stand shelves.now buckets.old (entries_of list.old) }
    ensures { Wrote out.old out.new stand.at result shelves.now buckets.new (entries_of list.new)
        (rule.deallocate_turn payload.now (bench_of stand shelves.now buckets.old (entries_of list.old)))
        × TestedAt result shelves.now buckets.new (entries_of list.new) }
{
    let id = framing::u32_at(payload, 0);
    let answer = verdicts::deallocate(stand.verdict, stand.head, shelves, buckets, list, id);
    after_reply(out, stand, b"dealloc ok\n", answer)
}

// "4 clear, 2"
fn clear_turn(out: &mut [u8], stand: Stand) -> Stand
    requires { stand.at + 19 ≤ length out.old }
    ensures { (shelves buckets : List ℕ) (list : List Allocation) → TestedAt stand shelves buckets list
        → Wrote out.old out.new stand.at result shelves buckets list (rule.clear_turn (bench_of stand shelves buckets list))
        × TestedAt result shelves buckets list }
{
    let answer = verdicts::clear(stand.verdict, stand.head);
    after_reply(out, stand, b"clear ok\n", answer)
}

// "5 grow (width, height), 10"
fn grow_turn(
    payload: &[u8],
    shelves: &mut [u16],
    buckets: &mut [u16],
    out: &mut [u8],
    stand: Stand,
) -> Stand
    requires { (8 ≤ length payload.now) × (stand.at + 19 ≤ length out.old)
        × Judged stand.verdict (atlas_of stand.head shelves.old buckets.old) }
    ensures { (list : List Allocation) → TestedAt stand shelves.old buckets.old list
        → Wrote out.old out.new stand.at result shelves.new buckets.new list
        (rule.grow_turn payload.now (bench_of stand shelves.old buckets.old list))
        × TestedAt result shelves.new buckets.new list }
{
    let width = framing::i32_at(payload, 0);
    let height = framing::i32_at(payload, 4);
    let answer = verdicts::grow(stand.verdict, stand.head, shelves, buckets, width, height);
    after_reply(out, stand, b"grow ok\n", answer)
}

// Both figures, or the refusal of the first that was refused.
fn report_line(
    out: &mut [u8],
    at: usize,
    occupied: Result<u32, Refusal>,
    free: Result<u32, Refusal>,
) -> usize
    requires { at + 28 ≤ length out.old }
    ensures { Put out.old out.new at result (rule.report_line occupied free) }
{
    match occupied {
        Err(refusal) => lines::refused_line(out, at, refusal),
        Ok(used) => match free {
            Err(refusal) => lines::refused_line(out, at, refusal),
            Ok(unused) => lines::space_line(out, at, used, unused),
        },
    }
}

// "6 report, 2"
fn report_turn(out: &mut [u8], stand: Stand) -> Stand
    requires { (stand.at + 28 ≤ length out.old) × ((n : ℕ) → stand.verdict ≡ Ok n → CanFree stand.head) }
    ensures { (shelves buckets : List ℕ) (list : List Allocation) → TestedAt stand shelves buckets list
        → Wrote out.old out.new stand.at result shelves buckets list (rule.report_turn (bench_of stand shelves buckets list))
        × TestedAt result shelves buckets list }
{
    let occupied = tested::allocated_space(stand.verdict, stand.head);
    let free = tested::free_space(stand.verdict, stand.head);
    let end = report_line(out, stand.at, occupied, free);
    Stand { at: end, ..stand }
}

// A call on the atlas that was made.
fn call_turn(
    kind: u16,
    payload: &[u8],
    shelves: &mut [u16],
    buckets: &mut [u16],
    list: &mut [[u16; 6]],
    out: &mut [u8],
    stand: Stand,
) -> Stand
    requires { Handed kind stand.at payload.now out.old × TestedAt stand shelves.old buckets.old (entries_of list.old) }
    ensures { Wrote out.old out.new stand.at result shelves.new buckets.new (entries_of list.new)
        (rule.call_turn kind payload.now (bench_of stand shelves.old buckets.old (entries_of list.old)))
        × TestedAt result shelves.new buckets.new (entries_of list.new) }
{
    match kind {
        2 => allocate_turn(payload, shelves, buckets, list, out, stand),
        3 => deallocate_turn(payload, shelves, buckets, list, out, stand),
        4 => clear_turn(out, stand),
        5 => grow_turn(payload, shelves, buckets, out, stand),
        _ => report_turn(out, stand),
    }
}

// "any other well-formed record before an accepted new gives 13"
pub fn record_turn(
    kind: u16,
    payload: &[u8],
    shelves: &mut [u16],
    buckets: &mut [u16],
    list: &mut [[u16; 6]],
    out: &mut [u8],
    stand: Stand,
) -> Stand
    requires { Handed kind stand.at payload.now out.old × TestedAt stand shelves.old buckets.old (entries_of list.old) }
    ensures { Wrote out.old out.new stand.at result shelves.new buckets.new (entries_of list.new)
        (rule.record_turn kind payload.now (bench_of stand shelves.old buckets.old (entries_of list.old)))
        × TestedAt result shelves.new buckets.new (entries_of list.new) }
{
    if kind == 1 {
        return new_turn(payload, shelves, buckets, out, stand);
    }
    if stand.made {
        return call_turn(kind, payload, shelves, buckets, list, out, stand);
    }
    let end = lines::refused_line(out, stand.at, Refusal::NoAtlas);
    Stand { at: end, ..stand }
}
