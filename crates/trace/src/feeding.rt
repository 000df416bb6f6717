// T-05: a chunk of a trace, of any length, and the end of input; the replay goes from call to call by value.
ghost use Rattle.std.specs.Prelude.{◌≡◌, ◌||◌, List, ℕ, ◌+◌, ◌*◌, ltb, length};
ghost use Rattle.rules.specs.declared.Allocation.{Allocation};
ghost use Rattle.rules.specs.Limits.{held_most};
ghost use Rattle.rules.specs.Chunks as rule;
ghost use Rattle.held.specs.Rows.{entries_of};
ghost use Rattle.verdicts.specs.Next.{Tested};
ghost use Rattle.trace.specs.Chunk.{all_of, moved_to, opened_of, stream_of, Fit, LeftFew, Behind};

use crate::walking::Walk;
use crate::{holding, walking};
use rules::{Allocation, Feed, HELD_MOST, Head, NONE, Pause, Refusal, STOP_MOST};
use turns::Stand;

// What was held over and the longest record behind its last byte.
const SEAM: usize = 2 * HELD_MOST + 1;

// Before the first chunk: no atlas is made yet.
pub fn start() -> Pause
    ensures { result ≡ rule.unfed }
{
    let head = Head {
        width: 0,
        height: 0,
        align_width: 0,
        align_height: 0,
        columns: 0,
        column_width: 0,
        column: 0,
        room: 0,
        shelf_count: 0,
        bucket_count: 0,
        released: NONE,
        occupied: 0,
    };
    Pause {
        over: false,
        made: false,
        offset: 0,
        count: 0,
        held: [0u8; HELD_MOST],
        head,
    }
}

// Where the replay goes on: the records that start in what was held over come first.
fn opened(pause: Pause, verdict: Result<u32, Refusal>) -> Walk
    ensures { result ≡ opened_of pause verdict }
{
    Walk {
        place: 0,
        until: pause.count,
        over: false,
        offset: pause.offset,
        stand: Stand {
            at: 0,
            made: pause.made,
            head: pause.head,
            verdict,
        },
    }
}

// The whole records: those that start in what was held over are read where its bytes and the chunk's first ones stand in a row, the others in the chunk.
fn records(
    pause: Pause,
    verdict: Result<u32, Refusal>,
    chunk: &[u8],
    shelves: &mut [u16],
    buckets: &mut [u16],
    list: &mut [[u16; 6]],
    out: &mut [u8],
) -> Walk
    requires { Fit pause chunk.now out.old × Tested verdict pause.head shelves.old buckets.old (entries_of list.old) }
    ensures { Behind out.old out.new (all_of pause chunk.now) result shelves.new buckets.new
        (entries_of list.new)
        (rule.feed chunk.now (rule.resumed pause shelves.old buckets.old (entries_of list.old))) }
{
    let mut seam = [0u8; SEAM];
    let n = holding::gather(pause, chunk, 0, &mut seam);
    let first = walking::run(
        &seam[..n],
        shelves,
        buckets,
        list,
        out,
        opened(pause, verdict),
    );
    if first.over {
        return first;
    }
    if first.place < pause.count {
        return first;
    }
    let further = Walk {
        place: first.place - pause.count,
        until: chunk.len(),
        ..first
    };
    let second = walking::run(chunk, shelves, buckets, list, out, further);
    Walk {
        place: second.place + pause.count,
        ..second
    }
}

// What is left is held over.
fn left_over(pause: Pause, chunk: &[u8], walk: Walk) -> Pause
    requires { LeftFew pause chunk.now walk }
    ensures { (shelves buckets : List ℕ) (list : List Allocation)
        → result ≡ rule.paused (stream_of walk (all_of pause chunk.now) shelves buckets list) }
{
    let mut held = [0u8; HELD_MOST];
    let count = if walk.over {
        0
    } else {
        holding::gather(pause, chunk, walk.place, &mut held)
    };
    Pause {
        over: walk.over,
        made: walk.stand.made,
        offset: walk.offset,
        count,
        held,
        head: walk.stand.head,
    }
}

// "1: lent room too short": of lines there are at most 7 times as many bytes as of what is held over and the chunk.
fn is_short(pause: Pause, chunk: &[u8], out: &[u8]) -> bool
    ensures { result ≡ (ltb held_most pause.count || ltb (length out.now) (7 * (pause.count + length chunk.now))) }
{
    HELD_MOST < pause.count || out.len() / 7 < pause.count + chunk.len()
}

// A chunk of a trace: the lines of its whole records from the buffer's start on, and what is held over for the next one. Tables and list are tested once,
// before its first record.
pub fn feed(
    pause: Pause,
    chunk: &[u8],
    shelves: &mut [u16],
    buckets: &mut [u16],
    list: &mut [[u16; 6]],
    out: &mut [u8],
) -> Feed
    ensures { rule.pushed result.lines out.new result.pause shelves.new buckets.new (entries_of list.new)
        ≡ rule.feed_into chunk.now out.old pause shelves.old buckets.old (entries_of list.old) }
{
    if is_short(pause, chunk, out) {
        return Feed {
            lines: Err(Refusal::Tables),
            pause,
        };
    }
    if pause.over {
        return Feed {
            lines: Ok(0),
            pause,
        };
    }
    let verdict = held::test(list, pause.head, shelves, buckets);
    let walk = records(pause, verdict, chunk, shelves, buckets, list, out);
    Feed {
        lines: Ok(walk.stand.at),
        pause: left_over(pause, chunk, walk),
    }
}

// "An end of input inside a record is 14 at that record's offset, told only at the end."
pub fn finish(pause: Pause, out: &mut [u8]) -> Result<usize, Refusal>
    ensures { rule.ending result out.new ≡ rule.finish_into out.old pause }
{
    if HELD_MOST < pause.count || out.len() < STOP_MOST {
        return Err(Refusal::Tables);
    }
    if pause.over || pause.count == 0 {
        return Ok(0);
    }
    Ok(lines::stop_line(out, 0, Refusal::Malformed, pause.offset))
}
