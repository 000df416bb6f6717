// The records of the bytes at hand, one behind the other.
ghost use Rattle.std.specs.Prelude.{List, ℕ, ◌+◌, ◌-◌, ◌≤◌, length};
ghost use Rattle.rules.specs.declared.Allocation.{Allocation};
ghost use Rattle.rules.specs.Trace as rule;
ghost use Rattle.held.specs.Rows.{entries_of};
ghost use Rattle.turns.specs.Turns.{bench_of, Wrote, TestedAt};
ghost use Rattle.trace.specs.Walks.{Whole, Room, Unread, Trod, path_of, stop_at, step, walked};

use rules::Refusal;
use turns::Stand;

// Where a replay is: the place of the next record in the bytes at hand, the place from which on no record is looked at, whether a stop was told, and the
// record's offset in the trace.
#[derive(Clone, Copy)]
pub struct Walk {
    pub place: usize,
    pub until: usize,
    pub over: bool,
    pub offset: u32,
    pub stand: Stand,
}

// "the payload is handed on as the part starting at byte 4"
fn one_record(
    left: &[u8],
    shelves: &mut [u16],
    buckets: &mut [u16],
    list: &mut [[u16; 6]],
    out: &mut [u8],
    stand: Stand,
) -> Stand
    requires { Whole left.now stand.at out.old × TestedAt stand shelves.old buckets.old (entries_of list.old) }
    ensures { Wrote out.old out.new stand.at result shelves.new buckets.new (entries_of list.new)
        (rule.record_turn (rule.u16_at left.now 2) (rule.payload left.now)
        (bench_of stand shelves.old buckets.old (entries_of list.old)))
        × TestedAt result shelves.new buckets.new (entries_of list.new) }
{
    let length = framing::u16_at(left, 0);
    let kind = framing::u16_at(left, 2);
    let end = 2 + length as usize;
    turns::record_turn(kind, &left[4..end], shelves, buckets, list, out, stand)
}

// "14 writes `stop 14 ` and the record's offset and ends"
fn stopped(out: &mut [u8], walk: Walk) -> Walk
    requires { walk.stand.at + 27 ≤ length out.old }
    ensures { (shelves buckets : List ℕ) (list : List Allocation) → Trod out.old out.new walk.stand.at result shelves buckets list
        (stop_at (path_of walk shelves buckets list)) × (TestedAt walk.stand shelves buckets list → TestedAt result.stand shelves buckets list) }
{
    let end = lines::stop_line(out, walk.stand.at, Refusal::Malformed, walk.offset);
    Walk {
        until: walk.place,
        over: true,
        stand: Stand {
            at: end,
            ..walk.stand
        },
        ..walk
    }
}

// One record: its line, and where the next one starts. Behind a stop, and where more bytes are waited for, none is looked at any more.
fn turn(
    bytes: &[u8],
    shelves: &mut [u16],
    buckets: &mut [u16],
    list: &mut [[u16; 6]],
    out: &mut [u8],
    walk: Walk,
) -> Walk
    requires { Unread bytes.now walk out.old × TestedAt walk.stand shelves.old buckets.old (entries_of list.old) }
    ensures { Trod out.old out.new walk.stand.at result shelves.new buckets.new (entries_of list.new)
        (step bytes.now (path_of walk shelves.old buckets.old (entries_of list.old)))
        × TestedAt result.stand shelves.new buckets.new (entries_of list.new) }
{
    let place = walk.place;
    if framing::is_unfinished(&bytes[place..], walk.offset) {
        return Walk {
            until: place,
            over: false,
            ..walk
        };
    }
    if framing::is_misframed(&bytes[place..], walk.offset) {
        return stopped(out, walk);
    }
    let length = framing::u16_at(&bytes[place..], 0);
    let stand = one_record(&bytes[place..], shelves, buckets, list, out, walk.stand);
    Walk {
        place: place + 2 + length as usize,
        over: false,
        offset: walk.offset + 2 + length as u32,
        stand,
        ..walk
    }
}

// The records that start before `until`.
pub fn run(
    bytes: &[u8],
    shelves: &mut [u16],
    buckets: &mut [u16],
    list: &mut [[u16; 6]],
    out: &mut [u8],
    start: Walk,
) -> Walk
    requires { Room bytes.now start out.old × TestedAt start.stand shelves.old buckets.old (entries_of list.old) }
    ensures { Trod out.old out.new start.stand.at result shelves.new buckets.new (entries_of list.new)
        (walked (start.until - start.place) bytes.now
        (path_of start shelves.old buckets.old (entries_of list.old)))
        × TestedAt result.stand shelves.new buckets.new (entries_of list.new) }
{
    let mut walk = start;
    while walk.place < walk.until {
        walk = turn(bytes, shelves, buckets, list, out, walk);
    }
    walk
}
