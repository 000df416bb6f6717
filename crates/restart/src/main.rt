// A restart, as a Rattle program goes through one: a label is placed, the atlas is written and its held list kept, another label comes, the panel
// starts anew with empty tables, the file is read, the list is lent anew, and the calls go on. Then what a file that will not do is answered, and a
// file of an earlier build, whose rows are worn out (old.rt). A line a call.
#![tactic(auto)]

mod calls; // calls.rt: the calls, a line each
mod old; // old.rt: the file of a build before T-08

use calls::{Buckets, List, Shelves};
use rules::Head;

// Room for the file of a small atlas; its version and its occupied figure stand at these places.
const FILE_ROOM: usize = 256;

const VERSION_AT: usize = 4;

const FIGURE_AT: usize = 29;

fn spoil(file: &mut [u8], at: usize, byte: u8) {
    if file.len() <= at {
        return;
    }
    file[at] = byte;
}

// What can not be read, and what can not be written.
fn refuse(rt: &impl Print, head: Head, shelves: &mut Shelves, buckets: &mut Buckets, list: &List) {
    let mut file = [0u8; FILE_ROOM];
    let n = calls::write(rt, head, shelves, buckets, list, &mut file);
    if n == 0 {
        return;
    }
    let _ = calls::read_first(rt, b" cut by a byte", &file, n - 1, shelves, buckets);
    spoil(&mut file, FIGURE_AT, 1);
    let _ = calls::read_first(rt, b" with another figure", &file, n, shelves, buckets);
    spoil(&mut file, VERSION_AT, 2);
    let _ = calls::read_first(rt, b" of version 2", &file, n, shelves, buckets);
    calls::write_first(rt, head, shelves, buckets, list, &mut file, n - 1);
}

// After the restart, on tables that have nothing of what was before: a list without the label does not fit, the one that was kept does.
fn go_on(rt: &impl Print, file: &[u8], n: usize, kept: List, before: u32, after: u32) {
    let mut shelves = [0u16; rules::SHELVES_ROOM];
    let mut buckets = [0u16; rules::BUCKETS_ROOM];
    let mut list = [[0u16; 6]; 16];
    let Ok(head) = calls::read_first(rt, b"", file, n, &mut shelves, &mut buckets) else {
        return;
    };
    let refused = calls::take_off(rt, head, &shelves, &mut buckets, &mut list, before);
    list = kept;
    let held = calls::take_off(rt, refused, &shelves, &mut buckets, &mut list, after);
    let again = calls::label(rt, held, &mut shelves, &mut buckets, &mut list, 10, 20);
    let left = calls::take_off(rt, again.head, &shelves, &mut buckets, &mut list, before);
    refuse(rt, left, &mut shelves, &mut buckets, &list);
}

fn restart(rt: &impl Print) {
    let mut shelves = [0u16; rules::SHELVES_ROOM];
    let mut buckets = [0u16; rules::BUCKETS_ROOM];
    let Ok(head) = atlas::new(&shelves, &buckets, 64, 64, 1, 1, 1, 0) else {
        return;
    };
    let mut list = [[0u16; 6]; 16];
    let mut file = [0u8; FILE_ROOM];
    let first = calls::label(rt, head, &mut shelves, &mut buckets, &mut list, 10, 7);
    let n = calls::write(rt, first.head, &shelves, &buckets, &list, &mut file);
    let kept = list;
    let second = calls::label(
        rt,
        first.head,
        &mut shelves,
        &mut buckets,
        &mut list,
        10,
        20,
    );
    script::word(rt, b"restart\n");
    go_on(rt, &file, n, kept, first.id, second.id);
}

fn main(rt: HostRuntime) {
    restart(&rt);
    old::restart(&rt, &mut rt.stdin());
}
