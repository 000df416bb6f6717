// A file that the build of T-07 wrote, before T-08, from standard input: a 256 by 256 atlas. 255 times over 64 labels of 32 by 32 were placed and handed
// back, then labels came and went as in crates/wear until one was refused, at the 64,482nd. Ten buckets are worn out and unreferenced, six of them
// at generation 255, and two of that generation hold a label and have handed out more than 4,095. Reading puts the ten back in service.
use crate::calls;
use crate::calls::{Buckets, List, Shelves};
use rules::Head;
use std::io::Read;

// Room for that file, which has 437 bytes.
const FILE_ROOM: usize = 512;

type File = [u8; FILE_ROOM];

// The list that its panel kept beside it: nine labels, the ids in two halves. The first is the last one that its bucket holds, of generation 255.
const KEPT: List = [
    [4098, 65280, 128, 96, 160, 128],
    [4100, 65280, 128, 128, 160, 160],
    [7, 65024, 128, 160, 160, 192],
    [61452, 16127, 0, 192, 32, 224],
    [14, 12252, 224, 224, 256, 256],
    [15, 12141, 0, 224, 32, 256],
    [4111, 12141, 32, 224, 64, 256],
    [8207, 12141, 64, 224, 96, 256],
    [12303, 12141, 96, 224, 128, 256],
    [0, 0, 0, 0, 0, 0],
    [0, 0, 0, 0, 0, 0],
    [0, 0, 0, 0, 0, 0],
    [0, 0, 0, 0, 0, 0],
    [0, 0, 0, 0, 0, 0],
    [0, 0, 0, 0, 0, 0],
    [0, 0, 0, 0, 0, 0],
];

// Bucket 2, item 4,097 less 4,096, generation 255.
const AT_255: u32 = 4278194178;

// How many bytes of two files differ.
fn differing(one: &File, other: &File) -> u32 {
    one.iter()
        .zip(other)
        .filter(|(one, other)| one != other)
        .count() as u32
}

// Written again and read again: the first time other bytes than were read, the second time the same, since this build leaves nothing to repair.
fn again(
    rt: &impl Print,
    head: Head,
    shelves: &mut Shelves,
    buckets: &mut Buckets,
    list: &List,
    read: &File,
) {
    let mut first = [0u8; FILE_ROOM];
    let n = calls::write(rt, head, shelves, buckets, list, &mut first);
    calls::say(rt, b"bytes other than were read", differing(read, &first));
    script::end(rt);
    let Ok(after) = calls::read_first(rt, b" again", &first, n, shelves, buckets) else {
        return;
    };
    let mut second = [0u8; FILE_ROOM];
    calls::write(rt, after, shelves, buckets, list, &mut second);
    calls::say(
        rt,
        b"bytes other than were read",
        differing(&first, &second),
    );
    script::end(rt);
}

// A label of 32 by 32 is placed. The last label of a bucket goes, whose generation is then 0: going twice is refused with 10, and the next label there
// has an id of that generation.
fn go_on(
    rt: &impl Print,
    head: Head,
    shelves: &mut Shelves,
    buckets: &mut Buckets,
    list: &mut List,
) {
    let placed = calls::label(rt, head, shelves, buckets, list, 32, 32);
    let gone = calls::take_off(rt, placed.head, shelves, buckets, list, AT_255);
    let twice = calls::take_off(rt, gone, shelves, buckets, list, AT_255);
    calls::label(rt, twice, shelves, buckets, list, 32, 32);
}

pub(crate) fn restart(rt: &impl Print, input: &mut impl Read) {
    let mut shelves = [0u16; rules::SHELVES_ROOM];
    let mut buckets = [0u16; rules::BUCKETS_ROOM];
    let mut list = KEPT;
    let mut file = [0u8; FILE_ROOM];
    let n = script::read_full(input, &mut file);
    let made = calls::read_first(
        rt,
        b" what an earlier build wrote",
        &file,
        n,
        &mut shelves,
        &mut buckets,
    );
    let Ok(head) = made else {
        return;
    };
    again(rt, head, &mut shelves, &mut buckets, &list, &file);
    go_on(rt, head, &mut shelves, &mut buckets, &mut list);
}
