// The user's complaint, mended (T-08): for ten years of quarters 32 by 32 labels come and go on one 256 by 256 atlas, ten at a time, 4,000 a
// quarter. A bucket takes 4,095 items and no more until it is empty. Before T-08 that was until it was released: row after row wore out while the
// free figure stayed high, until a label was refused. A line a quarter; `tools/wear` sets the crate's beside them.
#![tactic(auto)]

use rules::{Head, ITEMS_MOST};

// The ids of the ten labels that are held, none where one was refused.
type Labels = [Option<u32>; 10];

// Room for 4,095 shelves of 5 numbers, and for 4,095 buckets of 7.
type Shelves = [u16; rules::SHELVES_ROOM];

type Buckets = [u16; rules::BUCKETS_ROOM];

// So many labels have pixels in the atlas; room for as many entries of the held list, six numbers each.
const LABELS_MOST: usize = 64;

type List = [[u16; 6]; LABELS_MOST];

// The header after some labels, and how many of them were refused.
#[derive(Clone, Copy)]
struct Tally {
    head: Head,
    refused: u32,
}

// One label comes: its id, and the tally with it.
fn place(
    tally: Tally,
    shelves: &mut Shelves,
    buckets: &mut Buckets,
    list: &mut List,
) -> (Tally, Option<u32>) {
    match atlas::allocate(tally.head, shelves, buckets, list, 32, 32) {
        Ok(issued) => (
            Tally {
                head: issued.head,
                ..tally
            },
            Some(issued.allocation.id),
        ),
        Err(_) => (
            Tally {
                refused: tally.refused.wrapping_add(1),
                ..tally
            },
            None,
        ),
    }
}

// The header after the label, if there is one, has gone.
fn take_off(
    head: Head,
    shelves: &Shelves,
    buckets: &mut Buckets,
    list: &mut List,
    label: Option<u32>,
) -> Head {
    let Some(id) = label else {
        return head;
    };
    atlas::deallocate(head, shelves, buckets, list, id).unwrap_or(head)
}

// One label comes, in the place of the one that was printed ten before it.
fn label(
    tally: Tally,
    shelves: &mut Shelves,
    buckets: &mut Buckets,
    list: &mut List,
    held: &mut Option<u32>,
) -> Tally {
    let head = take_off(tally.head, shelves, buckets, list, *held);
    let (after, id) = place(Tally { head, ..tally }, shelves, buckets, list);
    *held = id;
    after
}

fn quarter(
    head: Head,
    shelves: &mut Shelves,
    buckets: &mut Buckets,
    list: &mut List,
    labels: &mut Labels,
) -> Tally {
    let mut tally = Tally { head, refused: 0 };
    for turn in 0..4000usize {
        tally = label(tally, shelves, buckets, list, &mut labels[turn % 10]);
    }
    tally
}

// How many labels can be placed beside those that are held. They are placed on copies, so that the quarters go on as if they had not been.
fn placeable(head: Head, shelves: &Shelves, buckets: &Buckets, list: &List) -> u32 {
    let mut own_shelves = *shelves;
    let mut own_buckets = *buckets;
    let mut own_list = *list;
    let mut asked = Tally { head, refused: 0 };
    for _ in 0..LABELS_MOST {
        (asked, _) = place(asked, &mut own_shelves, &mut own_buckets, &mut own_list);
    }
    (LABELS_MOST as u32).wrapping_sub(asked.refused)
}

// How many of the first 16 buckets take no more items. There are never more buckets.
fn worn(buckets: &Buckets) -> u32 {
    (0..16usize)
        .filter(|i| ITEMS_MOST <= buckets[7 * *i + 4])
        .count() as u32
}

fn say(rt: &impl Print, text: &[u8], n: u32) {
    script::word(rt, text);
    script::number(rt, n);
}

// What the atlas is at the end of a quarter.
fn report(rt: &impl Print, head: Head, shelves: &Shelves, buckets: &Buckets, list: &List) {
    say(rt, b" of 4000, worn-out buckets", worn(buckets));
    say(
        rt,
        b", occupied",
        atlas::allocated_space(head, shelves, buckets, list).unwrap_or(0),
    );
    say(
        rt,
        b", free",
        atlas::free_space(head, shelves, buckets, list).unwrap_or(0),
    );
    say(
        rt,
        b", more labels",
        placeable(head, shelves, buckets, list),
    );
    script::end(rt);
}

// Quarter n, and its line.
fn told(
    rt: &impl Print,
    n: u32,
    head: Head,
    shelves: &mut Shelves,
    buckets: &mut Buckets,
    list: &mut List,
    labels: &mut Labels,
) -> Head {
    let spent = quarter(head, shelves, buckets, list, labels);
    say(rt, b"quarter", n);
    say(rt, b": refused", spent.refused);
    report(rt, spent.head, shelves, buckets, list);
    spent.head
}

// Ten years.
fn quarters(
    rt: &impl Print,
    head: Head,
    shelves: &mut Shelves,
    buckets: &mut Buckets,
    list: &mut List,
    labels: &mut Labels,
) -> Head {
    let mut after = head;
    for n in 1..41 {
        after = told(rt, n, after, shelves, buckets, list, labels);
    }
    after
}

// The last line: what one label more is answered.
fn last(
    rt: &impl Print,
    head: Head,
    shelves: &mut Shelves,
    buckets: &mut Buckets,
    list: &mut List,
) {
    match atlas::allocate(head, shelves, buckets, list, 32, 32) {
        Ok(issued) => say(rt, b"32 by 32: placed, id", issued.allocation.id),
        Err(refusal) => say(rt, b"32 by 32: refused", u32::from(refusal)),
    }
    script::end(rt);
}

fn main(rt: HostRuntime) {
    let mut shelves = [0u16; rules::SHELVES_ROOM];
    let mut buckets = [0u16; rules::BUCKETS_ROOM];
    let mut list = [[0u16; 6]; LABELS_MOST];
    let mut labels = [None; 10];
    let Ok(head) = atlas::new(&shelves, &buckets, 256, 256, 1, 1, 1, 0) else {
        return;
    };
    let after = quarters(
        &rt,
        head,
        &mut shelves,
        &mut buckets,
        &mut list,
        &mut labels,
    );
    last(&rt, after, &mut shelves, &mut buckets, &mut list);
}
