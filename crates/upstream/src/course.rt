// What the lines leave for those after them.
use rules::{Head, Issued, Rectangle, Refusal};

// Room for 4,095 shelves of 5 numbers.
pub(crate) type Shelves = [u16; rules::SHELVES_ROOM];

// Room for 4,095 buckets of 7 numbers.
pub(crate) type Buckets = [u16; rules::BUCKETS_ROOM];

// Room for 1,024 entries of the held list, six numbers each.
pub(crate) type List = [[u16; 6]; 1024];

// The numbers of a line.
pub(crate) type Numbers = [u32; 32];

// The ids that 64 slots keep, then the areas, then the sides that are queued.
pub(crate) type Memory = [u32; 384];

pub(crate) const SLOTS: usize = 64;

pub(crate) const QUEUE: usize = 128;

// No atlas gives it: bucket 4,095 is past every bucket count.
pub(crate) const NO_ID: u32 = 4294967295;

// The atlas, the last two rectangles, the sum of the areas, and how often each thing that the test clear asserts was so. No count comes
// near the largest number.
#[derive(Clone, Copy)]
pub(crate) struct Course {
    pub(crate) head: Head,
    pub(crate) last: Rectangle,
    pub(crate) before: Rectangle,
    pub(crate) total: u32,
    pub(crate) queued: usize,
    pub(crate) cleared: u32,
    pub(crate) empty: u32,
    pub(crate) placed: u32,
}

// What a request got. After a refusal the id is NO_ID and the rectangle is empty.
#[derive(Clone, Copy)]
pub(crate) struct Got {
    pub(crate) id: u32,
    pub(crate) rectangle: Rectangle,
}

pub(crate) fn nowhere() -> Rectangle {
    Rectangle {
        left: 0,
        top: 0,
        right: 0,
        bottom: 0,
    }
}

// The header after a refused new: every further call answers 1 to it.
pub(crate) fn no_head() -> Head {
    Head {
        width: 0,
        height: 0,
        align_width: 0,
        align_height: 0,
        columns: 0,
        column_width: 0,
        column: 0,
        room: 0,
        shelf_count: 0,
        bucket_count: 0,
        released: 0,
        occupied: 0,
    }
}

pub(crate) fn none() -> Course {
    Course {
        head: no_head(),
        last: nowhere(),
        before: nowhere(),
        total: 0,
        queued: QUEUE,
        cleared: 0,
        empty: 0,
        placed: 0,
    }
}

// The header after a request: a refused one leaves it.
pub(crate) fn head_after(before: Head, asked: Result<Issued, Refusal>) -> Head {
    match asked {
        Ok(issued) => issued.head,
        Err(_) => before,
    }
}

// After a request: its rectangle is the last one, and its area counts.
pub(crate) fn with_got(course: Course, head: Head, rectangle: Rectangle) -> Course {
    Course {
        head,
        before: course.last,
        last: rectangle,
        total: course.total.wrapping_add(area_of(rectangle)),
        ..course
    }
}

pub(crate) fn area_of(r: Rectangle) -> u32 {
    if r.right < r.left || r.bottom < r.top {
        return 0;
    }
    (r.right - r.left) as u32 * (r.bottom - r.top) as u32
}

// Slot 0 keeps nothing.
pub(crate) fn keep(memory: &mut Memory, slot: usize, got: Got) {
    if slot == 0 || slot >= SLOTS {
        return;
    }
    memory[slot] = got.id;
    memory[slot + SLOTS] = area_of(got.rectangle);
}

pub(crate) fn id_in(memory: &Memory, slot: usize) -> u32 {
    if slot >= SLOTS {
        return NO_ID;
    }
    memory[slot]
}

pub(crate) fn area_in(memory: &Memory, slot: usize) -> u32 {
    if slot >= SLOTS {
        return 0;
    }
    memory[slot + SLOTS]
}
