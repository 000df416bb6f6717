// The test clear: a list of requests, many times over, each time after a clear.
use crate::course;
use crate::course::{Buckets, Course, List, Memory, Numbers, QUEUE, Shelves};

fn more(n: u32, yes: bool) -> u32 {
    n.wrapping_add(yes as u32)
}

fn clear(course: Course, shelves: &Shelves, buckets: &Buckets, list: &List) -> Course {
    let cleared = atlas::clear(course.head, shelves, buckets, list);
    let head = cleared.unwrap_or(course.head);
    let occupied = atlas::allocated_space(head, shelves, buckets, list);
    Course {
        head,
        cleared: more(course.cleared, cleared.is_ok()),
        empty: more(course.empty, occupied == Ok(0)),
        ..course
    }
}

fn place(
    course: Course,
    shelves: &mut Shelves,
    buckets: &mut Buckets,
    list: &mut List,
    width: u32,
    height: u32,
) -> Course {
    let asked = atlas::allocate(
        course.head,
        shelves,
        buckets,
        list,
        numbers::signed(width),
        numbers::signed(height),
    );
    Course {
        head: course::head_after(course.head, asked),
        placed: more(course.placed, asked.is_ok()),
        ..course
    }
}

// A clear, and every request that is queued.
fn round(
    course: Course,
    shelves: &mut Shelves,
    buckets: &mut Buckets,
    list: &mut List,
    memory: &Memory,
) -> Course {
    let mut next = clear(course, shelves, buckets, list);
    for i in (QUEUE..course.queued.min(383)).step_by(2) {
        next = place(next, shelves, buckets, list, memory[i], memory[i + 1]);
    }
    next
}

pub(crate) fn work(
    course: Course,
    shelves: &mut Shelves,
    buckets: &mut Buckets,
    list: &mut List,
    memory: &Memory,
    rounds: u32,
) -> Course {
    let mut next = course;
    for _ in 0..rounds {
        next = round(next, shelves, buckets, list, memory);
    }
    next
}

fn push(memory: &mut Memory, end: usize, n: u32) -> usize {
    if end >= 384 {
        return end;
    }
    memory[end] = n;
    end + 1
}

// The numbers of a line behind those that are queued.
pub(crate) fn queued(
    count: usize,
    course: Course,
    memory: &mut Memory,
    numbers: &Numbers,
) -> Course {
    let mut end = course.queued;
    for n in &numbers[..count.min(32)] {
        end = push(memory, end, *n);
    }
    Course {
        queued: end,
        ..course
    }
}
