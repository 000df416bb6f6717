// The reading calls, and what is asserted.
use crate::answers;
use crate::course::{Buckets, Course, List, Numbers, Shelves};
use rules::{Head, Rectangle};

fn empty(rt: &impl Print, head: Head, shelves: &Shelves, buckets: &Buckets, list: &List) {
    match atlas::is_empty(head, shelves, buckets, list) {
        Ok(yes) => script::answer(rt, yes),
        Err(r) => {
            answers::refused(rt, r);
            script::end(rt);
        }
    }
}

fn occupied(rt: &impl Print, head: Head, shelves: &Shelves, buckets: &Buckets, list: &List) {
    answers::figure(rt, atlas::allocated_space(head, shelves, buckets, list));
    script::end(rt);
}

fn space(rt: &impl Print, head: Head, shelves: &Shelves, buckets: &Buckets, list: &List) {
    answers::figure(rt, atlas::allocated_space(head, shelves, buckets, list));
    answers::figure(rt, atlas::free_space(head, shelves, buckets, list));
    script::end(rt);
}

// The figure and the sum, and whether they agree.
fn total(rt: &impl Print, course: Course, shelves: &Shelves, buckets: &Buckets, list: &List) {
    let occupied = atlas::allocated_space(course.head, shelves, buckets, list);
    answers::figure(rt, occupied);
    script::number(rt, course.total);
    script::answer(rt, occupied == Ok(course.total));
}

// A side, and whether it is in a range where there is one.
fn side(rt: &impl Print, v: u32, count: usize, from: u32, to: u32) {
    script::number(rt, v);
    if count < 2 {
        script::end(rt);
        return;
    }
    script::word(rt, b" in");
    script::number(rt, from);
    script::word(rt, b" to");
    script::number(rt, to);
    script::answer(rt, (from..to).contains(&v));
}

fn beside(from: u16, to: u16, left: u16, right: u16) -> bool {
    to <= left || right <= from
}

fn overlap(p: Rectangle, q: Rectangle) -> bool {
    !beside(p.left, p.right, q.left, q.right) && !beside(p.top, p.bottom, q.top, q.bottom)
}

// How often each thing that the test clear asserts was so.
fn count(rt: &impl Print, course: Course, which: u32) {
    match which {
        0 => script::number(rt, course.cleared),
        1 => script::number(rt, course.empty),
        _ => script::number(rt, course.placed),
    }
    script::end(rt);
}

// What was done before, with no call.
fn noted(rt: &impl Print, verb: u8, count_of: usize, course: Course, numbers: &Numbers) {
    let last = course.last;
    match verb {
        b'l' => side(rt, last.left as u32, count_of, numbers[0], numbers[1]),
        b'r' => side(rt, last.right as u32, count_of, numbers[0], numbers[1]),
        b'h' => script::answer(rt, overlap(course.before, last)),
        b'c' => count(rt, course, numbers[0]),
        _ => return,
    }
}

pub(crate) fn told(
    rt: &impl Print,
    verb: u8,
    count_of: usize,
    course: Course,
    shelves: &Shelves,
    buckets: &Buckets,
    list: &List,
    numbers: &Numbers,
) {
    match verb {
        b'e' => empty(rt, course.head, shelves, buckets, list),
        b'o' => occupied(rt, course.head, shelves, buckets, list),
        b's' => space(rt, course.head, shelves, buckets, list),
        b't' => total(rt, course, shelves, buckets, list),
        _ => noted(rt, verb, count_of, course, numbers),
    }
}
