// The crate's own tests of this module, the vertical one aside, and the cases that document 01 has run only, by the public calls. They
// stand in the file stdin, which says what its words mean. A line for each assertion and each call on its way: the test, what is asked,
// the answer.
#![tactic(auto)]

mod answers; // answers.rt: the answers of the calls, each told
mod calls; // calls.rt: one call at a time
mod course; // course.rt: what the lines leave for those after them
mod reads; // reads.rt: the reading calls, and what is asserted
mod rounds; // rounds.rt: a list of requests, many times over
mod slots; // slots.rt: many calls in one line

use course::{Buckets, Course, List, Memory, Numbers, Shelves};

fn one(
    rt: &impl Print,
    verb: u8,
    course: Course,
    shelves: &mut Shelves,
    buckets: &mut Buckets,
    list: &mut List,
    memory: &mut Memory,
    numbers: &Numbers,
) -> Course {
    match verb {
        b'n' => calls::new(rt, course, shelves, buckets, numbers),
        b'a' => calls::ask(rt, course, shelves, buckets, list, memory, numbers),
        b'b' => calls::back(rt, course, shelves, buckets, list, memory, numbers),
        b'i' => calls::give(rt, course, shelves, buckets, list, numbers[0]),
        b'g' => calls::grow(rt, course, shelves, buckets, list, numbers),
        _ => course,
    }
}

fn many(
    rt: &impl Print,
    verb: u8,
    count: usize,
    course: Course,
    shelves: &mut Shelves,
    buckets: &mut Buckets,
    list: &mut List,
    memory: &mut Memory,
    numbers: &Numbers,
) -> Course {
    match verb {
        b'p' | b'f' => slots::all(rt, verb, course, shelves, buckets, list, memory, numbers),
        b'q' => rounds::queued(count, course, memory, numbers),
        b'w' => rounds::work(course, shelves, buckets, list, memory, numbers[0]),
        _ => one(rt, verb, course, shelves, buckets, list, memory, numbers),
    }
}

// What a line leaves, and where the next one begins.
#[derive(Clone, Copy)]
struct Left {
    course: Course,
    next: usize,
}

fn line(
    rt: &impl Print,
    text: &[u8],
    at: usize,
    course: Course,
    shelves: &mut Shelves,
    buckets: &mut Buckets,
    list: &mut List,
    memory: &mut Memory,
) -> Left {
    if at >= text.len() {
        return Left { course, next: at };
    }
    let mut numbers = [0u32; 32];
    let line = script::read(rt, text, at, &mut numbers);
    reads::told(
        rt, line.verb, line.count, course, shelves, buckets, list, &numbers,
    );
    let after = many(
        rt, line.verb, line.count, course, shelves, buckets, list, memory, &numbers,
    );
    Left {
        course: after,
        next: line.next,
    }
}

// A script has at most 4,096 lines.
fn run(rt: &impl Print, text: &[u8]) {
    let mut shelves = [0u16; rules::SHELVES_ROOM];
    let mut buckets = [0u16; rules::BUCKETS_ROOM];
    let mut list = [[0u16; 6]; 1024];
    let mut memory = [0u32; 384];
    let mut left = Left {
        course: course::none(),
        next: 0,
    };
    for _ in 0..4096usize {
        left = line(
            rt,
            text,
            left.next,
            left.course,
            &mut shelves,
            &mut buckets,
            &mut list,
            &mut memory,
        );
    }
}

fn main(rt: HostRuntime) {
    let mut text = [0u8; 65536];
    let n = script::read_full(&mut rt.stdin(), &mut text);
    run(&rt, &text[..n]);
}
