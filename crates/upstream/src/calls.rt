// One call at a time, each told as a line: what the call answered.
use crate::course::{Buckets, Course, List, Memory, Numbers, Shelves};
use crate::{answers, course};
use rules::{Head, Refusal};

fn made(rt: &impl Print, m: Result<Head, Refusal>) -> Head {
    match m {
        Ok(head) => {
            script::word(rt, b" new ok\n");
            head
        }
        Err(r) => {
            answers::refused(rt, r);
            script::end(rt);
            course::no_head()
        }
    }
}

pub(crate) fn new(
    rt: &impl Print,
    course: Course,
    shelves: &Shelves,
    buckets: &Buckets,
    numbers: &Numbers,
) -> Course {
    let width = numbers::signed(numbers[0]);
    let height = numbers::signed(numbers[1]);
    let columns = numbers::signed(numbers[2]);
    let m = atlas::new(shelves, buckets, width, height, 1, 1, columns, 0);
    Course {
        head: made(rt, m),
        total: 0,
        ..course
    }
}

pub(crate) fn ask(
    rt: &impl Print,
    course: Course,
    shelves: &mut Shelves,
    buckets: &mut Buckets,
    list: &mut List,
    memory: &mut Memory,
    numbers: &Numbers,
) -> Course {
    let width = numbers::signed(numbers[0]);
    let height = numbers::signed(numbers[1]);
    let asked = atlas::allocate(course.head, shelves, buckets, list, width, height);
    let got = answers::placing(rt, asked);
    script::end(rt);
    course::keep(memory, script::index(numbers[2]), got);
    course::with_got(
        course,
        course::head_after(course.head, asked),
        got.rectangle,
    )
}

fn changed(rt: &impl Print, done: &[u8], course: Course, r: Result<Head, Refusal>) -> Course {
    let head = answers::reply(rt, done, course.head, r);
    script::end(rt);
    Course { head, ..course }
}

pub(crate) fn give(
    rt: &impl Print,
    course: Course,
    shelves: &Shelves,
    buckets: &mut Buckets,
    list: &mut List,
    id: u32,
) -> Course {
    changed(
        rt,
        b" dealloc ok",
        course,
        atlas::deallocate(course.head, shelves, buckets, list, id),
    )
}

pub(crate) fn back(
    rt: &impl Print,
    course: Course,
    shelves: &Shelves,
    buckets: &mut Buckets,
    list: &mut List,
    memory: &Memory,
    numbers: &Numbers,
) -> Course {
    let slot = script::index(numbers[0]);
    let id = course::id_in(memory, slot);
    let area = course::area_in(memory, slot);
    let next = give(rt, course, shelves, buckets, list, id);
    Course {
        total: next.total.wrapping_sub(area),
        ..next
    }
}

pub(crate) fn grow(
    rt: &impl Print,
    course: Course,
    shelves: &mut Shelves,
    buckets: &mut Buckets,
    list: &mut List,
    numbers: &Numbers,
) -> Course {
    let width = numbers::signed(numbers[0]);
    let height = numbers::signed(numbers[1]);
    changed(
        rt,
        b" grow ok",
        course,
        atlas::grow(course.head, shelves, buckets, list, width, height),
    )
}
