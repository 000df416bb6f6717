// Many calls in one line, a slot each.
use crate::course::{Buckets, Course, List, Memory, Numbers, Shelves};
use crate::{answers, course};
use rules::Head;

fn put(
    rt: &impl Print,
    head: Head,
    shelves: &mut Shelves,
    buckets: &mut Buckets,
    list: &mut List,
    memory: &mut Memory,
    slot: usize,
) -> Head {
    let asked = atlas::allocate(head, shelves, buckets, list, 32, 32);
    course::keep(memory, slot, answers::id(rt, asked));
    course::head_after(head, asked)
}

fn free(
    rt: &impl Print,
    head: Head,
    shelves: &Shelves,
    buckets: &mut Buckets,
    list: &mut List,
    id: u32,
) -> Head {
    let given = atlas::deallocate(head, shelves, buckets, list, id);
    answers::reply(rt, b" ok", head, given)
}

fn one(
    rt: &impl Print,
    verb: u8,
    head: Head,
    shelves: &mut Shelves,
    buckets: &mut Buckets,
    list: &mut List,
    memory: &mut Memory,
    slot: usize,
) -> Head {
    if verb == b'p' {
        return put(rt, head, shelves, buckets, list, memory, slot);
    }
    free(
        rt,
        head,
        shelves,
        buckets,
        list,
        course::id_in(memory, slot),
    )
}

pub(crate) fn all(
    rt: &impl Print,
    verb: u8,
    course: Course,
    shelves: &mut Shelves,
    buckets: &mut Buckets,
    list: &mut List,
    memory: &mut Memory,
    numbers: &Numbers,
) -> Course {
    let mut head = course.head;
    for slot in script::index(numbers[0])..script::index(numbers[1]) {
        head = one(rt, verb, head, shelves, buckets, list, memory, slot);
    }
    script::end(rt);
    Course { head, ..course }
}
