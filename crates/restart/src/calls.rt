// The calls that a restart is made of, a line each.
use rules::{Head, Refusal};

// Room for 4,095 shelves of 5 numbers, and for 4,095 buckets of 7.
pub(crate) type Shelves = [u16; rules::SHELVES_ROOM];

pub(crate) type Buckets = [u16; rules::BUCKETS_ROOM];

// Room for 16 entries of the held list, six numbers each.
pub(crate) type List = [[u16; 6]; 16];

// A label's id, 0 where it was refused, and the header after it.
#[derive(Clone, Copy)]
pub(crate) struct Shown {
    pub id: u32,
    pub head: Head,
}

pub(crate) fn say(rt: &impl Print, text: &[u8], n: u32) {
    script::word(rt, text);
    script::number(rt, n);
}

fn refused(rt: &impl Print, refusal: Refusal) {
    say(rt, b": refused", u32::from(refusal));
    script::end(rt);
}

pub(crate) fn label(
    rt: &impl Print,
    head: Head,
    shelves: &mut Shelves,
    buckets: &mut Buckets,
    list: &mut List,
    width: i32,
    height: i32,
) -> Shown {
    script::word(rt, b"label");
    let Ok(issued) = atlas::allocate(head, shelves, buckets, list, width, height) else {
        script::end(rt);
        return Shown { id: 0, head };
    };
    let allocation = issued.allocation;
    script::number(rt, allocation.id);
    say(rt, b" at", allocation.rectangle.left as u32);
    script::number(rt, allocation.rectangle.top as u32);
    script::end(rt);
    Shown {
        id: allocation.id,
        head: issued.head,
    }
}

// The label goes.
pub(crate) fn take_off(
    rt: &impl Print,
    head: Head,
    shelves: &Shelves,
    buckets: &mut Buckets,
    list: &mut List,
    id: u32,
) -> Head {
    say(rt, b"return", id);
    match atlas::deallocate(head, shelves, buckets, list, id) {
        Ok(after) => {
            script::word(rt, b": done\n");
            after
        }
        Err(refusal) => {
            refused(rt, refusal);
            head
        }
    }
}

// How many bytes were written; 0 where the write was refused.
pub(crate) fn write(
    rt: &impl Print,
    head: Head,
    shelves: &Shelves,
    buckets: &Buckets,
    list: &List,
    file: &mut [u8],
) -> usize {
    script::word(rt, b"write");
    match files::write(head, shelves, buckets, list, file) {
        Ok(n) => {
            say(rt, b": bytes", n);
            script::end(rt);
            n as usize
        }
        Err(refusal) => {
            refused(rt, refusal);
            0
        }
    }
}

fn read(
    rt: &impl Print,
    what: &[u8],
    file: &[u8],
    shelves: &mut Shelves,
    buckets: &mut Buckets,
) -> Result<Head, Refusal> {
    script::word(rt, b"read");
    script::word(rt, what);
    let made = files::read(file, shelves, buckets);
    match made {
        Ok(head) => {
            say(rt, b": occupied", head.occupied);
            script::end(rt);
        }
        Err(refusal) => refused(rt, refusal),
    }
    made
}

// The first n bytes, read.
pub(crate) fn read_first(
    rt: &impl Print,
    what: &[u8],
    file: &[u8],
    n: usize,
    shelves: &mut Shelves,
    buckets: &mut Buckets,
) -> Result<Head, Refusal> {
    if file.len() < n {
        return Err(Refusal::Broken);
    }
    read(rt, what, &file[..n], shelves, buckets)
}

// A write into the first n bytes.
pub(crate) fn write_first(
    rt: &impl Print,
    head: Head,
    shelves: &Shelves,
    buckets: &Buckets,
    list: &List,
    file: &mut [u8],
    n: usize,
) {
    if file.len() < n {
        return;
    }
    write(rt, head, shelves, buckets, list, &mut file[..n]);
}
