// The answers of the calls, each told on a line that is begun.
use crate::course;
use crate::course::Got;
use rules::{Allocation, Head, Issued, Refusal};

pub(crate) fn refused(rt: &impl Print, r: Refusal) {
    script::word(rt, b" refused");
    script::number(rt, u32::from(r));
}

fn corners(rt: &impl Print, a: Allocation) {
    let r = a.rectangle;
    script::number(rt, r.left as u32);
    script::number(rt, r.top as u32);
    script::number(rt, r.right as u32);
    script::number(rt, r.bottom as u32);
}

// The id and the rectangle's corners.
fn placed(rt: &impl Print, a: Allocation) {
    script::word(rt, b" alloc");
    script::number(rt, a.id);
    corners(rt, a);
}

// Of a request that was placed.
fn got(a: Allocation) -> Got {
    Got {
        id: a.id,
        rectangle: a.rectangle,
    }
}

fn nothing() -> Got {
    Got {
        id: course::NO_ID,
        rectangle: course::nowhere(),
    }
}

pub(crate) fn placing(rt: &impl Print, p: Result<Issued, Refusal>) -> Got {
    match p {
        Ok(issued) => {
            placed(rt, issued.allocation);
            got(issued.allocation)
        }
        Err(r) => {
            refused(rt, r);
            nothing()
        }
    }
}

// The id alone.
pub(crate) fn id(rt: &impl Print, p: Result<Issued, Refusal>) -> Got {
    match p {
        Ok(issued) => {
            script::number(rt, issued.allocation.id);
            got(issued.allocation)
        }
        Err(r) => {
            refused(rt, r);
            nothing()
        }
    }
}

// The word for an accepted call, or the refusal; and the header after it.
pub(crate) fn reply(rt: &impl Print, done: &[u8], before: Head, r: Result<Head, Refusal>) -> Head {
    match r {
        Ok(after) => {
            script::word(rt, done);
            after
        }
        Err(r) => {
            refused(rt, r);
            before
        }
    }
}

pub(crate) fn figure(rt: &impl Print, f: Result<u32, Refusal>) {
    match f {
        Ok(n) => script::number(rt, n),
        Err(r) => refused(rt, r),
    }
}
