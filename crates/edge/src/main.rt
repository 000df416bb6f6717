// The last offsets of a trace: a replay that starts near 4,294,967,295, as one does behind 4 GiB, and what its records and its end write. Each case is two
// chunks and the end of input; a line of stars stands behind it.
#![tactic(auto)]

use rules::{OFFSET_MOST, Pause, Refusal};

// The first n bytes.
fn print(rt: &impl Print, out: &[u8], n: usize) {
    if out.len() < n {
        return;
    }
    let _ = rt.write_all(&out[..n]);
}

fn print_lines(rt: &impl Print, out: &[u8], lines: Result<usize, Refusal>) {
    if let Ok(n) = lines {
        print(rt, out, n);
    }
}

// A replay whose next record starts at an offset.
fn from(offset: u32) -> Pause {
    Pause {
        offset,
        ..trace::start()
    }
}

fn fed(
    rt: &impl Print,
    pause: Pause,
    chunk: &[u8],
    shelves: &mut [u16],
    buckets: &mut [u16],
    list: &mut [[u16; 6]],
    out: &mut [u8],
) -> Pause {
    let feed = trace::feed(pause, chunk, shelves, buckets, list, out);
    print_lines(rt, out, feed.lines);
    feed.pause
}

fn case(rt: &impl Print, offset: u32, first: &[u8], second: &[u8]) {
    let mut shelves = [0u16; 5];
    let mut buckets = [0u16; 7];
    let mut list = [[0u16; 6]; 1];
    let mut out = [0u8; 512];
    let middle = fed(
        rt,
        from(offset),
        first,
        &mut shelves,
        &mut buckets,
        &mut list,
        &mut out,
    );
    let last = fed(
        rt,
        middle,
        second,
        &mut shelves,
        &mut buckets,
        &mut list,
        &mut out,
    );
    let lines = trace::finish(last, &mut out);
    print_lines(rt, &out, lines);
    print(rt, b"*\n", 2);
}

fn main(rt: HostRuntime) {
    // it ends at the last offset
    case(&rt, OFFSET_MOST - 4, b"\x02\x00", b"\x06\x00");
    // it would end one past it: told with the fourth byte
    case(&rt, OFFSET_MOST - 3, b"\x02\x00\x06", b"\x00");
    // the next one starts at the last offset
    case(
        &rt,
        OFFSET_MOST - 4,
        b"\x02\x00\x06\x00",
        b"\x02\x00\x06\x00",
    );
    // cut there: told at the end
    case(&rt, OFFSET_MOST - 4, b"\x02\x00\x06\x00\x02", b"\x00");
    // nothing follows
    case(&rt, OFFSET_MOST - 4, b"\x02\x00\x06\x00", b"");
}
