// The trace replay as a program: a trace from standard input, or from the file that an argument names, read as its bytes come, and the lines of its
// records to standard output, each chunk's as soon as they are known; then, where one is asked for, the picture of the atlas that it leaves. The arguments
// are `[TRACE]` or `--picture FILE [TRACE]`, and which of them is told by their number. What cannot be read, written or drawn is told on standard error.
#![tactic(auto)]

ghost use Rattle.std.specs.Prelude.{◌≤◌, length};

use rules::{
    BUCKETS_ROOM, HELD_MOST, Head, PICTURE_MOST, Pause, REPLAY_HELD, Refusal, SHELVES_ROOM,
};
use std::env::FillError;
use std::io::{Error, ErrorKind, Read, Write};
use std::rt::{Env, Files};
use std::{fs, io};

// The bytes of a trace that are read at once, and the lines that they and what is held over may give.
const CHUNK: usize = 65536;

const LINES: usize = 7 * (HELD_MOST + CHUNK);

// The replay behind a read, whether there may be more of it, and whether it has ended with every line written.
#[derive(Clone, Copy)]
struct Going {
    more: bool,
    ended: bool,
    pause: Pause,
}

// The system's words for an error, without the number that std sets behind them.
fn words(error: &str) -> &str {
    match error.split_once(" (os error ") {
        Some((words, _)) => words,
        None => error,
    }
}

// A line on standard error: what failed, a colon and the system's words.
fn fail(rt: &(impl Eprint + AllocGlobal), name: &str, error: Error) {
    let Ok(text) = format!(in rt.alloc(); "{error}") else {
        let _ = eprintln!(rt; "{name}: {error}");
        return;
    };
    let words = words(text.as_str());
    let _ = eprintln!(rt; "{name}: {words}");
}

// The first n bytes, into a file; whether they are written. A reader that has closed is told nothing.
fn put(
    rt: &(impl Eprint + AllocGlobal),
    to: &mut impl Write,
    name: &str,
    bytes: &[u8],
    n: usize,
) -> bool {
    if bytes.len() < n {
        return false;
    }
    let Err(error) = to.write_all(&bytes[..n]) else {
        return true;
    };
    if error.kind() != ErrorKind::BrokenPipe {
        fail(rt, name, error);
    }
    false
}

// Whether the lines of an answer are written.
fn print_lines(
    rt: &(impl Print + Eprint + AllocGlobal),
    out: &[u8],
    lines: Result<usize, Refusal>,
) -> bool {
    let Ok(n) = lines else {
        return false;
    };
    put(rt, &mut io::writer(rt), "standard output", out, n)
}

// The end of input; whether its line is written.
fn end(rt: &(impl Print + Eprint + AllocGlobal), pause: Pause) -> bool {
    let mut out = [0u8; 64];
    let lines = trace::finish(pause, &mut out);
    print_lines(rt, &out, lines)
}

// One read, and the lines of what came. "14 .. ends": behind a stop nothing more is read.
fn replay_some(
    rt: &(impl Print + Eprint + AllocGlobal),
    input: &mut impl Read,
    name: &str,
    pause: Pause,
    shelves: &mut [u16],
    buckets: &mut [u16],
    list: &mut [[u16; 6]],
    chunk: &mut [u8],
    out: &mut [u8],
) -> Going {
    let n = match input.read(chunk) {
        Ok(n) => n,
        Err(error) => {
            fail(rt, name, error);
            return Going {
                more: false,
                ended: false,
                pause,
            };
        }
    };
    if n == 0 {
        let written = end(rt, pause);
        return Going {
            more: false,
            ended: written,
            pause,
        };
    }
    let fed = trace::feed(pause, &chunk[..n], shelves, buckets, list, out);
    let next = fed.pause;
    let written = print_lines(rt, out, fed.lines);
    Going {
        more: written && !next.over,
        ended: written && next.over,
        pause: next,
    }
}

// A proved loop has to end, and nothing says that its input does: so the reads are counted down from a number that no run uses up.
fn replay_all(
    rt: &(impl Print + Eprint + AllocGlobal),
    input: &mut impl Read,
    name: &str,
    shelves: &mut [u16],
    buckets: &mut [u16],
    list: &mut [[u16; 6]],
    chunk: &mut [u8],
    out: &mut [u8],
) -> Going {
    let mut going = Going {
        more: true,
        ended: false,
        pause: trace::start(),
    };
    let mut reads = u64::MAX;
    while reads > 0 && going.more {
        going = replay_some(
            rt,
            input,
            name,
            going.pause,
            shelves,
            buckets,
            list,
            chunk,
            out,
        );
        reads -= 1;
    }
    going
}

// The first n bytes of a text, in the place of what the file has.
fn save(rt: &(impl Files + Eprint + AllocGlobal), path: &str, text: &[u8], n: usize) {
    match fs::create(rt, path) {
        Ok(mut file) => {
            put(rt, &mut file, path, text, n);
        }
        Err(error) => fail(rt, path, error),
    }
}

// The text of an argument at the start of the buffer: its length, or the buffer's where it is longer.
fn arg(rt: &impl Env, i: usize, text: &mut [u8]) -> usize
    ensures { result ≤ length text.new }
{
    match rt.arg(i, text) {
        Ok(n) => n,
        Err(FillError::TooLong) => text.len(),
        Err(FillError::NotPresent) => 0,
    }
}

// Whether there are more than i arguments, the program's name among them.
fn has_arg(rt: &impl Env, i: usize) -> bool {
    match rt.arg(i, &mut []) {
        Ok(_) => true,
        Err(FillError::TooLong) => true,
        Err(FillError::NotPresent) => false,
    }
}

// A file whose name is no text: there is no way to it.
fn unnamed(rt: &impl Eprint) {
    let _ = eprintln!(rt; "a name of a file is not UTF-8 text");
}

// Zeros, as many as a picture may have bytes.
fn picture_room() -> [u8; PICTURE_MOST] {
    [0u8; PICTURE_MOST]
}

// The picture, into the file that an argument names. The header before the first new is no atlas's, and is refused.
fn draw(
    rt: &(impl Env + Files + Eprint + AllocGlobal),
    head: Head,
    shelves: &[u16],
    buckets: &[u16],
    list: &[[u16; 6]],
) {
    let mut text = picture_room();
    let Ok(n) = picture::picture(head, shelves, buckets, list, &mut text) else {
        let _ = eprintln!(rt; "no atlas to draw");
        return;
    };
    let mut path = [0u8; 4096];
    let length = arg(rt, 2, &mut path);
    let Ok(path) = str::from_utf8(&path[..length]) else {
        unnamed(rt);
        return;
    };
    save(rt, path, &text, n as usize);
}

fn replay_from(
    rt: &(impl Env + Files + Print + Eprint + AllocGlobal),
    input: &mut impl Read,
    name: &str,
) {
    let mut shelves = [0u16; SHELVES_ROOM];
    let mut buckets = [0u16; BUCKETS_ROOM];
    let mut list = [[0u16; 6]; REPLAY_HELD];
    let mut chunk = [0u8; CHUNK];
    let mut out = [0u8; LINES];
    let last = replay_all(
        rt,
        input,
        name,
        &mut shelves,
        &mut buckets,
        &mut list,
        &mut chunk,
        &mut out,
    );
    if last.ended && has_arg(rt, 2) {
        draw(rt, last.pause.head, &shelves, &buckets, &list);
    }
}

// The place of the trace's name among the arguments, where there are two or four; 0 where it has none.
fn name_place(rt: &impl Env) -> usize {
    if has_arg(rt, 1) && !has_arg(rt, 2) {
        return 1;
    }
    if has_arg(rt, 3) && !has_arg(rt, 4) {
        return 3;
    }
    0
}

fn main(rt: HostRuntime) {
    let place = name_place(&rt);
    if place == 0 {
        replay_from(&rt, &mut rt.stdin(), "standard input");
        return;
    }
    let mut path = [0u8; 4096];
    let n = arg(&rt, place, &mut path);
    let Ok(path) = str::from_utf8(&path[..n]) else {
        unnamed(&rt);
        return;
    };
    match fs::open(&rt, path) {
        Ok(mut file) => replay_from(&rt, &mut file, path),
        Err(error) => fail(&rt, path, error),
    }
}
