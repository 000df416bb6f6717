// Lines out: the lines of a replay, in a lent buffer. Each writer answers the place after what it wrote. Buffer and place are no struct: it would hold a
// `&mut`, and each contract would have to say that it still holds the same one.
#![tactic(auto)]

ghost use Rattle.std.specs.Prelude.{◌≡◌, ◌++◌, ◌+◌, ◌^◌, ◌≤◌, ◌<◌, length};
ghost use Rattle.rules.specs.Trace.{decimal, spaced, newline, refused_line, stop_line, alloc_line, space_line};
ghost use Rattle.lines.specs.Put.{Put};

use rules::{Allocation, Refusal};

// Bytes past the buffer's end are not written and are counted all the same.
pub fn put_text(out: &mut [u8], at: usize, text: &[u8]) -> usize
    requires { at + length text.now < 2 ^ 64 }
    ensures { Put out.old out.new at result text.now }
{
    let end = at + text.len();
    let first = out.len().min(at);
    let last = out.len().min(end);
    out[first..last].copy_from_slice(&text[..last - first]);
    end
}

// Digit by digit from the last one on: how many there are is known only at the first, so no range of places is gone over.
pub fn put_number(out: &mut [u8], at: usize, n: u32) -> usize
    requires { at + 10 < 2 ^ 64 }
    ensures { Put out.old out.new at result (decimal n) }
{
    let mut digits = [0u8; 10];
    let mut i: usize = 9;
    let mut left = n;
    while 10 <= left {
        digits[i] = b'0' + (left % 10) as u8;
        left /= 10;
        i -= 1;
    }
    digits[i] = b'0' + left as u8;
    put_text(out, at, &digits[i..])
}

// a space, and a number
fn put_spaced(out: &mut [u8], at: usize, n: u32) -> usize
    requires { at + 11 ≤ length out.old }
    ensures { Put out.old out.new at result (spaced n) }
{
    let after = put_text(out, at, b" ");
    put_number(out, after, n)
}

// ` FIRST SECOND`
fn put_pair(out: &mut [u8], at: usize, first: u32, second: u32) -> usize
    requires { at + 22 ≤ length out.old }
    ensures { Put out.old out.new at result (spaced first ++ spaced second) }
{
    let after = put_spaced(out, at, first);
    put_spaced(out, after, second)
}

// `WORD FIRST SECOND`
fn pair_line(out: &mut [u8], at: usize, word: &[u8], first: u32, second: u32) -> usize
    requires { at + length word.now + 23 ≤ length out.old }
    ensures { Put out.old out.new at result (word.now ++ spaced first ++ spaced second ++ newline) }
{
    let start = put_text(out, at, word);
    let after = put_pair(out, start, first, second);
    put_text(out, after, b"\n")
}

// `stop N OFFSET`
pub fn stop_line(out: &mut [u8], at: usize, refusal: Refusal, offset: u32) -> usize
    requires { at + 27 ≤ length out.old }
    ensures { Put out.old out.new at result (stop_line refusal offset) }
{
    pair_line(out, at, b"stop", u32::from(refusal), offset)
}

// `space OCCUPIED FREE`
pub fn space_line(out: &mut [u8], at: usize, occupied: u32, free: u32) -> usize
    requires { at + 28 ≤ length out.old }
    ensures { Put out.old out.new at result (space_line occupied free) }
{
    pair_line(out, at, b"space", occupied, free)
}

// `refused N`
pub fn refused_line(out: &mut [u8], at: usize, refusal: Refusal) -> usize
    requires { at + 19 ≤ length out.old }
    ensures { Put out.old out.new at result (refused_line refusal) }
{
    let word = put_text(out, at, b"refused");
    let after = put_spaced(out, word, u32::from(refusal));
    put_text(out, after, b"\n")
}

// ` LEFT TOP`, or ` RIGHT BOTTOM`
fn put_corner(out: &mut [u8], at: usize, x: u16, y: u16) -> usize
    requires { at + 22 ≤ length out.old }
    ensures { Put out.old out.new at result (spaced x ++ spaced y) }
{
    put_pair(out, at, x as u32, y as u32)
}

// `alloc ID LEFT TOP RIGHT BOTTOM`
pub fn alloc_line(out: &mut [u8], at: usize, allocation: Allocation) -> usize
    requires { at + 61 ≤ length out.old }
    ensures { Put out.old out.new at result (alloc_line allocation) }
{
    let r = allocation.rectangle;
    let word = put_text(out, at, b"alloc");
    let id = put_spaced(out, word, allocation.id);
    let first = put_corner(out, id, r.left, r.top);
    let second = put_corner(out, first, r.right, r.bottom);
    put_text(out, second, b"\n")
}
