// The script of a program that only runs: a text of lines, read from standard input, and the lines that the program answers. A line is a
// label, a colon, a word and the word's numbers. The label is written out as it stands, the word is known by its first letter. A line
// with no colon is written out whole, and its word and numbers are read too. A line that begins with # is passed over.
#![tactic(auto)]

ghost use Rattle.std.specs.Prelude.{◌<◌, length};

mod given; // given.rt: the text from standard input
mod line; // line.rt: the bytes of a line, one by one
mod print; // print.rt: what the answers are made of

pub use given::read_full;
use line::Reading;
pub use print::{answer, end, number, word};

// A line's word and how many numbers it has, and where the next line begins. The numbers are no slice of as many: past them stand those of the lines before,
// and what a program answers to a short line is by these.
#[derive(Clone, Copy)]
pub struct Parsed {
    pub verb: u8,
    pub count: usize,
    pub next: usize,
}

// Reads the line that begins at `from`, and writes its label.
pub fn read(rt: &impl Print, text: &[u8], from: usize, numbers: &mut [u32; 32]) -> Parsed
    requires { from < length text.now }
    ensures { from < result.next }
{
    let rest = &text[from..];
    let length = rest
        .iter()
        .position(|byte| *byte == b'\n')
        .unwrap_or(rest.len());
    let mut line = Reading::begun();
    for byte in &rest[..length] {
        line = line.fed(rt, *byte, numbers);
    }
    line = line.fed(rt, b'\n', numbers);
    Parsed {
        verb: line.verb,
        count: line.count,
        next: from + length + 1,
    }
}

// A number of a line as an index.
pub fn index(n: u32) -> usize {
    n as usize
}
