// A number after a text, and the lines of a picture.
ghost use Rattle.std.specs.Prelude.{◌≡◌, ◌++◌, ◌+◌, ◌≤◌, length};
ghost use Rattle.rules.specs.Limits.{picture_most};
ghost use Rattle.rules.specs.Text.{decimal};
ghost use Rattle.rules.specs.Picture.{fill, rect_line, first_line};
ghost use Rattle.lines.specs.Put.{Put};

use lines::{put_number, put_text};
use rules::{Drawn, Head, Paint};

// A text, and a number after it.
fn put_field(out: &mut [u8], at: usize, text: &[u8], n: u16) -> usize
    requires { at + length (text.now ++ decimal n) ≤ picture_most }
    ensures { Put out.old out.new at result (text.now ++ decimal n) }
{
    let end = put_text(out, at, text);
    put_number(out, end, n as u32)
}

// The end of a rectangle's line, by what it shows.
fn put_fill(out: &mut [u8], at: usize, paint: Paint) -> usize
    requires { at + length (fill paint) ≤ picture_most }
    ensures { Put out.old out.new at result (fill paint) }
{
    match paint {
        Paint::Ground => put_text(out, at, b"\" fill=\"#282828\"/>\n"),
        Paint::Used => put_text(out, at, b"\" fill=\"#4646b4\"/>\n"),
        Paint::Free => put_text(out, at, b"\" fill=\"#323232\"/>\n"),
    }
}

// `<rect x="X" y="Y" width="W" height="H" fill="COLOUR"/>`
pub fn put_rect(out: &mut [u8], at: usize, drawn: Drawn) -> usize
    requires { at + length (rect_line drawn) ≤ picture_most }
    ensures { Put out.old out.new at result (rect_line drawn) }
{
    let x = put_field(out, at, b"<rect x=\"", drawn.x);
    let y = put_field(out, x, b"\" y=\"", drawn.y);
    let width = put_field(out, y, b"\" width=\"", drawn.width);
    let height = put_field(out, width, b"\" height=\"", drawn.height);
    let paint = drawn.paint;
    put_fill(out, height, paint)
}

// `<svg xmlns="http://www.w3.org/2000/svg" viewBox="0 0 W H">`
pub fn put_first(out: &mut [u8], at: usize, head: Head) -> usize
    requires { at + length (first_line head) ≤ picture_most }
    ensures { Put out.old out.new at result (first_line head) }
{
    let width = put_field(
        out,
        at,
        b"<svg xmlns=\"http://www.w3.org/2000/svg\" viewBox=\"0 0 ",
        head.width,
    );
    let height = put_field(out, width, b" ", head.height);
    put_text(out, height, b"\">\n")
}
