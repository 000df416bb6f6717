// The text from standard input.
ghost use Rattle.std.specs.Prelude.{◌≤◌, length};

use std::io::Read;

// Reads until `text` is full, the input ends or a read fails, and answers how many bytes are at its start.
pub fn read_full(input: &mut impl Read, text: &mut [u8]) -> usize
    ensures { result ≤ length text.new }
{
    let mut done = 0;
    while done < text.len() {
        let Ok(n) = input.read(&mut text[done..]) else {
            break;
        };
        if n == 0 {
            break;
        }
        done += n;
    }
    done
}
