// An atlas as the bytes of a file, from the start of a lent buffer on: the header, the shelves and the buckets in use, the end. What is
// after them in the buffer stays. Save is the whole write but the tests of what is lent.
#![tactic(auto)]

mod rows; // rows.rt: the records of the tables
mod saving; // saving.rt: a write past the tests

ghost use Rattle.std.specs.Prelude.{◌≡◌, ◌+◌, ◌*◌, ◌≤◌, length};
ghost use Rattle.std.proofs.lemmas.List.Edits.{sets};
ghost use Rattle.rules.specs.Limits.{head_bytes};
ghost use Rattle.rules.specs.Tables.{atlas};
ghost use Rattle.rules.specs.Builds.{present, version_of};
ghost use Rattle.rules.specs.Files.{words, head_record, file_of, bucket_place};

use rows::put_rows;
use rules::{BUCKET_BYTES, Bucket, FILE_VERSION, HEAD_BYTES, Head, SHELF_BYTES, Shelf};
pub use saving::save;

// Numbers of 16 bits, little-endian, from a place on. Buffer and place are no struct, for the reason given in `lines`.
fn put_words(out: &mut [u8], at: usize, numbers: &[u16])
    requires { at + 2 * length numbers.now ≤ length out.old }
    ensures { out.new ≡ sets out.old at (words numbers.now) }
{
    for (i, number) in numbers.iter().enumerate() {
        let place = at + 2 * i;
        out[place..place + 2].copy_from_slice(&number.to_le_bytes());
    }
}

fn put_head(out: &mut [u8], head: Head)
    requires { head_bytes ≤ length out.old }
    ensures { out.new ≡ sets out.old 0 (head_record (version_of present) head) }
{
    let numbers = [
        31,
        16,
        FILE_VERSION,
        head.width,
        head.height,
        head.align_width,
        head.align_height,
        head.columns,
        head.column_width,
        head.column,
        head.room,
        head.shelf_count,
        head.bucket_count,
        head.released,
    ];
    put_words(out, 0, &numbers);
    out[28] = 0;
    out[29..33].copy_from_slice(&head.occupied.to_le_bytes());
}

// How many bytes the file of a header's atlas takes.
fn length_of(head: Head) -> usize
    ensures { result ≡ bucket_place head.shelf_count head.bucket_count + 4 }
{
    HEAD_BYTES
        + SHELF_BYTES * head.shelf_count as usize
        + BUCKET_BYTES * head.bucket_count as usize
        + 4
}

// The whole file.
fn put_file(out: &mut [u8], head: Head, shelves: &[u16], buckets: &[u16])
    requires { (bucket_place head.shelf_count head.bucket_count + 4 ≤ length out.old)
        × ((5 * head.shelf_count ≤ length shelves.now) × (7 * head.bucket_count ≤ length buckets.now)) }
    ensures { out.new
        ≡ sets out.old 0 (file_of present (atlas head shelves.now buckets.now)) }
{
    let from = HEAD_BYTES + SHELF_BYTES * head.shelf_count as usize;
    let end = from + BUCKET_BYTES * head.bucket_count as usize;
    put_head(out, head);
    put_rows::<Shelf>(out, HEAD_BYTES, shelves, head.shelf_count as usize);
    put_rows::<Bucket>(out, from, buckets, head.bucket_count as usize);
    let last = [2, 19];
    put_words(out, end, &last);
}
