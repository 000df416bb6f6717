// What stands in a file's bytes: its version and header, the shelf or bucket whose record starts at a place, and whether the bytes are a
// file at all. docs/FILES.md has the places.
#![tactic(auto)]

ghost use Rattle.std.specs.Prelude.{◌≡◌, ◌&&◌, ◌+◌, ◌*◌, ◌≤◌, length};
ghost use Rattle.rules.specs.Limits.{head_bytes, shelf_bytes, bucket_bytes};
ghost use Rattle.rules.specs.Sound.{all_to};
ghost use Rattle.rules.specs.Builds.{present};
ghost use Rattle.rules.specs.Repair.{risen, repaired, read_as};
ghost use Rattle.rules.specs.Files.{shelf_place, bucket_place, version_in, head_in, shelf_from, bucket_from, is_framed, is_file};

use rules::{BUCKET_BYTES, Bucket, HEAD_BYTES, Head, SHELF_BYTES, Shelf};

#[tactic(auto, unfolding(rules::specs::Files::version_in))]
pub fn version_in(file: &[u8]) -> u16
    requires { head_bytes ≤ length file.now }
    ensures { result ≡ version_in file.now }
{
    framing::u16_at(file, 4)
}

#[tactic(auto, unfolding(rules::specs::Files::head_in))]
pub fn head_in(file: &[u8]) -> Head
    requires { head_bytes ≤ length file.now }
    ensures { result ≡ head_in file.now }
{
    Head {
        width: framing::u16_at(file, 6),
        height: framing::u16_at(file, 8),
        align_width: framing::u16_at(file, 10),
        align_height: framing::u16_at(file, 12),
        columns: framing::u16_at(file, 14),
        column_width: framing::u16_at(file, 16),
        column: framing::u16_at(file, 18),
        room: framing::u16_at(file, 20),
        shelf_count: framing::u16_at(file, 22),
        bucket_count: framing::u16_at(file, 24),
        released: framing::u16_at(file, 26),
        occupied: framing::u32_at(file, 29),
    }
}

#[tactic(auto, unfolding(rules::specs::Files::shelf_from))]
pub fn shelf_from(file: &[u8], at: usize) -> Shelf
    requires { at + shelf_bytes ≤ length file.now }
    ensures { result ≡ shelf_from file.now at }
{
    Shelf {
        x: framing::u16_at(file, at + 4),
        y: framing::u16_at(file, at + 6),
        height: framing::u16_at(file, at + 8),
        width: framing::u16_at(file, at + 10),
        first: framing::u16_at(file, at + 12),
    }
}

#[tactic(auto, unfolding(rules::specs::Files::bucket_from))]
fn bucket_from(file: &[u8], at: usize) -> Bucket
    requires { at + bucket_bytes ≤ length file.now }
    ensures { result ≡ bucket_from file.now at }
{
    Bucket {
        x: framing::u16_at(file, at + 4),
        free: framing::u16_at(file, at + 6),
        next: framing::u16_at(file, at + 8),
        refs: framing::u16_at(file, at + 10),
        items: framing::u16_at(file, at + 12),
        shelf: framing::u16_at(file, at + 14),
        generation: framing::u16_at(file, at + 16),
    }
}

// One up, wrapping; a number that is no generation stays none.
#[tactic(auto, unfolding(rules::specs::Repair::risen))]
fn risen(generation: u16) -> u16
    ensures { result ≡ risen generation }
{
    if generation > 255 {
        return generation;
    }
    numbers::next_generation(generation)
}

// T-08: "that repair made to each unreferenced bucket: item count 0 and generation one up, where the count was not 0"
fn repaired(bucket: Bucket) -> Bucket
    ensures { result ≡ repaired bucket }
{
    if bucket.refs != 0 || bucket.items == 0 {
        return bucket;
    }
    Bucket {
        items: 0,
        generation: risen(bucket.generation),
        ..bucket
    }
}

// The bucket whose record starts at a place, as this build reads it.
pub fn bucket_read(file: &[u8], at: usize) -> Bucket
    requires { at + bucket_bytes ≤ length file.now }
    ensures { result ≡ read_as present (bucket_from file.now at) }
{
    repaired(bucket_from(file, at))
}

// A kind of record: its length without the two bytes that say it, and its number.
#[derive(Clone, Copy)]
struct Framing {
    size: u16,
    number: u16,
}

const HEADER: Framing = Framing {
    size: 31,
    number: 16,
};

const SHELF: Framing = Framing {
    size: 12,
    number: 17,
};

const BUCKET: Framing = Framing {
    size: 16,
    number: 18,
};

const END: Framing = Framing {
    size: 2,
    number: 19,
};

// A record of that kind starts at a place.
fn is_framed(file: &[u8], at: usize, kind: Framing) -> bool
    requires { at + 4 ≤ length file.now }
    ensures { result ≡ is_framed file.now at kind.size kind.number }
{
    framing::u16_at(file, at) == kind.size && framing::u16_at(file, at + 2) == kind.number
}

// So many of them, one after another.
fn are_framed(file: &[u8], at: usize, count: usize, kind: Framing) -> bool
    requires { (at + (kind.size + 2) * count ≤ length file.now) × (2 ≤ kind.size) }
    ensures { result ≡ all_to count (λ i. is_framed file.now (at + (kind.size + 2) * i) kind.size kind.number) }
{
    let bytes = kind.size as usize + 2;
    for i in 0..count {
        if !is_framed(file, at + bytes * i, kind) {
            return false;
        }
    }
    true
}

// So many shelves after the header, then so many buckets, then the end.
fn are_records(file: &[u8], shelves: usize, buckets: usize) -> bool
    requires { bucket_place shelves buckets + 4 ≤ length file.now }
    ensures { result
        ≡ (all_to shelves (λ i. is_framed file.now (shelf_place i) 12 17)
        && all_to buckets (λ i. is_framed file.now (bucket_place shelves i) 16 18)
        && is_framed file.now (bucket_place shelves buckets) 2 19) }
{
    let from = HEAD_BYTES + SHELF_BYTES * shelves;
    are_framed(file, HEAD_BYTES, shelves, SHELF)
        && are_framed(file, from, buckets, BUCKET)
        && is_framed(file, from + BUCKET_BYTES * buckets, END)
}

// "malformed or cut" is no file. The header's counts tell how long the bytes must be, and with it where each record starts.
pub fn is_file(file: &[u8]) -> bool
    ensures { result ≡ is_file file.now }
{
    if file.len() < HEAD_BYTES + 4 {
        return false;
    }
    let shelves = framing::u16_at(file, 22) as usize;
    let buckets = framing::u16_at(file, 24) as usize;
    if file.len() != HEAD_BYTES + SHELF_BYTES * shelves + BUCKET_BYTES * buckets + 4 {
        return false;
    }
    if !is_framed(file, 0, HEADER) {
        return false;
    }
    file[28] == 0 && are_records(file, shelves, buckets)
}
