// A trace as bytes: the numbers in it, the kinds of its records, and what came of a record.
#![tactic(auto)]

mod kind; // kind.rt: what a record calls

ghost use Rattle.std.specs.Prelude.{◌≡◌, ◌+◌, ◌≤◌, length};
ghost use Rattle.rules.specs.Trace.{u16_at, u32_at, i32_at, misframed};
ghost use Rattle.rules.specs.Chunks.{unfinished};

pub use kind::RecordKind;
use rules::OFFSET_MOST;

// "all little-endian"
pub fn u16_at(bytes: &[u8], i: usize) -> u16
    requires { i + 2 ≤ length bytes.now }
    ensures { result ≡ u16_at bytes.now i }
{
    u16::from_le_bytes([bytes[i], bytes[i + 1]])
}

pub fn u32_at(bytes: &[u8], i: usize) -> u32
    requires { i + 4 ≤ length bytes.now }
    ensures { result ≡ u32_at bytes.now i }
{
    u32::from_le_bytes([bytes[i], bytes[i + 1], bytes[i + 2], bytes[i + 3]])
}

pub fn i32_at(bytes: &[u8], i: usize) -> i32
    requires { i + 4 ≤ length bytes.now }
    ensures { result ≡ i32_at bytes.now i }
{
    numbers::signed(u32_at(bytes, i))
}

// "an unknown kind, a wrong length", and T-05: "Offsets count to 4,294,967,295; a record that would end past that is 14".
#[tactic(auto, using(crate::proofs::Numbers::known), unfolding(rules::specs::Trace::misframed))]
pub fn is_misframed(left: &[u8], offset: u32) -> bool
    requires { 4 ≤ length left.now }
    ensures { result ≡ misframed offset left.now }
{
    let length = u16_at(left, 0);
    let Ok(kind) = RecordKind::try_from(u16_at(left, 2)) else {
        return true;
    };
    length != kind.length() || OFFSET_MOST - offset < 2 + length as u32
}

// What came of a record is not the whole of it, and may still become one: four bytes say whether it is a record, and its length where it ends.
#[tactic(auto, unfolding(rules::specs::Chunks::unfinished))]
pub fn is_unfinished(left: &[u8], offset: u32) -> bool
    ensures { result ≡ unfinished offset left.now }
{
    left.len() < 4 || (!is_misframed(left, offset) && left.len() < 2 + u16_at(left, 0) as usize)
}
