// What is held over, and the chunk behind it, as bytes in a row.
ghost use Rattle.std.specs.Prelude.{◌≡◌, ◌⊎◌, ◌+◌, ◌≤◌, ◌<◌, length, take, drop, get_or};
ghost use Rattle.rules.specs.Limits.{held_most};
ghost use Rattle.lines.specs.Put.{Put};
ghost use Rattle.trace.specs.Chunk.{all_of};

use rules::Pause;

// The bytes from a place on, as many as there is room for.
pub fn gather(pause: Pause, chunk: &[u8], from: usize, into: &mut [u8]) -> usize
    requires { (pause.count ≤ held_most) × (from ≤ pause.count + length chunk.now) }
    ensures { Put into.old into.new 0 result
        (take (length into.old) (drop from (all_of pause chunk.now))) }
{
    let count = pause.count;
    let held = lines::put_text(into, 0, &pause.held[from.min(count)..count]);
    let end = lines::put_text(into, held, &chunk[from.saturating_sub(count)..]);
    into.len().min(end)
}
