// The tables test on a file: `sound`'s, over the records in the file's bytes, so that nothing is stored before the answer is known.
#![tactic(auto)]

mod file; // file.rt: a file's bytes as the test reads them

ghost use Rattle.std.specs.Prelude.{◌≡◌, List, ℕ};
ghost use Rattle.rules.specs.Builds.{present};
ghost use Rattle.rules.specs.Sound.{Lent, is_sound};
ghost use Rattle.rules.specs.Files.{stored};
ghost use Rattle.inspect.specs.Inspected.{Known};

use file::File;
use rules::{HEAD_BYTES, Head, SHELF_BYTES};

// The atlas in the file is sound, whatever tables it is to be stored in.
pub fn is_sound(file: &[u8], head: Head) -> bool
    requires { Known file.now head }
    ensures { (s b : List ℕ) → Lent s b → result ≡ is_sound (stored present file.now s b) }
{
    let from = HEAD_BYTES + SHELF_BYTES * head.shelf_count as usize;
    standing::is_head(head) && sound::are_sound(head, File { bytes: file, from })
}
