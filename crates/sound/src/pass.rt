// The pass over the shelves, each record read once and followed by its chain.
ghost use Rattle.std.specs.Prelude.{MatchOption};
ghost use Rattle.rules.specs.Tables.{atlas};
ghost use Rattle.rules.specs.Sound.{Sound};
ghost use Rattle.sound.specs.Pass.{Readable, Unmarked, Passed};

use rules::Head;
use standing::Pass;
use walks::Records;

pub(crate) fn walk_shelves<R: Records + Copy>(
    head: Head,
    records: R,
    marks: &mut [u8],
) -> Option<Pass>
    requires { Readable (atlas head (R.shelves records) (R.buckets records)) (R.has_shelf records) (R.has_bucket records)
        × Unmarked head.bucket_count marks.old }
    ensures { MatchOption result
        (Sound (atlas head (R.shelves records) (R.buckets records)) → ⊥)
        (Passed (atlas head (R.shelves records) (R.buckets records)) head.shelf_count marks.new) }
{
    let mut pass = Pass::default();
    for i in 0..head.shelf_count {
        let shelf = records.shelf(i as usize);
        if !standing::is_shelf(head, pass.row, shelf) {
            return None;
        }
        let tally = walks::walk_shelf(
            records,
            head.bucket_count as usize,
            i,
            shelf,
            shelf.x as u32 + head.column_width as u32,
            marks,
            pass.tally,
        )?;
        pass = Pass {
            row: standing::row_after(head, pass.row, shelf),
            before: pass.tally.pixels,
            tally,
        };
    }
    Some(pass)
}
