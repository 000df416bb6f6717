// The records of the two tables, one after another: "17 one shelf, 18 one bucket, .. each table in index order".
ghost use Rattle.std.specs.Prelude.{◌≡◌, ◌+◌, ◌*◌, ◌≤◌, ℕ, List, length};
ghost use Rattle.std.proofs.lemmas.List.Edits.{sets};
ghost use Rattle.rules.specs.Limits.{shelf_bytes, bucket_bytes};
ghost use Rattle.rules.specs.Tables.{shelf_at, bucket_at};
ghost use Rattle.rules.specs.Files.{shelf_record, bucket_record, in_order};
ghost use Rattle.laws.proofs.Files.Layout.{length_shelf, length_bucket};

use crate::put_words;
use rules::{BUCKET_BYTES, Bucket, SHELF_BYTES, Shelf};

// A record of a lent table: as many numbers of the table, as many bytes of a file.
pub(crate) trait Row: Sized {
    ghost NUMBERS: { ℕ };

    ghost BYTES: { ℕ };

    ghost row_at: { List ℕ → ℕ → Self };

    ghost bytes: { Self → List ℕ };

    const BYTES: usize;

    fn read(table: &[u16], i: usize) -> Self
        requires { NUMBERS * i + NUMBERS ≤ length table.now }
        ensures { result ≡ row_at table.now i };

    fn put(self, out: &mut [u8], at: usize)
        requires { at + BYTES ≤ length out.old }
        ensures { out.new ≡ sets out.old at (bytes self) };

    ghost long: { (row : Self) → length (bytes row) ≡ BYTES };
}

impl Row for Shelf {
    ghost NUMBERS = { 5 };

    ghost BYTES = { shelf_bytes };

    ghost row_at = { shelf_at };

    ghost bytes = { shelf_record };

    const BYTES: usize = SHELF_BYTES;

    fn read(table: &[u16], i: usize) -> Shelf {
        records::shelf_at(table, i)
    }

    #[tactic(auto, unfolding(rules::specs::Files::shelf_record))]
    fn put(self, out: &mut [u8], at: usize) {
        let numbers = [12, 17, self.x, self.y, self.height, self.width, self.first];
        put_words(out, at, &numbers);
    }

    ghost long = { length_shelf };
}

impl Row for Bucket {
    ghost NUMBERS = { 7 };

    ghost BYTES = { bucket_bytes };

    ghost row_at = { bucket_at };

    ghost bytes = { bucket_record };

    const BYTES: usize = BUCKET_BYTES;

    fn read(table: &[u16], i: usize) -> Bucket {
        records::bucket_at(table, i)
    }

    #[tactic(auto, unfolding(rules::specs::Files::bucket_record))]
    fn put(self, out: &mut [u8], at: usize) {
        let numbers = [
            16,
            18,
            self.x,
            self.free,
            self.next,
            self.refs,
            self.items,
            self.shelf,
            self.generation,
        ];
        put_words(out, at, &numbers);
    }

    ghost long = { length_bucket };
}

// The first `count` records of a table, from a place on.
pub(crate) fn put_rows<R: Row>(out: &mut [u8], at: usize, table: &[u16], count: usize)
    requires { (at + R.BYTES * count ≤ length out.old) × (R.NUMBERS * count ≤ length table.now) }
    ensures { out.new ≡ sets out.old at (in_order count (λ i. R.bytes (R.row_at table.now i))) }
{
    for i in 0..count {
        R::read(table, i).put(out, at + R::BYTES * i);
    }
}
