// Where the tables test reads: lent tables, or the bytes of a file.
ghost use Rattle.std.specs.Prelude.{◌≡◌, ℕ, List};
ghost use Rattle.rules.specs.Tables.{bucket_at, shelf_at};

use rules::{Bucket, Shelf};

// Clauses see both as two tables. Each says which of its records can be read.
pub trait Records {
    ghost shelves: { Self → List ℕ };

    ghost buckets: { Self → List ℕ };

    ghost has_shelf: { Self → ℕ → Type 0 };

    ghost has_bucket: { Self → ℕ → Type 0 };

    fn shelf(&self, i: usize) -> Shelf
        requires { has_shelf self.now i }
        ensures { result ≡ shelf_at (shelves self.now) i };

    fn bucket(&self, i: usize) -> Bucket
        requires { has_bucket self.now i }
        ensures { result ≡ bucket_at (buckets self.now) i };
}
