// The two lent tables as the test reads them.
ghost use Rattle.std.specs.Prelude.{◌+◌, ◌*◌, ◌≤◌, length};

use crate::reading::Records;
use rules::{Bucket, Shelf};

#[derive(Clone, Copy)]
pub struct Tables<'a> {
    pub shelves: &'a [u16],
    pub buckets: &'a [u16],
}

impl Records for Tables<'_> {
    ghost shelves = { λ t. t.shelves.now };

    ghost buckets = { λ t. t.buckets.now };

    ghost has_shelf = { λ t i. 5 * i + 5 ≤ length t.shelves.now };

    ghost has_bucket = { λ t i. 7 * i + 7 ≤ length t.buckets.now };

    fn shelf(&self, i: usize) -> Shelf {
        records::shelf_at(self.shelves, i)
    }

    fn bucket(&self, i: usize) -> Bucket {
        records::bucket_at(self.buckets, i)
    }
}
