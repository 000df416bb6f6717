// A file's bytes as the tables test reads them, each bucket as the repair leaves it (T-08).
ghost use Rattle.rules.specs.Files.{head_in};
ghost use Rattle.inspect.specs.Inspected.{shelves_of, buckets_of, HasShelf, HasBucket};

use rules::{BUCKET_BYTES, Bucket, HEAD_BYTES, SHELF_BYTES, Shelf};
use walks::Records;

// The bucket records start at `from`.
#[derive(Clone, Copy)]
pub(crate) struct File<'a> {
    pub(crate) bytes: &'a [u8],
    pub(crate) from: usize,
}

impl Records for File<'_> {
    ghost shelves = { λ f. shelves_of (head_in f.bytes.now).shelf_count f.bytes.now };

    ghost buckets = { λ f. buckets_of (head_in f.bytes.now).bucket_count f.bytes.now };

    ghost has_shelf = { λ f. HasShelf f.bytes.now };

    ghost has_bucket = { λ f. HasBucket f.bytes.now f.from };

    fn shelf(&self, i: usize) -> Shelf {
        filed::shelf_from(self.bytes, HEAD_BYTES + SHELF_BYTES * i)
    }

    fn bucket(&self, i: usize) -> Bucket {
        filed::bucket_read(self.bytes, self.from + BUCKET_BYTES * i)
    }
}
