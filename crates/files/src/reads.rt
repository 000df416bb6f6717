// Read: 1 (room only), 16, 17, then 1 for unsound contents. A file is tested where it lies, each bucket as the repair leaves it (T-08); only then
// is a lent record written.
ghost use Rattle.std.specs.Prelude.{◌≡◌, ◌+◌, ◌*◌, ◌≤◌, length};
ghost use Rattle.rules.specs.Limits.{head_bytes, shelf_bytes};
ghost use Rattle.rules.specs.Tables.{atlas};
ghost use Rattle.rules.specs.Builds.{present};
ghost use Rattle.rules.specs.Files.{shelves_stored, buckets_stored, stored, loaded};
ghost use Rattle.rules.specs.Files as rule;
ghost use Rattle.inspect.specs.Inspected.{Known, BucketsAt};

use rules::{BUCKET_BYTES, FILE_VERSION, HEAD_BYTES, Head, Refusal, SHELF_BYTES};

#[tactic(auto, unfolding(rules::specs::Files::shelves_stored))]
fn store_shelves(file: &[u8], shelves: &mut [u16], count: usize)
    requires { (head_bytes + shelf_bytes * count ≤ length file.now) × (5 * count ≤ length shelves.old) }
    ensures { shelves.new ≡ shelves_stored count file.now shelves.old }
{
    for i in 0..count {
        let shelf = filed::shelf_from(file, HEAD_BYTES + SHELF_BYTES * i);
        records::put_shelf(shelves, i, shelf);
    }
}

// The bucket records start at `from`, after the shelves'.
#[tactic(auto, unfolding(rules::specs::Files::buckets_stored))]
fn store_buckets(file: &[u8], from: usize, buckets: &mut [u16], count: usize)
    requires { BucketsAt file.now from count × (7 * count ≤ length buckets.old) }
    ensures { buckets.new ≡ buckets_stored present count file.now buckets.old }
{
    for i in 0..count {
        let bucket = filed::bucket_read(file, from + BUCKET_BYTES * i);
        records::put_bucket(buckets, i, bucket);
    }
}

// The records of both tables, as many as the file's header counts.
#[tactic(auto, unfolding(rules::specs::Files::stored))]
fn store(file: &[u8], head: Head, shelves: &mut [u16], buckets: &mut [u16])
    requires { Known file.now head
        × ((5 * head.shelf_count ≤ length shelves.old) × (7 * head.bucket_count ≤ length buckets.old)) }
    ensures { atlas head shelves.new buckets.new ≡ stored present file.now shelves.old buckets.old }
{
    let from = HEAD_BYTES + SHELF_BYTES * head.shelf_count as usize;
    store_shelves(file, shelves, head.shelf_count as usize);
    store_buckets(file, from, buckets, head.bucket_count as usize);
}

pub fn read(file: &[u8], shelves: &mut [u16], buckets: &mut [u16]) -> Result<Head, Refusal>
    ensures { loaded result shelves.new buckets.new ≡ rule.read file.now shelves.old buckets.old }
{
    if !sound::is_lent(shelves, buckets) {
        return Err(Refusal::Tables);
    }
    if !filed::is_file(file) {
        return Err(Refusal::Broken);
    }
    if filed::version_in(file) != FILE_VERSION {
        return Err(Refusal::Version);
    }
    let head = filed::head_in(file);
    if !inspect::is_sound(file, head) {
        return Err(Refusal::Tables);
    }
    store(file, head, shelves, buckets);
    Ok(head)
}
