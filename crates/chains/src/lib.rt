// Walks along one chain of buckets, from its first to 65,535: whether a bucket of it is referenced, which is its last, and putting it in
// front of the released chain.
#![tactic(auto)]

ghost use Rattle.std.specs.Prelude.{◌≡◌};
ghost use Rattle.rules.specs.Chains.{chain, last_of};
ghost use Rattle.rules.specs.Merging.{unreferenced};
ghost use Rattle.rules.specs.Return.{released_table};
ghost use Rattle.chains.specs.Walk.{Walkable, SomeChain};

use rules::{Bucket, NONE};

// No bucket of the chain is referenced. Nothing is read past the first one that is.
pub fn is_unreferenced(buckets: &[u16], first: u16) -> bool
    requires { Walkable buckets.now first }
    ensures { result ≡ unreferenced buckets.now (chain buckets.now first) }
{
    let mut k = first;
    while k != NONE {
        let bucket = records::bucket_at(buckets, k as usize);
        if bucket.refs != 0 {
            return false;
        }
        k = bucket.next;
    }
    true
}

// The last bucket of the chain.
fn last_of(buckets: &[u16], first: u16) -> u16
    requires { Walkable buckets.now first }
    ensures { result ≡ last_of first (chain buckets.now first) }
{
    let mut last = first;
    let mut k = first;
    while k != NONE {
        last = k;
        let bucket = records::bucket_at(buckets, k as usize);
        k = bucket.next;
    }
    last
}

// The chain, of one bucket at least, goes in front of the one that starts at `released`.
#[tactic(auto, using(crate::proofs::Laws::last_room), unfolding(rules::specs::Return::released_table))]
pub fn release(buckets: &mut [u16], first: u16, released: u16)
    requires { SomeChain buckets.old first }
    ensures { buckets.new ≡ released_table buckets.old first released }
{
    let last = last_of(buckets, first);
    let bucket = records::bucket_at(buckets, last as usize);
    let linked = Bucket {
        next: released,
        ..bucket
    };
    records::put_bucket(buckets, last as usize, linked);
}
