// The first n elements are the list's entries: one is found by its id, one goes in, one goes out. What stands past them stays.
ghost use Rattle.std.specs.Prelude.{◌≡◌, ◌≤◌, ◌<◌, length, take};
ghost use Rattle.rules.specs.Held.{blank, added, removed, place_of};

use crate::form::Entry;
use rules::Allocation;

// The place of the first entry with the id, or n.
pub fn find<T: Entry>(list: &[T], n: usize, id: u32) -> usize
    requires { n ≤ length list.now }
    ensures { result ≡ place_of id (take n (T.entries list.now)) }
{
    list[..n]
        .iter()
        .position(|held| held.entry().id == id)
        .unwrap_or(n)
}

// The entry goes in at place i: those from there on move up by one.
pub fn add<T: Entry>(list: &mut [T], n: usize, i: usize, entry: Allocation)
    requires { (i ≤ n) × (n < length list.old) }
    ensures { T.entries list.new ≡ added n i entry (T.entries list.old) }
{
    list.copy_within(i..n, i + 1);
    list[i] = T::of(entry);
}

// The entry at place i goes out: those after it move down by one.
pub fn remove<T: Entry>(list: &mut [T], n: usize, i: usize)
    requires { (i < n) × (n ≤ length list.old) }
    ensures { T.entries list.new ≡ removed blank n i (T.entries list.old) }
{
    list.copy_within(i + 1..n, i);
}
