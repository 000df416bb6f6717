// What the calls share: the test of a side.
ghost use Rattle.std.specs.Prelude.{◌≡◌, ◌||◌};
ghost use Rattle.rules.specs.Limits.{side_most};
ghost use Rattle.rules.specs.Calls as calls;

use rules::SIDE_MOST;

// outside 1 to `most`
pub(crate) fn outside(n: u32, most: u16) -> bool
    ensures { result ≡ calls.outside n most }
{
    n == 0 || (most as u32) < n
}

pub(crate) fn sides_bad(width: u32, height: u32) -> bool
    ensures { result ≡ (calls.outside width side_most || calls.outside height side_most) }
{
    outside(width, SIDE_MOST) || outside(height, SIDE_MOST)
}
