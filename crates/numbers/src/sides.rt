// The sides and options of a call are signed; here a signed number becomes a natural one, and nowhere else is a sign looked at.
ghost use Rattle.std.specs.Prelude.{◌≡◌};
ghost use Rattle.rules.specs.Calls.{natural as Calls·natural};
ghost use Rattle.rules.specs.Trace.{signed as Trace·signed};

// A negative number counts as 0: no rule takes either.
#[tactic(auto, unfolding(rules::specs::Calls::natural))]
pub fn natural(v: i32) -> u32
    ensures { result ≡ Calls·natural v }
{
    u32::try_from(v).unwrap_or(0)
}

// The signed number of the same bits, as a trace holds it.
#[tactic(auto, unfolding(rules::specs::Trace::signed))]
pub fn signed(n: u32) -> i32
    ensures { result ≡ Trace·signed n }
{
    n.cast_signed()
}
