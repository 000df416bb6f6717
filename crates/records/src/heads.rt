// The header's columns, for what more than one module asks of them.
ghost use Rattle.std.specs.Prelude.{◌≡◌};
ghost use Rattle.rules.specs.NewShelf.{another_column};

use rules::Head;

// "another column exists". The sum is taken in 32 bits, where it fits whatever the header holds.
#[tactic(auto, unfolding(rules::specs::NewShelf::another_column))]
pub fn another_column(head: Head) -> bool
    ensures { result ≡ another_column head }
{
    head.column as u32 + 1 < head.columns as u32
}
