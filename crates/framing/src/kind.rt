// "Kinds and lengths": what a record calls, by its number.
ghost use Rattle.std.specs.Prelude.{◌≡◌};
ghost use Rattle.rules.specs.Trace.{length_of};
ghost use Rattle.framing.specs.Kinds.{number_of, Read};

use rules::Refusal;

#[derive(Clone, Copy, PartialEq, Eq)]
pub enum RecordKind {
    New,
    Allocate,
    Deallocate,
    Clear,
    Grow,
    Report,
}

impl RecordKind {
    // The bytes of a record after its length.
    #[tactic(auto, unfolding(rules::specs::Trace::length_of))]
    pub fn length(self) -> u16
        ensures { result ≡ length_of (number_of self) }
    {
        match self {
            RecordKind::New => 23,
            RecordKind::Allocate => 10,
            RecordKind::Deallocate => 6,
            RecordKind::Clear => 2,
            RecordKind::Grow => 10,
            RecordKind::Report => 2,
        }
    }
}

// "an unknown kind" is 14.
impl TryFrom<u16> for RecordKind {
    type Error = Refusal;

    ghost try_from_gives = { Read };

    #[tactic(auto, unfolding(rules::specs::Trace::length_of))]
    fn try_from(number: u16) -> Result<Self, Refusal> {
        match number {
            1 => Ok(RecordKind::New),
            2 => Ok(RecordKind::Allocate),
            3 => Ok(RecordKind::Deallocate),
            4 => Ok(RecordKind::Clear),
            5 => Ok(RecordKind::Grow),
            6 => Ok(RecordKind::Report),
            _ => Err(Refusal::Malformed),
        }
    }
}
