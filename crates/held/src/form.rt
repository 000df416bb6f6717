// An entry of the list in the form in which its caller lends it: the struct that document 01 names, or a row of six numbers of 16 bits.
ghost use Rattle.std.specs.Prelude.{◌≡◌, List, map, refl};
ghost use Rattle.std.proofs.Common.{sym};
ghost use Rattle.std.proofs.lemmas.List.{map-id};
ghost use Rattle.rules.specs.declared.Allocation.{Allocation};
ghost use Rattle.held.specs.Rows.{entry_of, row_of, entries_of};

use rules::{Allocation, Rectangle};

pub trait Entry: Copy {
    // the entry that an element of the list is
    ghost entry: { Self → Allocation };

    // the entries that a list is
    ghost entries: { List Self → List Allocation };

    fn entry(self) -> Allocation
        ensures { result ≡ entry self };

    fn of(held: Allocation) -> Self
        ensures { entry result ≡ held };

    // an entry for each element
    ghost each: { (list : List Self) → entries list ≡ map entry list };
}

impl Entry for Allocation {
    ghost entry = { λ held. held };

    ghost entries = { λ list. list };

    ghost each = { λ list. sym (map-id list) };

    fn entry(self) -> Allocation {
        self
    }

    fn of(held: Allocation) -> Allocation {
        held
    }
}

// The id's low and high half, then the rectangle's left, top, right and bottom.
impl Entry for [u16; 6] {
    ghost entry = { entry_of };

    ghost entries = { entries_of };

    ghost each = { λ list. refl };

    fn entry(self) -> Allocation {
        let [low, high, left, top, right, bottom] = self;
        Allocation {
            id: low as u32 + 65536 * high as u32,
            rectangle: Rectangle {
                left,
                top,
                right,
                bottom,
            },
        }
    }

    fn of(held: Allocation) -> [u16; 6]
        ensures row { result ≡ row_of held }
        ensures same { entry_of result ≡ held }
    {
        let Rectangle {
            left,
            top,
            right,
            bottom,
        } = held.rectangle;
        [
            (held.id % 65536) as u16,
            (held.id / 65536) as u16,
            left,
            top,
            right,
            bottom,
        ]
    }
}
