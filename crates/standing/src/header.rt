// What is asked of the lent room, and of the header by itself: its domain, and the columns' fit in the width.
ghost use Rattle.std.specs.Prelude.{◌≤◌};
ghost use Rattle.rules.specs.Sound.{Lent, Domain};
ghost use Rattle.laws.proofs.Tests.Tells.{Tells};
ghost use Rattle.standing.specs.Header.{Headed};

use rules::{Head, OPTION_MOST, RECORDS_MOST, SIDE_MOST};

// "The caller lends room for 4,095 of each": shelves of five numbers, buckets of seven.
pub fn is_lent(shelves: &[u16], buckets: &[u16]) -> bool
    ensures { Tells result (Lent shelves.now buckets.now) }
{
    shelves.len() >= 5 * RECORDS_MOST as usize && buckets.len() >= 7 * RECORDS_MOST as usize
}

// "The header is within the domain .. counts are within 4,095."
fn is_domain(head: Head) -> bool
    ensures { Tells result (Domain head) }
{
    (1..=SIDE_MOST).contains(&head.width)
        && (1..=SIDE_MOST).contains(&head.height)
        && (1..=OPTION_MOST).contains(&head.align_width)
        && (1..=OPTION_MOST).contains(&head.align_height)
        && (1..=OPTION_MOST).contains(&head.columns)
        && head.column_width >= 1
        && head.shelf_count <= RECORDS_MOST
        && head.bucket_count <= RECORDS_MOST
}

// "Columns times column width is at most the width. The current column is below the number of columns." The product can pass 16 bits.
pub fn is_head(head: Head) -> bool
    ensures { Tells result (Headed head) }
{
    is_domain(head)
        && head.columns as u32 * head.column_width as u32 <= head.width as u32
        && head.column < head.columns
}
