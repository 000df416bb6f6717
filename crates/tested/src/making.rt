// What new answers to numbers, the room being good: 2, 3.
ghost use Rattle.std.specs.Prelude.{◌≡◌, ◌<◌};
ghost use Rattle.rules.specs.Calls as calls;
ghost use Rattle.rules.specs.Calls.{column_width, fresh_head, options_bad};
ghost use Rattle.tested.specs.Needs.{Fresh};

use crate::answers;
use rules::{Head, NONE, OPTION_MOST, Refusal};

// "at creation width / columns, less its remainder by the width alignment"
fn column_width(width: u32, columns: u32, align_width: u32) -> u32
    requires { (0 < columns) × (0 < align_width) }
    ensures { result ≡ column_width width columns align_width }
{
    let share = width / columns;
    share - share % align_width
}

// "alignment or columns outside the domain, column width 0, or vertical"
#[tactic(auto, unfolding(rules::specs::Calls::options_bad))]
fn options_bad(width: u32, align_width: u32, align_height: u32, columns: u32, vertical: u8) -> bool
    ensures { result ≡ options_bad width align_width align_height columns vertical }
{
    answers::outside(align_width, OPTION_MOST)
        || answers::outside(align_height, OPTION_MOST)
        || answers::outside(columns, OPTION_MOST)
        || column_width(width, columns, align_width) == 0
        || vertical != 0
}

fn fresh_head(width: u32, height: u32, align_width: u32, align_height: u32, columns: u32) -> Head
    requires { Fresh width height align_width align_height columns }
    ensures { result ≡ fresh_head width height align_width align_height columns }
{
    let column_width = column_width(width, columns, align_width);
    Head {
        width: width as u16,
        height: height as u16,
        align_width: align_width as u16,
        align_height: align_height as u16,
        columns: columns as u16,
        column_width: column_width as u16,
        column: 0,
        room: height as u16,
        shelf_count: 0,
        bucket_count: 0,
        released: NONE,
        occupied: 0,
    }
}

#[tactic(auto, using(crate::proofs::Arms::made_side, crate::proofs::Arms::made_options, crate::proofs::Arms::made_done))]
pub fn made(
    width: u32,
    height: u32,
    align_width: u32,
    align_height: u32,
    columns: u32,
    vertical: u8,
) -> Result<Head, Refusal>
    ensures { result ≡ calls.made width height align_width align_height columns vertical }
{
    if answers::sides_bad(width, height) {
        return Err(Refusal::Side);
    }
    if options_bad(width, align_width, align_height, columns, vertical) {
        return Err(Refusal::Options);
    }
    let head = fresh_head(width, height, align_width, align_height, columns);
    Ok(head)
}
