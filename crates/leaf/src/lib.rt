// Shelf heights alone, as C functions: bench/run measures them, tests/leaf looks at their instructions. No panel links this.
#![tactic(auto)]

ghost use Rattle.std.specs.Prelude.{◌≡◌};
ghost use Rattle.rules.specs.Rounding.{align, shelf_height};

// as a new shelf gets it, from the table where it has the size (T-03)
#[unsafe(no_mangle)]
pub extern "C" fn leaf_height(size: u16) -> u32
    ensures { result ≡ shelf_height size }
{
    sizes::shelf_height(size as u32)
}

// worked out whatever the size, as before the table
#[unsafe(no_mangle)]
pub extern "C" fn leaf_worked_out(size: u16) -> u32
    ensures { result ≡ shelf_height size }
{
    sizes::worked_out(size as u32)
}

// "up to the next multiple", of any step: this one divides, as a look at the instructions must find. No multiple of 0 is above 0.
#[unsafe(no_mangle)]
pub extern "C" fn leaf_align(size: u16, step: u16) -> u32
    ensures { result ≡ align step size }
{
    if step == 0 {
        return 0;
    }
    sizes::align_up(size as u32, step as u32)
}
