// The panel interface as C sees it: each public call of treadwharf under its name, a slice as a pointer and a length, with treadwharf's own statement.
#![tactic(auto)]

ghost use Rattle.std.specs.Prelude.{◌≡◌, []};
ghost use Rattle.rules.specs.Builds.{present};
ghost use Rattle.telling.specs.Told.{told};
ghost use Rattle.treadwharf.specs.Panel.{back, filing};
ghost use Rattle.treadwharf.specs.Panel as panel;

use rules::Allocation;

#[unsafe(no_mangle)]
pub extern "C" fn treadwharf_new(
    header: &mut [u32],
    shelves: &[u16],
    buckets: &[u16],
    width: i32,
    height: i32,
    align_width: i32,
    align_height: i32,
    columns: i32,
    vertical: u8,
) -> u32
    ensures { told result header.new []
        ≡ panel.new width height align_width align_height columns vertical header.old shelves.now buckets.now }
{
    treadwharf::treadwharf_new(
        header,
        shelves,
        buckets,
        width,
        height,
        align_width,
        align_height,
        columns,
        vertical,
    )
}

#[unsafe(no_mangle)]
pub extern "C" fn treadwharf_clear(
    header: &mut [u32],
    shelves: &[u16],
    buckets: &[u16],
    list: &[Allocation],
) -> u32
    ensures { back (told result header.new []) shelves.now buckets.now list.now
        ≡ panel.clear header.old shelves.now buckets.now list.now }
{
    treadwharf::treadwharf_clear(header, shelves, buckets, list)
}

#[unsafe(no_mangle)]
pub extern "C" fn treadwharf_grow(
    header: &mut [u32],
    shelves: &mut [u16],
    buckets: &mut [u16],
    list: &[Allocation],
    width: i32,
    height: i32,
) -> u32
    ensures { back (told result header.new []) shelves.new buckets.new list.now
        ≡ panel.grow width height header.old shelves.old buckets.old list.now }
{
    treadwharf::treadwharf_grow(header, shelves, buckets, list, width, height)
}

// `out`: the id, then the rectangle's left, top, right and bottom.
#[unsafe(no_mangle)]
pub extern "C" fn treadwharf_allocate(
    header: &mut [u32],
    shelves: &mut [u16],
    buckets: &mut [u16],
    list: &mut [Allocation],
    out: &mut [u32],
    width: i32,
    height: i32,
) -> u32
    ensures { back (told result header.new out.new) shelves.new buckets.new list.new
        ≡ panel.allocate width height header.old shelves.old buckets.old list.old out.old }
{
    treadwharf::treadwharf_allocate(header, shelves, buckets, list, out, width, height)
}

#[unsafe(no_mangle)]
pub extern "C" fn treadwharf_deallocate(
    header: &mut [u32],
    shelves: &[u16],
    buckets: &mut [u16],
    list: &mut [Allocation],
    id: u32,
) -> u32
    ensures { back (told result header.new []) shelves.now buckets.new list.new
        ≡ panel.deallocate id header.old shelves.now buckets.old list.old }
{
    treadwharf::treadwharf_deallocate(header, shelves, buckets, list, id)
}

// The tables test: true where header and tables are sound.
#[unsafe(no_mangle)]
pub extern "C" fn treadwharf_is_sound(header: &[u32], shelves: &[u16], buckets: &[u16]) -> bool
    ensures { result ≡ panel.is_sound header.now shelves.now buckets.now }
{
    treadwharf::treadwharf_is_sound(header, shelves, buckets)
}

// T-02. The list's test: true where header and tables are sound and the list fits them.
#[unsafe(no_mangle)]
pub extern "C" fn treadwharf_fits(
    header: &[u32],
    shelves: &[u16],
    buckets: &[u16],
    list: &[Allocation],
) -> bool
    ensures { result ≡ panel.fits header.now shelves.now buckets.now list.now }
{
    treadwharf::treadwharf_fits(header, shelves, buckets, list)
}

// `out`: width, height.
#[unsafe(no_mangle)]
pub extern "C" fn treadwharf_size(
    header: &[u32],
    shelves: &[u16],
    buckets: &[u16],
    list: &[Allocation],
    out: &mut [u32],
) -> u32
    ensures { told result header.now out.new
        ≡ panel.size header.now shelves.now buckets.now list.now out.old }
{
    treadwharf::treadwharf_size(header, shelves, buckets, list, out)
}

// `out`: 1 where there is no shelf, else 0.
#[unsafe(no_mangle)]
pub extern "C" fn treadwharf_is_empty(
    header: &[u32],
    shelves: &[u16],
    buckets: &[u16],
    list: &[Allocation],
    out: &mut [u32],
) -> u32
    ensures { told result header.now out.new
        ≡ panel.is_empty header.now shelves.now buckets.now list.now out.old }
{
    treadwharf::treadwharf_is_empty(header, shelves, buckets, list, out)
}

// `out`: the occupied figure, in pixels.
#[unsafe(no_mangle)]
pub extern "C" fn treadwharf_allocated_space(
    header: &[u32],
    shelves: &[u16],
    buckets: &[u16],
    list: &[Allocation],
    out: &mut [u32],
) -> u32
    ensures { told result header.now out.new
        ≡ panel.allocated_space header.now shelves.now buckets.now list.now out.old }
{
    treadwharf::treadwharf_allocated_space(header, shelves, buckets, list, out)
}

// `out`: width times height less the occupied figure, in pixels.
#[unsafe(no_mangle)]
pub extern "C" fn treadwharf_free_space(
    header: &[u32],
    shelves: &[u16],
    buckets: &[u16],
    list: &[Allocation],
    out: &mut [u32],
) -> u32
    ensures { told result header.now out.new
        ≡ panel.free_space header.now shelves.now buckets.now list.now out.old }
{
    treadwharf::treadwharf_free_space(header, shelves, buckets, list, out)
}

// T-01. `file`: the file's bytes, from its start on; `out`: how many.
#[unsafe(no_mangle)]
pub extern "C" fn treadwharf_write(
    header: &[u32],
    shelves: &[u16],
    buckets: &[u16],
    list: &[Allocation],
    file: &mut [u8],
    out: &mut [u32],
) -> u32
    ensures { filing (told result header.now out.new) file.new
        ≡ panel.write present header.now shelves.now buckets.now list.now file.old
        out.old }
{
    treadwharf::treadwharf_write(header, shelves, buckets, list, file, out)
}

// T-07. `text`: the picture's bytes, from its start on; `out`: how many.
#[unsafe(no_mangle)]
pub extern "C" fn treadwharf_picture(
    header: &[u32],
    shelves: &[u16],
    buckets: &[u16],
    list: &[Allocation],
    text: &mut [u8],
    out: &mut [u32],
) -> u32
    ensures { filing (told result header.now out.new) text.new
        ≡ panel.picture header.now shelves.now buckets.now list.now text.old
        out.old }
{
    treadwharf::treadwharf_picture(header, shelves, buckets, list, text, out)
}

// T-01. `file`: all bytes of a file and no others. No list is lent; the one before is at an end.
#[unsafe(no_mangle)]
pub extern "C" fn treadwharf_read(
    header: &mut [u32],
    shelves: &mut [u16],
    buckets: &mut [u16],
    file: &[u8],
) -> u32
    ensures { back (told result header.new []) shelves.new buckets.new []
        ≡ panel.read header.old shelves.old buckets.old file.now }
{
    treadwharf::treadwharf_read(header, shelves, buckets, file)
}
