// The panel interface: the public calls, which treadwharf_c exports for C and Rust, over numbers and lent slices. `header` is the
// header's 12 numbers as the last call left them, `shelves` and `buckets` the two tables, `list` T-02's list of what is held, structs of an id and
// its rectangle. Each function but the two tests returns 0, or the refusal number and then has written nothing. No slice may overlap another that is
// written; nothing else is asked of a caller.
#![tactic(auto)]

ghost use Rattle.std.specs.Prelude.{◌≡◌, []};
ghost use Rattle.rules.specs.Builds.{present};
ghost use Rattle.telling.specs.Told.{told};
ghost use Rattle.treadwharf.specs.Panel.{back, filing};
ghost use Rattle.treadwharf.specs.Panel as panel;

use rules::{Allocation, Refusal};

pub fn treadwharf_new(
    header: &mut [u32],
    shelves: &[u16],
    buckets: &[u16],
    width: i32,
    height: i32,
    align_width: i32,
    align_height: i32,
    columns: i32,
    vertical: u8,
) -> u32
    ensures { told result header.new []
        ≡ panel.new width height align_width align_height columns vertical header.old shelves.now buckets.now }
{
    if header.len() < 12 {
        return u32::from(Refusal::Tables);
    }
    let made = atlas::new(
        shelves,
        buckets,
        width,
        height,
        align_width,
        align_height,
        columns,
        vertical,
    );
    telling::tell_head(made, header)
}

pub fn treadwharf_clear(
    header: &mut [u32],
    shelves: &[u16],
    buckets: &[u16],
    list: &[Allocation],
) -> u32
    ensures { back (told result header.new []) shelves.now buckets.now list.now
        ≡ panel.clear header.old shelves.now buckets.now list.now }
{
    let Some(head) = telling::head_in(header) else {
        return u32::from(Refusal::Tables);
    };
    let cleared = atlas::clear(head, shelves, buckets, list);
    telling::tell_head(cleared, header)
}

pub fn treadwharf_grow(
    header: &mut [u32],
    shelves: &mut [u16],
    buckets: &mut [u16],
    list: &[Allocation],
    width: i32,
    height: i32,
) -> u32
    ensures { back (told result header.new []) shelves.new buckets.new list.now
        ≡ panel.grow width height header.old shelves.old buckets.old list.now }
{
    let Some(head) = telling::head_in(header) else {
        return u32::from(Refusal::Tables);
    };
    let grown = atlas::grow(head, shelves, buckets, list, width, height);
    telling::tell_head(grown, header)
}

// `out`: the id, then the rectangle's left, top, right and bottom.
pub fn treadwharf_allocate(
    header: &mut [u32],
    shelves: &mut [u16],
    buckets: &mut [u16],
    list: &mut [Allocation],
    out: &mut [u32],
    width: i32,
    height: i32,
) -> u32
    ensures { back (told result header.new out.new) shelves.new buckets.new list.new
        ≡ panel.allocate width height header.old shelves.old buckets.old list.old out.old }
{
    let Some(head) = telling::head_beside(header, out, 5) else {
        return u32::from(Refusal::Tables);
    };
    let placed = atlas::allocate(head, shelves, buckets, list, width, height);
    telling::tell_issued(placed, header, out)
}

pub fn treadwharf_deallocate(
    header: &mut [u32],
    shelves: &[u16],
    buckets: &mut [u16],
    list: &mut [Allocation],
    id: u32,
) -> u32
    ensures { back (told result header.new []) shelves.now buckets.new list.new
        ≡ panel.deallocate id header.old shelves.now buckets.old list.old }
{
    let Some(head) = telling::head_in(header) else {
        return u32::from(Refusal::Tables);
    };
    let returned = atlas::deallocate(head, shelves, buckets, list, id);
    telling::tell_head(returned, header)
}

// The tables test: true where header and tables are sound.
pub fn treadwharf_is_sound(header: &[u32], shelves: &[u16], buckets: &[u16]) -> bool
    ensures { result ≡ panel.is_sound header.now shelves.now buckets.now }
{
    let Some(head) = telling::head_in(header) else {
        return false;
    };
    atlas::is_sound(head, shelves, buckets)
}

// T-02. The list's test: true where header and tables are sound and the list fits them.
pub fn treadwharf_fits(
    header: &[u32],
    shelves: &[u16],
    buckets: &[u16],
    list: &[Allocation],
) -> bool
    ensures { result ≡ panel.fits header.now shelves.now buckets.now list.now }
{
    let Some(head) = telling::head_in(header) else {
        return false;
    };
    atlas::fits(head, shelves, buckets, list)
}

// `out`: width, height.
pub fn treadwharf_size(
    header: &[u32],
    shelves: &[u16],
    buckets: &[u16],
    list: &[Allocation],
    out: &mut [u32],
) -> u32
    ensures { told result header.now out.new
        ≡ panel.size header.now shelves.now buckets.now list.now out.old }
{
    let Some(head) = telling::head_beside(header, out, 2) else {
        return u32::from(Refusal::Tables);
    };
    let sides = atlas::size(head, shelves, buckets, list);
    telling::tell_sides(sides, header, out)
}

// `out`: 1 where there is no shelf, else 0.
pub fn treadwharf_is_empty(
    header: &[u32],
    shelves: &[u16],
    buckets: &[u16],
    list: &[Allocation],
    out: &mut [u32],
) -> u32
    ensures { told result header.now out.new
        ≡ panel.is_empty header.now shelves.now buckets.now list.now out.old }
{
    let Some(head) = telling::head_beside(header, out, 1) else {
        return u32::from(Refusal::Tables);
    };
    let empty = atlas::is_empty(head, shelves, buckets, list);
    telling::tell_flag(empty, header, out)
}

// `out`: the occupied figure, in pixels.
pub fn treadwharf_allocated_space(
    header: &[u32],
    shelves: &[u16],
    buckets: &[u16],
    list: &[Allocation],
    out: &mut [u32],
) -> u32
    ensures { told result header.now out.new
        ≡ panel.allocated_space header.now shelves.now buckets.now list.now out.old }
{
    let Some(head) = telling::head_beside(header, out, 1) else {
        return u32::from(Refusal::Tables);
    };
    let occupied = atlas::allocated_space(head, shelves, buckets, list);
    telling::tell_figure(occupied, header, out)
}

// `out`: width times height less the occupied figure, in pixels.
pub fn treadwharf_free_space(
    header: &[u32],
    shelves: &[u16],
    buckets: &[u16],
    list: &[Allocation],
    out: &mut [u32],
) -> u32
    ensures { told result header.now out.new
        ≡ panel.free_space header.now shelves.now buckets.now list.now out.old }
{
    let Some(head) = telling::head_beside(header, out, 1) else {
        return u32::from(Refusal::Tables);
    };
    let free = atlas::free_space(head, shelves, buckets, list);
    telling::tell_figure(free, header, out)
}

// T-01. `file`: the file's bytes, from its start on; `out`: how many.
pub fn treadwharf_write(
    header: &[u32],
    shelves: &[u16],
    buckets: &[u16],
    list: &[Allocation],
    file: &mut [u8],
    out: &mut [u32],
) -> u32
    ensures { filing (told result header.now out.new) file.new
        ≡ panel.write present header.now shelves.now buckets.now list.now file.old
        out.old }
{
    let Some(head) = telling::head_beside(header, out, 1) else {
        return u32::from(Refusal::Tables);
    };
    let written = files::write(head, shelves, buckets, list, file);
    telling::tell_figure(written, header, out)
}

// T-07. `text`: the picture's bytes, from its start on; `out`: how many.
pub fn treadwharf_picture(
    header: &[u32],
    shelves: &[u16],
    buckets: &[u16],
    list: &[Allocation],
    text: &mut [u8],
    out: &mut [u32],
) -> u32
    ensures { filing (told result header.now out.new) text.new
        ≡ panel.picture header.now shelves.now buckets.now list.now text.old
        out.old }
{
    let Some(head) = telling::head_beside(header, out, 1) else {
        return u32::from(Refusal::Tables);
    };
    let drawn = picture::picture(head, shelves, buckets, list, text);
    telling::tell_figure(drawn, header, out)
}

// T-01. `file`: all bytes of a file and no others. No list is lent; the one before is at an end.
pub fn treadwharf_read(
    header: &mut [u32],
    shelves: &mut [u16],
    buckets: &mut [u16],
    file: &[u8],
) -> u32
    ensures { back (told result header.new []) shelves.new buckets.new []
        ≡ panel.read header.old shelves.old buckets.old file.now }
{
    if header.len() < 12 {
        return u32::from(Refusal::Tables);
    }
    let made = files::read(file, shelves, buckets);
    telling::tell_head(made, header)
}
