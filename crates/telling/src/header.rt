// The header in lent numbers: 12 of them, in the order of the header's fields.
ghost use Rattle.std.specs.Prelude.{◌≡◌, ◌≤◌, length};
ghost use Rattle.telling.specs.Header.{IsHead, is_head, head_in, head_beside, read_head, write_counts, write_head};

use rules::Head;

// the most that 16 bits hold
const NUMBER_MOST: u32 = rules::NUMBER_MOST as u32;

// Room for 12 numbers, and all but the occupied figure are of 16 bits.
pub fn is_head(header: &[u32]) -> bool
    ensures { result ≡ is_head header.now }
{
    if header.len() < 12 {
        return false;
    }
    for i in 0..11 {
        if header[i] > NUMBER_MOST {
            return false;
        }
    }
    true
}

// The header in the numbers, where they are one's.
pub fn head_in(header: &[u32]) -> Option<Head>
    ensures { result ≡ head_in header.now }
{
    if is_head(header) {
        return Some(read_head(header));
    }
    None
}

// The same, where the out slice beside it has room for so many numbers.
pub fn head_beside(header: &[u32], out: &[u32], room: usize) -> Option<Head>
    ensures { result ≡ head_beside header.now out.now room }
{
    if room <= out.len() {
        return head_in(header);
    }
    None
}

fn read_head(header: &[u32]) -> Head
    requires { IsHead header.now }
    ensures { result ≡ read_head header.now }
{
    Head {
        width: header[0] as u16,
        height: header[1] as u16,
        align_width: header[2] as u16,
        align_height: header[3] as u16,
        columns: header[4] as u16,
        column_width: header[5] as u16,
        column: header[6] as u16,
        room: header[7] as u16,
        shelf_count: header[8] as u16,
        bucket_count: header[9] as u16,
        released: header[10] as u16,
        occupied: header[11],
    }
}

// The second half of the header.
fn write_counts(header: &mut [u32], head: Head)
    requires { 12 ≤ length header.old }
    ensures { header.new ≡ write_counts head header.old }
{
    header[6] = head.column as u32;
    header[7] = head.room as u32;
    header[8] = head.shelf_count as u32;
    header[9] = head.bucket_count as u32;
    header[10] = head.released as u32;
    header[11] = head.occupied;
}

// Numbers past the twelfth stay.
pub(crate) fn write_head(header: &mut [u32], head: Head)
    requires { 12 ≤ length header.old }
    ensures { header.new ≡ write_head head header.old }
{
    header[0] = head.width as u32;
    header[1] = head.height as u32;
    header[2] = head.align_width as u32;
    header[3] = head.align_height as u32;
    header[4] = head.columns as u32;
    header[5] = head.column_width as u32;
    write_counts(header, head);
}
