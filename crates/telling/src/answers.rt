// What each answer says in numbers: 0 with its values written, or the refusal's number with nothing written.
ghost use Rattle.std.specs.Prelude.{◌≡◌, [], ◌≤◌, length};
ghost use Rattle.telling.specs.Header.{write_allocation};
ghost use Rattle.telling.specs.Told.{told, new_told, issued_told, sides_told, flag_told, figure_told};

use crate::header;
use rules::{Allocation, Head, Issued, Refusal};

fn write_allocation(out: &mut [u32], allocation: Allocation)
    requires { 5 ≤ length out.old }
    ensures { out.new ≡ write_allocation allocation out.old }
{
    out[0] = allocation.id;
    out[1] = allocation.rectangle.left as u32;
    out[2] = allocation.rectangle.top as u32;
    out[3] = allocation.rectangle.right as u32;
    out[4] = allocation.rectangle.bottom as u32;
}

pub fn tell_head(answer: Result<Head, Refusal>, header: &mut [u32]) -> u32
    requires { 12 ≤ length header.old }
    ensures { told result header.new [] ≡ new_told answer header.old }
{
    match answer {
        Ok(head) => {
            header::write_head(header, head);
            0
        }
        Err(refusal) => u32::from(refusal),
    }
}

pub fn tell_issued(answer: Result<Issued, Refusal>, header: &mut [u32], out: &mut [u32]) -> u32
    requires { (12 ≤ length header.old) × (5 ≤ length out.old) }
    ensures { told result header.new out.new ≡ issued_told answer header.old out.old }
{
    match answer {
        Ok(issued) => {
            header::write_head(header, issued.head);
            write_allocation(out, issued.allocation);
            0
        }
        Err(refusal) => u32::from(refusal),
    }
}

pub fn tell_sides(answer: Result<(u16, u16), Refusal>, header: &[u32], out: &mut [u32]) -> u32
    requires { 2 ≤ length out.old }
    ensures { told result header.now out.new ≡ sides_told answer header.now out.old }
{
    match answer {
        Ok((width, height)) => {
            out[0] = width as u32;
            out[1] = height as u32;
            0
        }
        Err(refusal) => u32::from(refusal),
    }
}

pub fn tell_flag(answer: Result<bool, Refusal>, header: &[u32], out: &mut [u32]) -> u32
    requires { 1 ≤ length out.old }
    ensures { told result header.now out.new ≡ flag_told answer header.now out.old }
{
    match answer {
        Ok(yes) => {
            out[0] = yes as u32;
            0
        }
        Err(refusal) => u32::from(refusal),
    }
}

// A figure in pixels, or how many bytes of a text were put into a buffer.
pub fn tell_figure(answer: Result<u32, Refusal>, header: &[u32], out: &mut [u32]) -> u32
    requires { 1 ≤ length out.old }
    ensures { told result header.now out.new ≡ figure_told answer header.now out.old }
{
    match answer {
        Ok(figure) => {
            out[0] = figure;
            0
        }
        Err(refusal) => u32::from(refusal),
    }
}
