// One line of a listing: a shade's number and five numbers of its colour.
ghost use Rattle.std.specs.Prelude.{◌++◌, ◌+◌, ◌≤◌, length};
ghost use Rattle.text.specs.Text.{decimal, signed, Put};
ghost use Rattle.listing.specs.Listing.{spaced, line_of, line_room};

use cie::Colour;

// A space, and then a signed number.
fn put_spaced(out: &mut [u8], at: usize, x: i32) -> usize
    requires { at + 12 ≤ length out.old }
    ensures { Put out.old at (spaced (signed x)) out.new result × (result ≤ at + 12) }
{
    let next = text::put(out, at, b" ");
    text::put_signed(out, next, x)
}

// Two signed numbers, each after a space.
fn put_pair(out: &mut [u8], at: usize, p: i32, q: i32) -> usize
    requires { at + 24 ≤ length out.old }
    ensures { Put out.old at (spaced (signed p) ++ spaced (signed q)) out.new result × (result ≤ at + 24) }
{
    let next = put_spaced(out, at, p);
    put_spaced(out, next, q)
}

// The shade's number, a space and L.
fn put_start(out: &mut [u8], at: usize, number: u32, l: u32) -> usize
    requires { at + 21 ≤ length out.old }
    ensures { Put out.old at (decimal number ++ spaced (decimal l)) out.new result × (result ≤ at + 21) }
{
    let end = text::put_number(out, at, number);
    let next = text::put(out, end, b" ");
    text::put_number(out, next, l)
}

// The whole line.
pub fn put_line(out: &mut [u8], at: usize, number: u32, colour: Colour) -> usize
    requires { at + line_room ≤ length out.old }
    ensures { Put out.old at (line_of number colour) out.new result × (result ≤ at + line_room) }
{
    let start = put_start(out, at, number, colour.l);
    let lab = put_pair(out, start, colour.a, colour.b);
    let luv = put_pair(out, lab, colour.u, colour.v);
    text::put(out, luv, b"\n")
}
