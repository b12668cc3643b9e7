// The listing of a shade book, as text in a lent buffer: a header, and a line for each shade with its colour under D65 at the book's spacing.
#![tactic(auto)]

mod line;

ghost use Rattle.std.specs.Prelude.{◌≡◌, true, false, ◌+◌, ◌*◌, ◌≤◌, ◌<◌, length, get_or};
ghost use Rattle.cie.specs.Spacing.{unknown_spacing, rows_at};
ghost use Rattle.conditions.specs.Lent.{conditions_lent};
ghost use Rattle.book.specs.Book.{most_shades, count_of, numbers_of, is_book};
ghost use Rattle.shades.specs.Shades.{shade_under};
ghost use Rattle.io.specs.Counts.{IsPrefixLen};
ghost use Rattle.text.specs.Text.{Put};
ghost use Rattle.listing.specs.Listing.{line_of, shade_lines, line_room, refusal, listing_of};

use book::reader;
use causes::Cause;
use cie::spacing;
use cie::spacing::MOST_ROWS;
use cie::tables::LIGHT_D65;
use conditions::lent::Lent;

// The light of the listing.
const LIGHT: u32 = LIGHT_D65;

// The room of the longest listing, 16 bytes for the header and 70 for each of 200 lines: fixed memory, since nothing is allocated.
pub const ROOM: usize = 14_016;

// The line that stands for what is not a book.
fn put_refusal(out: &mut [u8]) -> usize
    requires { 19 ≤ length out.old }
    ensures { Put out.old 0 refusal out.new result × (result ≤ 19) }
{
    let word = text::put(out, 0, b"refused ");
    let number = text::put_number(out, word, u32::from(Cause::NotABook));
    text::put(out, number, b"\n")
}

// The line of a book's i-th shade, from 0, with its colour under the conditions that are lent.
fn put_shade(book: &[u8], i: usize, lent: Lent<'_>, out: &mut [u8], at: usize) -> usize
    requires { (is_book lent.rows book.now ≡ true) × (i < count_of book.now) × (at + line_room ≤ length out.old) }
    ensures { Put out.old at (line_of (get_or (numbers_of book.now) i 0) (shade_under (conditions_lent lent.entry) book.now i)) out.new result
        × (result ≤ at + line_room) }
{
    let mut readings = [0u16; MOST_ROWS];
    let colour = shades::colour_under(book, i, &mut readings[..lent.rows], lent);
    line::put_line(out, at, reader::number_at(book, i) as u32, colour)
}

// The lines of a book's shades at its spacing.
fn put_lines(spacing: u32, book: &[u8], out: &mut [u8], start: usize) -> usize
    requires { (unknown_spacing spacing ≡ false) × (is_book (rows_at spacing) book.now ≡ true) × (start + line_room * most_shades ≤ length out.old) }
    ensures { Put out.old start (shade_lines spacing book.now) out.new result × (result ≤ start + line_room * most_shades) }
{
    let conditions = conditions::prepare_light(LIGHT, spacing).unwrap();
    let lent = conditions.lend();
    let shades = reader::count(book);
    let mut at = start;
    for i in 0..shades {
        at = put_shade(book, i, lent, out, at);
    }
    at
}

// The whole listing; it answers the text's length.
pub fn list(book: &[u8], text: &mut [u8; ROOM]) -> usize
    ensures put { Put text.old 0 (listing_of book.now) text.new result }
    ensures prefix_len { IsPrefixLen result text.new }
{
    let spacing = spacing::told_by(reader::first_body_length(book) as usize);
    if !reader::is_book(book, spacing::rows_at(spacing)) {
        return put_refusal(text);
    }
    let start = text::put(text, 0, b"shade L a b u v\n");
    put_lines(spacing, book, text, start)
}
