// Mills drop shades each season: `strike` takes a shade out of a shade book, in place.
#![tactic(auto)]

mod closing;
mod parts;

ghost use Rattle.std.specs.Prelude.{◌≡◌};
ghost use Rattle.causes.specs.Causes.{answer_of};
ghost use Rattle.strike.specs.Striking.{struck, buffer_after_strike};

use book::{layout, reader};
use causes::Cause;

// Takes the shade of a number out of the book that fills the buffer, and closes the book up; the freed end is zeros.
// Answers the length of the book that is left.
pub fn strike(spacing: u32, number: u16, buffer: &mut [u8]) -> Result<usize, Cause>
    ensures result_value { answer_of result ≡ struck spacing number buffer.old }
    ensures buffer_after { buffer.new ≡ buffer_after_strike spacing number buffer.old }
{
    if cie::spacing::is_unknown(spacing) {
        return Err(Cause::UnknownSpacing);
    }
    let rows = cie::spacing::rows_at(spacing);
    if !reader::is_book(buffer, rows) {
        return Err(Cause::NotABook);
    }
    let Some(i) = reader::find(buffer, number) else {
        return Err(Cause::NoSuchShade);
    };
    let n = reader::count(buffer);
    parts::take_out(buffer, rows, n, i);
    Ok(layout::total(rows, n - 1))
}
