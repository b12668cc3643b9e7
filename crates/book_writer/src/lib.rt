// The shade book's writer: `write` makes a book of shades.
#![tactic(auto)]

pub mod entry;
mod parts;

ghost use Rattle.std.specs.Prelude.{◌≡◌, length};
ghost use Rattle.causes.specs.Causes.{answer_of};
ghost use Rattle.book_writer.specs.Writing.{written, buffer_after_write};

use book::layout;
use book::layout::MOST_SHADES;
use causes::Cause;
use cie::spectrum::FRAME_LIMIT;

// Writes the book of some shades into the buffer: their numbers, and for each as many readings as the spacing has rows, one shade after the other;
// answers the length of the book.
pub fn write(
    spacing: u32,
    numbers: &[u16],
    spectra: &[u16],
    buffer: &mut [u8],
) -> Result<usize, Cause>
    ensures result_value { answer_of result ≡ written spacing numbers.now spectra.now (length buffer.old) }
    ensures buffer_after { buffer.new ≡ buffer_after_write spacing numbers.now spectra.now buffer.old }
{
    if cie::spacing::is_unknown(spacing) {
        return Err(Cause::UnknownSpacing);
    }
    let rows = cie::spacing::rows_at(spacing);
    let n = numbers.len();
    if !parts::fills(spectra, rows, n) {
        return Err(Cause::ShortTable);
    }
    if n > MOST_SHADES {
        return Err(Cause::TooManyShades);
    }
    if !parts::is_rising(numbers) {
        return Err(Cause::OutOfOrder);
    }
    if cie::spectrum::over_bright(spectra, FRAME_LIMIT) {
        return Err(Cause::OverBright);
    }
    let total = layout::total(rows, n);
    if buffer.len() < total {
        return Err(Cause::ShortBuffer);
    }
    parts::put_book(buffer, rows, numbers, spectra);
    Ok(total)
}
