// The shade book: its layout, whether bytes are a book, and `read`, which gives one shade of it.
#![tactic(auto)]

pub mod layout;
pub mod reader;

ghost use Rattle.std.specs.Prelude.{◌≡◌, length};
ghost use Rattle.book.specs.Reading.{read_answer, found, places_after_read};

use causes::Cause;

// Reads the shade of a number into as many places as the spacing has rows.
pub fn read(spacing: u32, book: &[u8], number: u16, places: &mut [u16]) -> Result<(), Cause>
    ensures result_value { read_answer result ≡ found spacing book.now number (length places.old) }
    ensures places_after { places.new ≡ places_after_read spacing book.now number places.old }
{
    if cie::spacing::is_unknown(spacing) {
        return Err(Cause::UnknownSpacing);
    }
    let rows = cie::spacing::rows_at(spacing);
    if places.len() != rows {
        return Err(Cause::ShortTable);
    }
    if !reader::is_book(book, rows) {
        return Err(Cause::NotABook);
    }
    let Some(i) = reader::find(book, number) else {
        return Err(Cause::NoSuchShade);
    };
    reader::spectrum_at(book, i, places);
    Ok(())
}
