// A book's shades under conditions: the colour of each, and its L alone.
#![tactic(auto)]

ghost use Rattle.std.specs.Prelude.{◌≡◌, true, ◌≤◌, ◌<◌, length};
ghost use Rattle.cie.specs.Spacing.{most_rows};
ghost use Rattle.cie.specs.Colour.{lightness_at};
ghost use Rattle.conditions.specs.Weights.{dot, white_readings, Weights};
ghost use Rattle.conditions.specs.Lent.{conditions_lent};
ghost use Rattle.book.specs.Book.{count_of, readings_of, is_book, spectrum_of};
ghost use Rattle.shades.specs.Shades.{shade_under};

use book::reader;
use cie::Colour;
use conditions::lent::Lent;
use conditions::measure;

// The colour of a book's i-th shade, from 0, with a place lent for each of its readings.
pub fn colour_under(book: &[u8], i: usize, places: &mut [u16], lent: Lent<'_>) -> Colour
    requires { (length places.old ≡ lent.rows) × (is_book lent.rows book.now ≡ true) × (i < count_of book.now) }
    ensures { result ≡ shade_under (conditions_lent lent.entry) book.now i }
{
    reader::spectrum_at(book, i, places);
    measure::colour_by(places, lent)
}

// L alone of a book's i-th shade, from 0, by the weights of y and the white's Y, with a place lent for each of its readings. It asks that of y and
// the white alone, and takes no `Lent`, which would ask more.
pub fn lightness_under(book: &[u8], i: usize, places: &mut [u16], yn: u64, y: &[u64]) -> u32
    requires { (is_book (length places.old) book.now ≡ true) × (i < count_of book.now) × (length places.old ≤ most_rows) × Weights y.now × (dot white_readings y.now ≤ yn) × (0 < yn) }
    ensures { result ≡ lightness_at 1 (dot (spectrum_of (length places.old) (readings_of (length places.old) book.now) i) y.now) yn }
{
    reader::spectrum_at(book, i, places);
    measure::lightness_by(places, yn, y)
}
