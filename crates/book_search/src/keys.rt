// The keys of a book's shades: each shade's L is worked out once.
ghost use Rattle.std.specs.Prelude.{◌≡◌, true, ◌≤◌, ◌<◌, length, get_or};
ghost use Rattle.signed.specs.Apart.{distance};
ghost use Rattle.cie.specs.Spacing.{most_rows};
ghost use Rattle.conditions.specs.Weights.{dot, white_readings, Weights};
ghost use Rattle.book.specs.Book.{count_of, numbers_of, readings_of, is_book, spectrum_of};
ghost use Rattle.nearest.specs.Order.{key_range, key_of};
ghost use Rattle.book_search.specs.Shades.{keys_by, lightness_by};

use book::reader;

// The key of a book's i-th shade, from 0, beside a swatch's L. It and `put_keys` ask of y and the white's Y alone, as `lightness_under` does, and
// take no `Lent`, which would ask more.
fn key_at(l: u32, book: &[u8], i: usize, places: &mut [u16], yn: u64, y: &[u64]) -> u64
    requires { (is_book (length places.old) book.now ≡ true) × (i < count_of book.now) × (length places.old ≤ most_rows) × Weights y.now × (dot white_readings y.now ≤ yn) × (0 < yn) }
    ensures { (result ≡ key_of (distance l (lightness_by yn y.now (spectrum_of (length places.old) (readings_of (length places.old) book.now) i))) (get_or (numbers_of book.now) i 0)) × (result < key_range) }
{
    let shade = shades::lightness_under(book, i, places, yn, y);
    nearest::key_of(signed::distance_of(l, shade), reader::number_at(book, i))
}

// The keys of a book's shades beside a swatch's L, as many as the places for them.
pub fn put_keys(keys: &mut [u64], l: u32, book: &[u8], places: &mut [u16], yn: u64, y: &[u64])
    requires { (is_book (length places.old) book.now ≡ true) × (length keys.old ≡ count_of book.now) × (length places.old ≤ most_rows) × Weights y.now × (dot white_readings y.now ≤ yn) × (0 < yn) }
    ensures { keys.new ≡ keys_by (lightness_by yn y.now) (length places.old) l book.now }
{
    for (i, key) in keys.iter_mut().enumerate() {
        *key = key_at(l, book, i, places, yn, y);
    }
}
