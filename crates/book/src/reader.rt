// The reader's parts: whether bytes are a book, and what a book holds.
ghost use Rattle.std.specs.Prelude.{◌≡◌, true, ◌+◌, ◌≤◌, ◌<◌, length, get_or, MatchOption};
ghost use Rattle.cie.specs.Scales.{any_above, reader_limit};
ghost use Rattle.cie.specs.Spacing.{most_rows};
ghost use Rattle.endian.specs.Bytes.{words};
ghost use Rattle.book.specs.Book.{entry_length, head_length, most_shades, bodies_at, body_length, total, entry_ok, entries_ok, count_of, numbers_of, readings_of, readings_in, is_book, Contents, first_body_length, index_of, spectrum_of};

use super::layout;
use super::layout::{COUNT, ENTRY, HEAD, MAGIC, MOST_SHADES};
use cie::spacing::MOST_ROWS;
use cie::spectrum::READER_LIMIT;

// Whether the entry at a place has a number above the one before it, the body length of the rows, and the offset that is due.
#[tactic(auto, unfolding(crate::specs::Book::entry_ok))]
fn entry_right(s: &[u8], rows: usize, at: usize, before: u16, offset: u32) -> bool
    requires { (rows ≤ most_rows) × (at + entry_length ≤ length s.now) }
    ensures { result ≡ entry_ok rows s.now at before offset }
{
    endian::read16(s, at) > before
        && endian::read16(s, at + 2) as usize == layout::body_length(rows)
        && endian::read32(s, at + 4) == offset
}

// Whether the n entries are right.
fn entries_right(s: &[u8], rows: usize, n: usize) -> bool
    requires { (rows ≤ most_rows) × (n ≤ most_shades) × (length s.now ≡ total rows n) }
    ensures { result ≡ entries_ok rows s.now head_length 0 (bodies_at n) n }
{
    let body = layout::body_length(rows);
    let first = HEAD + ENTRY * n;
    let mut before = 0;
    for i in 0..n {
        let at = HEAD + ENTRY * i;
        if !entry_right(s, rows, at, before, (first + body * i) as u32) {
            return false;
        }
        before = endian::read16(s, at);
    }
    true
}

// Whether a reading of the body at a place is over-bright.
fn body_over_bright(s: &[u8], rows: usize, at: usize) -> bool
    requires { (rows ≤ most_rows) × (at + body_length rows ≤ length s.now) }
    ensures { result ≡ any_above reader_limit (words s.now at 2 rows) }
{
    let mut spectrum = [0u16; MOST_ROWS];
    endian::read_words(s, at, &mut spectrum[..rows]);
    cie::spectrum::over_bright(&spectrum[..rows], READER_LIMIT)
}

// Whether a reading of the n bodies is over-bright.
fn any_over_bright(s: &[u8], rows: usize, n: usize) -> bool
    requires { (rows ≤ most_rows) × (n ≤ most_shades) × (length s.now ≡ total rows n) }
    ensures { result ≡ any_above reader_limit (readings_in rows s.now n) }
{
    let body = layout::body_length(rows);
    let first = HEAD + ENTRY * n;
    for i in 0..n {
        if body_over_bright(s, rows, first + body * i) {
            return true;
        }
    }
    false
}

// Whether the bytes are a book, with so many rows to a body.
#[tactic(auto, using(crate::proofs::Tests::starts_same), unfolding(crate::specs::Book::is_book))]
pub fn is_book(s: &[u8], rows: usize) -> bool
    requires { rows ≤ most_rows }
    ensures { result ≡ is_book rows s.now }
{
    if s.len() < HEAD || !s.starts_with(&MAGIC) {
        return false;
    }
    let n = endian::read16(s, COUNT) as usize;
    if n > MOST_SHADES || s.len() != layout::total(rows, n) {
        return false;
    }
    entries_right(s, rows, n) && !any_over_bright(s, rows, n)
}

// The body length that the first entry names; 0 where the bytes end before that entry does, as the definition has it.
pub fn first_body_length(s: &[u8]) -> u16
    ensures { result ≡ first_body_length s.now }
{
    if s.len() < HEAD + ENTRY {
        return 0;
    }
    endian::read16(s, HEAD + 2)
}

// What follows stays functions of bytes: a type of checked books would ask more than `count`, `number_at` and `find` do, which need `Contents` alone.

// How many shades a book has.
pub fn count(s: &[u8]) -> usize
    requires { Contents s.now }
    ensures { (result ≡ count_of s.now) × (result ≤ most_shades) }
{
    endian::read16(s, COUNT) as usize
}

// The number of a book's i-th shade, from 0.
pub fn number_at(s: &[u8], i: usize) -> u16
    requires { Contents s.now × (i < count_of s.now) }
    ensures { result ≡ get_or (numbers_of s.now) i 0 }
{
    endian::read16(s, HEAD + ENTRY * i)
}

// The readings of a book's i-th shade, from 0: as many as there are places.
pub fn spectrum_at(s: &[u8], i: usize, places: &mut [u16])
    requires { (is_book (length places.old) s.now ≡ true) × (i < count_of s.now) × (length places.old ≤ most_rows) }
    ensures { places.new ≡ spectrum_of (length places.old) (readings_of (length places.old) s.now) i }
{
    let first = HEAD + ENTRY * count(s);
    let body = layout::body_length(places.len());
    endian::read_words(s, first + body * i, places);
}

// The place of a number among a book's shades, from 0; none where it is not among them.
pub fn find(s: &[u8], number: u16) -> Option<usize>
    requires { Contents s.now }
    ensures { let place = index_of number (numbers_of s.now) in
        MatchOption result (place ≡ count_of s.now) (λ i. (i ≡ place) × (i < count_of s.now)) }
{
    (0..count(s)).find(|i| number_at(s, *i) == number)
}
