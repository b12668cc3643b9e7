// The parts of a strike: the shade taken out, and the entries of the others written anew.
ghost use Rattle.std.specs.Prelude.{◌≡◌, true, ◌≤◌, ◌<◌, length, get_or};
ghost use Rattle.std.proofs.lemmas.List.Edits.{sets};
ghost use Rattle.cie.specs.Spacing.{most_rows};
ghost use Rattle.endian.specs.Bytes.{words};
ghost use Rattle.book.specs.Book.{entry_length, head_length, most_shades, bodies_at, contents_of, count_of, numbers_of, is_book};
ghost use Rattle.strike.specs.Striking.{book_without, closed_up};

use super::closing;
use book::layout;
use book::layout::{COUNT, ENTRY, HEAD};

// Writes the n entries anew, each with its number and the offset that is due in a book of n shades.
fn put_entries(buffer: &mut [u8], rows: usize, n: usize)
    requires { (rows ≤ most_rows) × (n ≤ most_shades) × (bodies_at n ≤ length buffer.old) }
    ensures { buffer.new ≡ sets buffer.old head_length (contents_of rows (bodies_at n) (words buffer.old head_length entry_length n)) }
{
    let body = layout::body_length(rows);
    let first = HEAD + ENTRY * n;
    for i in 0..n {
        let at = HEAD + ENTRY * i;
        let number = endian::read16(buffer, at);
        book_writer::entry::put_entry(buffer, rows, at, number, (first + body * i) as u32);
    }
}

// Takes the i-th of a book's n shades out, from 0: its body, then its entry; then the count and the entries are written anew.
pub fn take_out(buffer: &mut [u8], rows: usize, n: usize, i: usize)
    requires { (rows ≤ most_rows) × (is_book rows buffer.old ≡ true) × (n ≡ count_of buffer.old) × (i < n) }
    ensures { buffer.new ≡ closed_up (book_without rows (get_or (numbers_of buffer.old) i 0) buffer.old) (length buffer.old) }
{
    let body = layout::body_length(rows);
    closing::close_up(buffer, HEAD + ENTRY * n + body * i, body);
    closing::close_up(buffer, HEAD + ENTRY * i, ENTRY);
    endian::write16(buffer, COUNT, (n - 1) as u16);
    put_entries(buffer, rows, n - 1);
}
