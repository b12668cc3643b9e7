// The writer's parts: what it checks of the shades, and the stores that make a book.
ghost use Rattle.std.specs.Prelude.{◌≡◌, ◌*◌, ◌≤◌, ◌<◌, eqb, length};
ghost use Rattle.std.proofs.lemmas.List.Edits.{sets};
ghost use Rattle.cie.specs.Spacing.{most_rows};
ghost use Rattle.endian.specs.Bytes.{bytes_of};
ghost use Rattle.book.specs.Book.{magic, head_length, most_shades, bodies_at, total, rising, contents_of, book_of};

use super::entry;
use book::layout;
use book::layout::{COUNT, ENTRY, HEAD, MAGIC};

// Whether there are so many rows for each of n shades. (rows * n could wrap.)
pub fn fills(spectra: &[u16], rows: usize, n: usize) -> bool
    requires { 0 < rows }
    ensures { result ≡ eqb (length spectra.now) (rows * n) }
{
    spectra.len() % rows == 0 && spectra.len() / rows == n
}

// Whether the numbers rise strictly, from at least 1.
pub fn is_rising(numbers: &[u16]) -> bool
    ensures { result ≡ rising 0 numbers.now }
{
    let mut before = 0;
    for number in numbers {
        if *number <= before {
            return false;
        }
        before = *number;
    }
    true
}

fn put_magic(buffer: &mut [u8])
    requires { length magic ≤ length buffer.old }
    ensures { buffer.new ≡ sets buffer.old 0 magic }
{
    buffer[..COUNT].copy_from_slice(&MAGIC);
}

// The entries.
fn put_contents(buffer: &mut [u8], rows: usize, numbers: &[u16])
    requires { (rows ≤ most_rows) × (length numbers.now ≤ most_shades) × (total rows (length numbers.now) ≤ length buffer.old) }
    ensures { buffer.new ≡ sets buffer.old head_length (contents_of rows (bodies_at (length numbers.now)) numbers.now) }
{
    let body = layout::body_length(rows);
    let first = HEAD + ENTRY * numbers.len();
    for (i, number) in numbers.iter().enumerate() {
        entry::put_entry(
            buffer,
            rows,
            HEAD + ENTRY * i,
            *number,
            (first + body * i) as u32,
        );
    }
}

// The bodies of n shades, each in the part of the buffer that starts at its offset.
fn put_bodies(buffer: &mut [u8], rows: usize, spectra: &[u16], n: usize)
    requires { (rows ≤ most_rows) × (n ≤ most_shades) × (length spectra.now ≡ rows * n) × (total rows n ≤ length buffer.old) }
    ensures { buffer.new ≡ sets buffer.old (bodies_at n) (bytes_of spectra.now) }
{
    let body = layout::body_length(rows);
    let first = HEAD + ENTRY * n;
    for i in 0..n {
        let at = first + body * i;
        let from = rows * i;
        endian::write_words(&mut buffer[at..], &spectra[from..from + rows]);
    }
}

// The book of some shades, at the start of the buffer.
pub fn put_book(buffer: &mut [u8], rows: usize, numbers: &[u16], spectra: &[u16])
    requires { (rows ≤ most_rows) × (length numbers.now ≤ most_shades) × (length spectra.now ≡ rows * length numbers.now) × (total rows (length numbers.now) ≤ length buffer.old) }
    ensures { buffer.new ≡ sets buffer.old 0 (book_of rows numbers.now spectra.now) }
{
    let n = numbers.len();
    put_magic(buffer);
    endian::write16(buffer, COUNT, n as u16);
    put_contents(buffer, rows, numbers);
    put_bodies(buffer, rows, spectra, n);
}
