// The lengths of a shade book's parts, in bytes where they have no other unit.
ghost use Rattle.std.specs.Prelude.{◌≡◌, ◌≤◌};
ghost use Rattle.cie.specs.Spacing.{most_rows};
ghost use Rattle.book.specs.Book.{most_shades, body_length, total as total_of};

use cie::spacing::READING_BYTES;

// A book begins with these.
pub const MAGIC: [u8; 4] = *b"SBK1";

// The place of the number of shades, and the place of the first entry.
pub const COUNT: usize = 4;

pub const HEAD: usize = 6;

// One entry.
pub const ENTRY: usize = 8;

// The most shades that a book holds.
pub const MOST_SHADES: usize = 200;

// A body of so many rows.
pub fn body_length(rows: usize) -> usize
    requires { rows ≤ most_rows }
    ensures { result ≡ body_length rows }
{
    READING_BYTES * rows
}

// The book of n shades.
pub fn total(rows: usize, n: usize) -> usize
    requires { (rows ≤ most_rows) × (n ≤ most_shades) }
    ensures { result ≡ total_of rows n }
{
    HEAD + (ENTRY + body_length(rows)) * n
}
