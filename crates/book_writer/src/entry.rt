// One entry of a book's contents.
ghost use Rattle.std.specs.Prelude.{◌≡◌, ◌+◌, ◌≤◌, length};
ghost use Rattle.std.proofs.lemmas.List.Edits.{sets};
ghost use Rattle.cie.specs.Spacing.{most_rows};
ghost use Rattle.book.specs.Book.{entry_length, entry_of};

use book::layout;

// Puts an entry at a place: the shade's number, and the length and the offset of its body.
pub fn put_entry(buffer: &mut [u8], rows: usize, at: usize, number: u16, offset: u32)
    requires { (rows ≤ most_rows) × (at + entry_length ≤ length buffer.old) }
    ensures { buffer.new ≡ sets buffer.old at (entry_of rows number offset) }
{
    endian::write16(buffer, at, number);
    endian::write16(buffer, at + 2, layout::body_length(rows) as u16);
    endian::write32(buffer, at + 4, offset);
}
