// What a pooling and a strike answer, as lines of text on standard output.
ghost use Rattle.std.specs.Prelude.{◌≤◌, length};
ghost use Rattle.cie.specs.Spacing.{most_rows};

use crate::form::BYTES;
use crate::hex;
use crate::sheet::Sheet;
use cie::spacing::MOST_ROWS;

// The longest line of a spectrum: its word, a field for each number, and the line end.
const SPECTRUM: usize = 8 + 11 * (1 + MOST_ROWS) + 1;

// The longest line of a strike: its word, the book's length, a space, two digits a byte, and the line end.
const STRUCK: usize = 6 + 11 + 1 + 2 * BYTES + 1;

// A spectrum: how many readings, then each.
pub fn print_spectrum(rt: &impl Print, readings: &[u16])
    requires { length readings.now ≤ most_rows }
{
    let mut sheet = Sheet::<SPECTRUM>::new();
    sheet.put(b"spectrum");
    sheet.put_field(readings.len() as u32);
    for &reading in readings {
        sheet.put_field(reading as u32);
    }
    sheet.print(rt);
}

// What a strike left: the book's length, then the whole buffer.
pub fn print_struck(rt: &impl Print, left: u32, buffer: &[u8])
    requires { length buffer.now ≤ BYTES }
{
    let mut sheet = Sheet::<STRUCK>::new();
    sheet.put(b"struck");
    sheet.put_field(left);
    sheet.put(b" ");
    for &byte in buffer {
        hex::put_byte(&mut sheet, byte);
    }
    sheet.print(rt);
}
