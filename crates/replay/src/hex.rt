// Bytes in lower-case hexadecimal, two digits a byte.
ghost use Rattle.std.specs.Prelude.{◌+◌, ◌≤◌, ◌<◌, IfSome};

use crate::form::{BYTES, ENTRIES, STRETCH};
use crate::sheet::Sheet;

// A digit's value is below this.
const BASE: u32 = 16;

// How many digits there is room for.
const DIGITS: u32 = 2 * BYTES as u32;

// The value of a digit, if the byte is one.
pub fn value_of(digit: u8) -> Option<u32>
    ensures { IfSome result (λ value. value < BASE) }
{
    match digit {
        b'0'..=b'9' => Some((digit - b'0') as u32),
        b'a'..=b'f' => Some((digit - b'a') as u32 + 10),
        _ => None,
    }
}

// The place of a digit that comes after so many others: digits past the room take the places of the last two, since the buffer is then too
// long for a book, whatever it holds.
fn place_after(count: u32) -> u32
    ensures { result < DIGITS }
{
    if count < DIGITS { count } else { DIGITS - 2 }
}

// Stores a digit that comes after so many others, and answers how many they are with it.
pub fn stored(count: u32, value: u32, entries: &mut [u32; ENTRIES]) -> u32
    requires { value < BASE }
{
    let place = place_after(count);
    let at = STRETCH + (place / 2) as usize;
    entries[at] = entries[at] % BASE * BASE + value;
    place + 1
}

// The digits of a byte.
pub fn put_byte<const N: usize>(sheet: &mut Sheet<N>, byte: u8)
    requires { sheet.old.end + 2 ≤ N }
    ensures { sheet.new.end ≤ sheet.old.end + 2 }
{
    let mut digits = [0u8; 16];
    let count = io::hex(byte as u64, 2, &mut digits);
    sheet.put(&digits[..count]);
}
