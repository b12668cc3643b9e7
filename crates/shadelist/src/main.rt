// Lists the shades of the book on standard input. One byte more than the longest book is read, so that a longer input is no book.
#![tactic(auto)]

ghost use Rattle.std.specs.Prelude.{◌≤◌, length};

use std::io::Read;

// The longest book, 6 + 170 × 200 bytes, and one byte more: fixed memory, since nothing is allocated.
const INPUT: usize = 34_007;

// Reads until the buffer is full, the input ends or a read fails, and returns how many bytes it put at the start of the buffer.
// By hand, since std has no such method: `read_exact` tells no count where the input is short, and `read_to_end` allocates.
fn read_full(input: &mut impl Read, buffer: &mut [u8]) -> usize
    ensures { result ≤ length buffer.new }
{
    let mut done = 0;
    while let Ok(n @ 1..) = input.read(&mut buffer[done..]) {
        done += n;
    }
    done
}

fn main(rt: HostRuntime) {
    let mut input = [0u8; INPUT];
    let got = read_full(&mut rt.reader(), &mut input);
    let mut text = [0u8; listing::ROOM];
    let count = listing::list(&input[..got], &mut text);
    // a write that fails is passed over
    let _ = rt.write_all(&text[..count]);
}
