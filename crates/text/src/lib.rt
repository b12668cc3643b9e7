// Text in a lent buffer: bytes, numbers and signed numbers, each put at a place. Each call answers the place after it.
#![tactic(auto)]

ghost use Rattle.std.specs.Prelude.{◌+◌, ◌≤◌, length};
ghost use Rattle.text.specs.Text.{decimal, signed, Put};

use itoa::Buffer;

// The bytes as they are.
#[tactic(auto, using(stores::proofs::Runs::sets_mid))]
pub fn put(out: &mut [u8], at: usize, text: &[u8]) -> usize
    requires { at + length text.now ≤ length out.old }
    ensures { Put out.old at text.now out.new result }
{
    let end = at + text.len();
    out[at..end].copy_from_slice(text);
    end
}

// A number in decimal.
#[tactic(auto, using(crate::proofs::Decimal::decimal_is))]
pub fn put_number(out: &mut [u8], at: usize, n: u32) -> usize
    requires { at + 10 ≤ length out.old }
    ensures { Put out.old at (decimal n) out.new result × (result ≤ at + 10) }
{
    put(out, at, Buffer::new().format(n).as_bytes())
}

// A signed number in decimal, with a minus sign where it is below 0.
pub fn put_signed(out: &mut [u8], at: usize, x: i32) -> usize
    requires { at + 11 ≤ length out.old }
    ensures { Put out.old at (signed x) out.new result × (result ≤ at + 11) }
{
    if x < 0 {
        let digits = put(out, at, b"-");
        return put_number(out, digits, x.unsigned_abs());
    }
    put_number(out, at, x.unsigned_abs())
}
