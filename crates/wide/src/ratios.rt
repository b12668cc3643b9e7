// k × n / d, down, by one division of words where its remainder shows the result right.
ghost use Rattle.std.specs.Prelude.{◌≡◌, ◌*◌, ◌/◌, ◌^◌, ◌<◌, ◌≤◌};
ghost use Rattle.wide.specs.Words.{value};

use crate::Wide;

// What a word is cut by, and what is then left of the place of the upper word: CUT × LEFT is 2^64.
const CUT: u64 = 134217728;

const LEFT: u64 = 137438953472;

// d / CUT, down.
fn cut_of(d: Wide) -> u64
    requires { value d < 2 ^ 80 }
    ensures { (result ≡ value d / 2 ^ 27) × (result < 2 ^ 53) }
{
    d.hi * LEFT + d.lo / CUT
}

// k × n / d, down. With e = d / CUT + 1 and m = k × (n / CUT), q = m / e is never too large, and it is not too small where its remainder leaves
// room for q and k. Else two words are divided.
pub fn ratio(k: u64, n: u64, d: Wide) -> u32
    requires { (k ≤ 2 ^ 27) × (value d < 2 ^ 80) × (k * n < 2 ^ 26 * value d) }
    ensures { (result ≡ k * n / value d) × (result < 2 ^ 26) }
{
    let e = cut_of(d) + 1;
    let m = k * (n / CUT);
    let q = m / e;
    if q + m % e + k + 1 < e {
        return q as u32;
    }
    crate::quotient(crate::product(k, n), d)
}
