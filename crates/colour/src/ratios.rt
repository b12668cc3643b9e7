// The ratios of a colour: tristimulus values, chromaticity, u' and v'.
ghost use Rattle.std.specs.Prelude.{◌≡◌, ◌*◌, ◌/◌, ◌^◌, ◌≤◌, ◌<◌, eqb};
ghost use Rattle.wide.specs.Words.{value};
ghost use Rattle.cie.specs.Sums.{White, AtMostTwice};
ghost use Rattle.cie.specs.Colour.{tristimulus_of, chromaticity_of, xy_under, uv_under, prime};

use cie::{Chromaticity, Sums, Tristimulus};
use wide::Wide;
use wide::ratios::ratio;

const TRISTIMULUS_SCALE: u64 = 1000000;

const CHROMATICITY_SCALE: u64 = 1000000;

// u' and v' count 1 / 10,000,000.
pub const PRIME_SCALE: u32 = 10000000;

// The factors of X in u' and of Y in v'.
pub const U_FACTOR: u64 = 4;

pub const V_FACTOR: u64 = 9;

pub fn tristimulus_of(s: Sums, w: Sums) -> Tristimulus
    requires { White w × AtMostTwice w s }
    ensures { result ≡ tristimulus_of w s }
{
    let yn = Wide::from(w.y);
    Tristimulus {
        x: ratio(TRISTIMULUS_SCALE, s.x, yn),
        y: ratio(TRISTIMULUS_SCALE, s.y, yn),
        z: ratio(TRISTIMULUS_SCALE, s.z, yn),
    }
}

// X + Y + Z.
fn xy_under(s: Sums) -> Wide
    ensures { value result ≡ xy_under s }
{
    let xy = wide::sum(Wide::from(s.x), Wide::from(s.y));
    wide::sum(xy, Wide::from(s.z))
}

// Not `n == Wide::from(0)`: the edit black_not_tested is about this call.
pub fn is_zero(n: Wide) -> bool
    ensures { result ≡ eqb (value n) 0 }
{
    n.hi == 0 && n.lo == 0
}

pub fn chromaticity_of(s: Sums) -> Option<Chromaticity>
    ensures { result ≡ chromaticity_of s }
{
    let sum = xy_under(s);
    if is_zero(sum) {
        return None;
    }
    Some(Chromaticity {
        x: ratio(CHROMATICITY_SCALE, s.x, sum),
        y: ratio(CHROMATICITY_SCALE, s.y, sum),
    })
}

// X + 15 Y + 3 Z.
pub fn uv_under(s: Sums) -> Wide
    ensures { value result ≡ uv_under s }
{
    let xy = wide::sum(Wide::from(s.x), wide::product(15, s.y));
    wide::sum(xy, wide::product(3, s.z))
}

// u' at (4, X) and v' at (9, Y), each × 10,000,000, down.
pub fn prime(k: u64, n: u64, under: Wide) -> u32
    requires { (k ≤ 9) × (0 < value under) × (value under < 2 ^ 80) × (k * n ≤ 4 * value under) }
    ensures { result ≡ prime (k * n) (value under) }
{
    ratio(PRIME_SCALE as u64 * k, n, under)
}
