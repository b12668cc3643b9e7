// f of a ratio n / d, its step and the lightness, decided by comparing cubes. The constants are those of CIE 15:2004.
ghost use Rattle.std.specs.Prelude.{◌≡◌, false, not, ◌*◌, ◌≤◌, ◌<◌};
ghost use Rattle.cie.specs.Colour.{bright, straight_at, f_at, step_at, lightness_scale, gain, lightness_at};

use wide::roots::cube_root_near;

// The limit (24/116)³ is LIMIT_OVER / LIMIT_UNDER.
const LIMIT_OVER: u64 = 216;

const LIMIT_UNDER: u64 = 24389;

// (841/108) × n/d + 16/116 is (RISE n + START d) / (UNDER d).
const RISE: u64 = 97556;

const START: u64 = 1728;

const UNDER: u64 = 12528;

const STEP_SCALE: u64 = 1000000;

// 116 and 16, in 1/10,000.
const GAIN: u64 = 1160000;

const OFFSET: u32 = 160000;

// Whether n / d is at most the limit.
fn is_dim(n: u64, d: u64) -> bool
    ensures { result ≡ not (bright n d) }
{
    wide::at_most(wide::product(LIMIT_UNDER, n), wide::product(LIMIT_OVER, d))
}

// k × f(n / d) on the straight piece, down.
fn straight(k: u64, n: u64, d: u64) -> u32
    requires { (k ≤ lightness_scale * gain) × (0 < d) × (bright n d ≡ false) }
    ensures { result ≡ straight_at k n d }
{
    let over = wide::sum(wide::product(k * RISE, n), wide::product(k * START, d));
    wide::quotient(over, wide::product(UNDER, d))
}

// 1,000,000 × f(n / d), down.
pub fn step(n: u64, d: u64) -> u32
    requires { (0 < d) × (n ≤ 2 * d) }
    ensures { result ≡ step_at 1 n d }
{
    if is_dim(n, d) {
        straight(STEP_SCALE, n, d)
    } else {
        cube_root_near(guesses::cube_root(n, d), STEP_SCALE, n, d)
    }
}

// Of one ratio: 1,000,000 × f, and 10,000 × L*.
#[derive(Clone, Copy, Debug, PartialEq, Eq)]
pub struct Lightness {
    pub step: u32,
    pub l: u32,
}

// The step and L* of n / d, each down; above the limit by one guess.
pub fn lightness_of(n: u64, d: u64) -> Lightness
    requires { (0 < d) × (n ≤ 2 * d) }
    ensures { (result.step ≡ step_at 1 n d) × (result.l ≡ lightness_at 1 n d) }
{
    if is_dim(n, d) {
        return Lightness {
            step: straight(STEP_SCALE, n, d),
            l: straight(GAIN, n, d) - OFFSET,
        };
    }
    let guess = guesses::cube_root(n, d);
    Lightness {
        step: cube_root_near(guess, STEP_SCALE, n, d),
        l: cube_root_near(guess, GAIN, n, d) - OFFSET,
    }
}
