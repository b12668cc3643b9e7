// Guesses of roots and quotients. Nothing is promised of a guess but its size: a wrong one costs time, and never the answer.
#![tactic(auto)]

ghost use Rattle.std.specs.Prelude.{◌^◌, ◌≤◌, ◌<◌, All};
ghost use Rattle.std.specs.List.Sorted.{IsNonDecreasing};

// A word has two halves, each below 2^32.
const HALF: u64 = 4294967296;

// A guess for a cube root counts 1 / 2^30.
pub const ONE: u64 = 1073741824;

// What is below 2^34 may be multiplied by ONE.
const BEFORE_ONE: u64 = 17179869184;

// A quotient is below 2^26.
const QUOTIENTS: u64 = 67108864;

// r × t, where t counts 1 / 2^32.
fn part(r: u32, t: u32) -> u32
    ensures { result ≤ r }
{
    (r as u64 * t as u64 / HALF) as u32
}

// The polynomial r_1 t − r_2 t² + r_3 t³ − .., its last coefficient first.
fn alternating(coefficients: &[u32], t: u32) -> u32
    requires rising { IsNonDecreasing coefficients.now }
    requires below { All (λ c. c < 2 ^ 31) coefficients.now }
    ensures { result < 2 ^ 31 }
{
    let mut r: u32 = 0;
    for c in coefficients {
        r = *c - part(r, t);
    }
    part(r, t)
}

// The digits after the leading one of x, which has z zeros before it: t, where x is 2^(63 - z) × (1 + t / 2^32).
fn fraction(x: u64, z: u32) -> u32
    requires { z < 64 }
{
    ((x << z >> 31) % HALF) as u32
}

// How far a word with z leading zeros moves right to keep 32 bits.
fn excess(z: u32) -> u32
    ensures { result ≤ 32 }
{
    32u32.saturating_sub(z)
}

// About 2^30 × n / d, where that is below 2^34.
fn ratio(n: u64, d: u64) -> u64 {
    let s = excess(d.leading_zeros());
    let e = d >> s;
    if e == 0 {
        return 0;
    }
    (n >> s) % BEFORE_ONE * ONE / e
}

// 2^30 × the cube root of 2^(33 - z): by a match, since a table from 32 on would be asked at z - 32 behind a test.
fn cube_scale(z: u32) -> u32 {
    match z {
        32 => 1352829926,
        33 => 1073741824,
        34 => 852229450,
        35 => 676414963,
        36 => 536870912,
        37 => 426114725,
        38 => 338207482,
        39 => 268435456,
        40 => 213057363,
        _ => 0,
    }
}

// About 2^30 × the cube root of 1 + t / 2^32: a polynomial, within 4 parts in 10^8, and a little above.
fn cube_part(t: u32) -> u32 {
    let coefficients = [
        1610546, 8597100, 22181123, 40182006, 65363502, 119196954, 357908974,
    ];
    1073741945 + alternating(&coefficients, t)
}

// About 2^30 × the cube root of n / d, where n / d is from 2^-8 to 2.
pub fn cube_root(n: u64, d: u64) -> u32 {
    let x = ratio(n, d);
    let z = x.leading_zeros() % 64;
    let y = cube_part(fraction(x, z));
    (y as u64 * cube_scale(z) as u64 / ONE % HALF) as u32
}

// About 2^30 × the square root of 1 + t / 2^32.
fn square_part(t: u32) -> u32 {
    1073755346 + alternating(&[10943635, 47824288, 128329164, 536185356], t)
}

// 2^31 × the square root of 1 or 2.
fn square_scale(z: u32) -> u32 {
    if z % 2 == 1 {
        return 2147483648;
    }
    3037000500
}

// About the square root of n: a polynomial, and a step of Newton's from there.
pub fn square_root(n: u64) -> u32 {
    let z = n.leading_zeros();
    if z == 64 {
        return 0;
    }
    let y = square_part(fraction(n, z)) as u64 * square_scale(z) as u64;
    let e = y >> (61 - (63 - z) / 2);
    if e == 0 {
        return 0;
    }
    ((e % HALF + n / e % HALF) / 2) as u32
}

// The two words a and b, a the upper, moved right by s, without what is then above 64 bits.
fn moved(a: u64, b: u64, s: u32) -> u64
    requires { s < 64 }
{
    (a << 1 << (63 - s)) | (b >> s)
}

// How far the two words a and b, a the upper, move right to keep 37 bits.
fn surplus(a: u64, b: u64) -> u32
    ensures { result < 92 }
{
    if a == 0 {
        27u32.saturating_sub(b.leading_zeros())
    } else {
        91 - a.leading_zeros()
    }
}

// About n / d, each of two words, the upper first, where that is below 2^26.
pub fn quotient(n1: u64, n0: u64, d1: u64, d0: u64) -> u32
    ensures { result < 2 ^ 26 }
{
    let s = surplus(d1, d0) % 64;
    let e = moved(d1, d0, s);
    if e == 0 {
        return 0;
    }
    (moved(n1, n0, s) / e % QUOTIENTS) as u32
}
