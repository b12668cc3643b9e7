// Numbers of two words, by value: product, sum, comparison, and quotients rounded down.
//
// A quotient or a root is guessed, and two comparisons show whether the guess is right: nothing is promised of a guess but its size. Where
// neither the guess nor the number before it is right, the result is searched for by halving, in 32 bits (`halving`).
#![tactic(auto)]

ghost use Rattle.std.specs.Prelude.{◌≡◌, ◌+◌, ◌*◌, ◌/◌, ◌^◌, ◌<◌, nat_le};
ghost use Rattle.wide.specs.Roots.{is_last, quotient_below};
ghost use Rattle.wide.specs.Words.{value};

mod halving;
pub mod ratios;
pub mod roots;

// hi × 2^64 + lo, and no u128: the edits product_carry, sum_carry, times_carry and ratio_cut are about the two words and what is carried from one
// to the other.
#[derive(Clone, Copy, Debug, PartialEq, Eq)]
pub struct Wide {
    pub hi: u64,
    pub lo: u64,
}

// The number that one word holds.
impl From<u64> for Wide {
    ghost from_gives = { λ n w. w ≡ record { hi = 0; lo = n } };

    fn from(n: u64) -> Wide {
        Wide { hi: 0, lo: n }
    }
}

// A word has two halves, each below 2^32.
const HALF: u64 = 4294967296;

// A quotient is below 2^26.
const QUOTIENT_BITS: u32 = 26;

// The product of two words, by halves of 32 bits. Of this form LLVM makes one `mul`: the upper word column by column, the lower as the lowest
// product and the two in the middle, moved up.
pub fn product(a: u64, b: u64) -> Wide
    ensures { value result ≡ a * b }
{
    let a0 = a % HALF;
    let a1 = a / HALF;
    let b0 = b % HALF;
    let b1 = b / HALF;
    let w = a0 * b0;
    let x = a1 * b0;
    let y = a0 * b1;
    let t = x + w / HALF;
    let m = t % HALF + y;
    let middle = (x % HALF + y % HALF) % HALF;
    Wide {
        hi: a1 * b1 + t / HALF + m / HALF,
        lo: w.wrapping_add(middle * HALF),
    }
}

// Whether a is at most b; the edit at_most_strict is about the lower words.
pub fn at_most(a: Wide, b: Wide) -> bool
    ensures { result ≡ nat_le (value a) (value b) }
{
    if a.hi == b.hi {
        a.lo <= b.lo
    } else {
        a.hi < b.hi
    }
}

// a + b.
pub fn sum(a: Wide, b: Wide) -> Wide
    requires { value a + value b < 2 ^ 128 }
    ensures { value result ≡ value a + value b }
{
    let (lo, carry) = a.lo.overflowing_add(b.lo);
    Wide {
        hi: a.hi + b.hi + carry as u64,
        lo,
    }
}

// q × d.
fn times(q: u64, d: Wide) -> Wide
    requires { q * value d < 2 ^ 128 }
    ensures { value result ≡ q * value d }
{
    let p = product(q, d.lo);
    Wide {
        hi: q * d.hi + p.hi,
        lo: p.lo,
    }
}

// Whether q is n / d, down.
fn is_quotient(q: u32, n: Wide, d: Wide) -> bool
    requires { (q < 2 ^ 26) × (value d < 2 ^ 102) }
    ensures { result ≡ is_last (quotient_below (value n) (value d)) q }
{
    let t = q as u64;
    at_most(times(t, d), n) && !at_most(times(t + 1, d), n)
}

// n / d, down, by halving what is between.
fn quotient_search(n: Wide, d: Wide) -> u32
    requires { (value d < 2 ^ 102) × (value n < 2 ^ 26 * value d) }
    ensures { (result ≡ value n / value d) × (result < 2 ^ 26) }
{
    halving::last(QUOTIENT_BITS, |q| at_most(times(q as u64, d), n))
}

// n / d, down.
pub fn quotient(n: Wide, d: Wide) -> u32
    requires { (value d < 2 ^ 102) × (value n < 2 ^ 26 * value d) }
    ensures { (result ≡ value n / value d) × (result < 2 ^ 26) }
{
    let guess = guesses::quotient(n.hi, n.lo, d.hi, d.lo);
    halving::guessed(guess, |q| is_quotient(q, n, d), || quotient_search(n, d))
}
