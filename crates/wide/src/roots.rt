// Square and cube roots, rounded down.
ghost use Rattle.std.specs.Prelude.{◌≡◌, ◌*◌, ◌^◌, ◌<◌, ◌≤◌};
ghost use Rattle.wide.specs.Roots.{Last, is_last, square_below, cube_below, square_root, cube_root};
ghost use Rattle.wide.specs.Words.{value};

use crate::{Wide, halving};

// The square root of a word is below 2^32.
const SQUARE_ROOT_BITS: u32 = 32;

// A cube root is below this, whose cube is a word.
const CUBE_ROOTS: u64 = 2097152;

const CUBE_ROOT_BITS: u32 = 21;

// Whether p² is at most n.
fn square_at_most(p: u32, n: u64) -> bool
    ensures { result ≡ square_below n p }
{
    let q = p as u64;
    q * q <= n
}

// Whether p is the square root of n, down: what p² leaves is at most 2 p.
fn is_square_root(p: u32, n: u64) -> bool
    ensures { result ≡ is_last (square_below n) p }
{
    let q = p as u64;
    square_at_most(p, n) && n - q * q <= 2 * q
}

// The square root of n, down, by halving what is between.
fn square_search(n: u64) -> u32
    ensures { result ≡ square_root n }
{
    halving::last(SQUARE_ROOT_BITS, |p| square_at_most(p, n))
}

// The square root of n, down.
pub fn square_root(n: u64) -> u32
    ensures { result ≡ square_root n }
{
    halving::guessed(
        guesses::square_root(n),
        |p| is_square_root(p, n),
        || square_search(n),
    )
}

// Whether p³ × d is at most the target.
fn cube_at_most(p: u32, d: u64, target: Wide) -> bool
    requires { p ≤ 2 ^ 21 }
    ensures { result ≡ cube_below d (value target) p }
{
    let q = p as u64;
    crate::at_most(crate::product(q * q * q, d), target)
}

// Whether p is the largest number whose cube, times d, is at most the target.
fn is_cube_root(p: u32, d: u64, target: Wide) -> bool
    requires { p < 2 ^ 21 }
    ensures { result ≡ is_last (cube_below d (value target)) p }
{
    cube_at_most(p, d, target) && !cube_at_most(p + 1, d, target)
}

// The largest number whose cube, times d, is at most the target, by halving what is between.
fn cube_search(d: u64, target: Wide) -> u32
    requires { value target < 2 ^ 63 * d }
    ensures { Last (cube_below d (value target)) result }
{
    halving::last(CUBE_ROOT_BITS, |p| cube_at_most(p, d, target))
}

// k times the cube root of n / d, down. A guess y tells how soon it is found, and not what it is.
pub fn cube_root_near(y: u32, k: u64, n: u64, d: u64) -> u32
    requires { (k ≤ 2 ^ 21) × (k * k * k * n < 2 ^ 63 * d) }
    ensures { result ≡ cube_root k n d }
{
    let target = crate::product(k * k * k, n);
    let guess = (y as u64 * k / guesses::ONE % CUBE_ROOTS) as u32;
    halving::guessed(
        guess,
        |p| is_cube_root(p, d, target),
        || cube_search(d, target),
    )
}
