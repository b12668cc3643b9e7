// The last number that passes a test: a guess, the number before it, or what halving finds.
ghost use Rattle.std.specs.Prelude.{◌≡◌, true, ◌^◌, ◌≤◌, ◌<◌, ◌⊎◌, ℕ};
ghost use Rattle.wide.specs.Roots.{LastTold};

// The last number of so many bits that passes a test, where each number before it passes too. Each turn halves what is left between `lo`, which
// passes, and a number above it, which does not; 2^bits, at first, is never formed.
pub fn last<F: Fn(u32) -> bool>(bits: u32, passes: F) -> u32
    requires some { 0 < bits }
    requires fits { bits ≤ 32 }
    requires callable { (x : ℕ) → x < 2 ^ bits → F.pre passes x }
    ensures { LastTold (F.post passes) (2 ^ bits) result }
{
    let mut lo: u32 = 0;
    let mut half: u32 = 1 << (bits - 1);
    // `for bit in (0..bits).rev()` takes six instructions a turn more where a cube root is searched for.
    while half > 0 {
        let mid = lo + half;
        half /= 2;
        if passes(mid) {
            lo = mid;
        }
    }
    lo
}

// The guess where it is right, else the number before it where that is, else what the search finds.
pub fn guessed<F: Fn(u32) -> bool, G: FnOnce() -> u32>(guess: u32, is_right: F, search: G) -> u32
    requires callable { (x : ℕ) → x ≤ guess → F.pre is_right x }
    requires searches { G.IsAlwaysCallable search }
    ensures { F.post is_right result true ⊎ G.post search result }
{
    if is_right(guess) {
        return guess;
    }
    if guess > 0 && is_right(guess - 1) {
        return guess - 1;
    }
    search()
}
