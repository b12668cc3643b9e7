// Signed numbers at the edge of unsigned ones.
#![tactic(auto)]

ghost use Rattle.std.specs.Prelude.{◌≡◌, ◌*◌, ◌/◌, ◌^◌, ◌<◌, pos, nat_abs, ◌-ℤ◌, ◌*ℤ◌};
ghost use Rattle.std.specs.Int.Signed.{quot_z};
ghost use Rattle.signed.specs.Apart.{distance, apart};

// How far two numbers are apart.
pub fn distance_of(a: u32, b: u32) -> u32
    ensures { result ≡ distance a b }
{
    a.abs_diff(b)
}

// The size of x − y.
pub fn apart_of(x: i32, y: i32) -> u32
    ensures { result ≡ apart x y }
{
    x.abs_diff(y)
}

// a − b.
pub fn minus(a: u32, b: u32) -> i32
    requires { (a < 2 ^ 31) × (b < 2 ^ 31) }
    ensures { result ≡ pos a -ℤ pos b }
{
    a as i32 - b as i32
}

// k × (a − b).
#[tactic(auto, using(crate::proofs::Parts::scaled_diff))]
pub fn multiple(k: u32, a: u32, b: u32) -> i32
    requires { (k * a < 2 ^ 31) × (k * b < 2 ^ 31) }
    ensures { result ≡ pos k *ℤ (pos a -ℤ pos b) }
{
    minus(k * a, k * b)
}

// scaled / d, rounded towards zero.
#[tactic(auto, using(crate::proofs::Signs::quotients))]
fn towards_zero(scaled: i64, d: u32) -> i32
    requires { nat_abs scaled < 2 ^ 31 * d }
    ensures { result ≡ quot_z scaled (pos d) }
{
    (scaled / d as i64) as i32
}

// k × (a − b) / d, rounded towards zero.
#[tactic(auto, using(crate::proofs::Signs::made_share))]
pub fn share(k: u32, a: u32, b: u32, d: u32) -> i32
    requires { (k * a < 2 ^ 31 * d) × (k * b < 2 ^ 31 * d) }
    ensures { result ≡ quot_z (pos k *ℤ (pos a -ℤ pos b)) (pos d) }
{
    let scaled = k as i64 * (a as i64 - b as i64);
    towards_zero(scaled, d)
}
