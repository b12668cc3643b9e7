// The coordinates a, b and u, v of a colour, and the chroma of either pair.
ghost use Rattle.std.specs.Prelude.{◌≡◌};
ghost use Rattle.cie.specs.Sums.{White, AtMostTwice};
ghost use Rattle.cie.specs.Colour.{step_at, a_at, b_at, u_of, v_of, l_at, chroma};
ghost use Rattle.colour.specs.White.{white_point_of};

use crate::ratios::{PRIME_SCALE, U_FACTOR, V_FACTOR};
use crate::white::WhitePoint;
use crate::{ratios, steps};
use cie::Sums;

// A pair of coordinates, in 1/10,000.
#[derive(Clone, Copy, Debug, PartialEq, Eq)]
pub struct Plane {
    pub p: i32,
    pub q: i32,
}

impl Plane {
    // The chroma of the pair.
    pub fn chroma(self) -> u32
        ensures { result ≡ chroma self.p self.q }
    {
        let p = self.p.unsigned_abs() as u64;
        let q = self.q.unsigned_abs() as u64;
        wide::roots::square_root(p * p + q * q)
    }
}

const A_FACTOR: u32 = 5;

const B_FACTOR: u32 = 2;

const UV_FACTOR: u32 = 13;

pub fn ab_of(s: Sums, w: Sums, y: u32) -> Plane
    requires { White w × AtMostTwice w s × (y ≡ step_at 1 s.y w.y) }
    ensures { (result.p ≡ a_at 1 w s) × (result.q ≡ b_at 1 w s) }
{
    let x = steps::step(s.x, w.x);
    let z = steps::step(s.z, w.z);
    Plane {
        p: signed::multiple(A_FACTOR, x, y),
        q: signed::multiple(B_FACTOR, y, z),
    }
}

pub fn uv_of(s: Sums, l: u32, white: WhitePoint) -> Plane
    requires { (white ≡ white_point_of white.sums) × White white.sums × AtMostTwice white.sums s × (l ≡ l_at 1 white.sums s) }
    ensures { (result.p ≡ u_of white.sums s) × (result.q ≡ v_of white.sums s) }
{
    let under = ratios::uv_under(s);
    if ratios::is_zero(under) {
        return Plane { p: 0, q: 0 };
    }
    let u = ratios::prime(U_FACTOR, s.x, under);
    let v = ratios::prime(V_FACTOR, s.y, under);
    Plane {
        p: signed::share(UV_FACTOR * l, u, white.u, PRIME_SCALE),
        q: signed::share(UV_FACTOR * l, v, white.v, PRIME_SCALE),
    }
}
