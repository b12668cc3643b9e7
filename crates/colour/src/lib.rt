// From sums to a colour: its steps, lightness, coordinates, ratios and chromas, and the differences of two colours.
#![tactic(auto)]

ghost use Rattle.std.specs.Prelude.{◌≡◌, ◌*◌, ◌≤◌, ◌<◌};
ghost use Rattle.cie.specs.Sums.{White, AtMostTwice};
ghost use Rattle.cie.specs.Colour.{lightness_at, colour_of};
ghost use Rattle.colour.specs.White.{white_point_of};
ghost use Rattle.colour.specs.Coordinates.{coordinates_in};

use axes::Plane;
use cie::{Colour, Sums};
use white::WhitePoint;

mod axes;
pub mod difference;
mod ratios;
mod steps;
pub mod white;

// L, a, b, u and v of a colour, in 1/10,000.
#[derive(Clone, Copy, Debug, PartialEq, Eq)]
pub struct Coordinates {
    pub l: u32,
    pub a: i32,
    pub b: i32,
    pub u: i32,
    pub v: i32,
}

// L of a sum of Y beside the white's, alone.
pub fn lightness(y: u64, yn: u64) -> u32
    requires { (0 < yn) × (y ≤ 2 * yn) }
    ensures { result ≡ lightness_at 1 y yn }
{
    steps::lightness_of(y, yn).l
}

// The coordinates of measured sums beside their white.
pub fn coordinates_of(sums: Sums, white: WhitePoint) -> Coordinates
    requires { (white ≡ white_point_of white.sums) × White white.sums × AtMostTwice white.sums sums }
    ensures { result ≡ coordinates_in (colour_of white.sums sums) }
{
    let w = white.sums;
    let y = steps::lightness_of(sums.y, w.y);
    let ab = axes::ab_of(sums, w, y.step);
    let uv = axes::uv_of(sums, y.l, white);
    Coordinates {
        l: y.l,
        a: ab.p,
        b: ab.q,
        u: uv.p,
        v: uv.q,
    }
}

// The colour of measured sums beside their white.
pub fn colour_of(sums: Sums, white: WhitePoint) -> Colour
    requires { (white ≡ white_point_of white.sums) × White white.sums × AtMostTwice white.sums sums }
    ensures { result ≡ colour_of white.sums sums }
{
    let w = white.sums;
    let c = coordinates_of(sums, white);
    Colour {
        tristimulus: ratios::tristimulus_of(sums, w),
        chromaticity: ratios::chromaticity_of(sums),
        l: c.l,
        a: c.a,
        b: c.b,
        u: c.u,
        v: c.v,
        cab: Plane { p: c.a, q: c.b }.chroma(),
        cuv: Plane { p: c.u, q: c.v }.chroma(),
    }
}
