// How a trial's chroma and hue differ from its standard's, in each space and in units of its own.
#![tactic(auto)]

ghost use Rattle.std.specs.Prelude.{◌≡◌};
ghost use Rattle.cie.specs.Sizes.{Sized};
ghost use Rattle.hue.specs.Hue.{ab_of, uv_of, shift_of};

use cie::Colour;
use plane::PlaneColour;

mod plane;

// A difference with its sign in CIELAB, in 1/10,000.
#[derive(Clone, Copy, Debug, PartialEq, Eq)]
pub struct SignedLabUnits(pub i32);

// A difference with its sign in CIELUV, in 1/10,000.
#[derive(Clone, Copy, Debug, PartialEq, Eq)]
pub struct SignedLuvUnits(pub i32);

// Chroma difference and hue difference, trial minus standard, in CIELAB and in CIELUV.
#[derive(Clone, Copy, Debug, PartialEq, Eq)]
pub struct Shift {
    pub dcab: SignedLabUnits,
    pub dhab: SignedLabUnits,
    pub dcuv: SignedLuvUnits,
    pub dhuv: SignedLuvUnits,
}

fn ab_of(c: Colour) -> PlaneColour
    ensures { result ≡ ab_of c }
{
    PlaneColour {
        p: c.a,
        q: c.b,
        chroma: c.cab,
    }
}

fn uv_of(c: Colour) -> PlaneColour
    ensures { result ≡ uv_of c }
{
    PlaneColour {
        p: c.u,
        q: c.v,
        chroma: c.cuv,
    }
}

// The chroma and hue differences of two colours.
pub fn shift_of(standard: Colour, trial: Colour) -> Shift
    requires { Sized standard × Sized trial }
    ensures { result ≡ shift_of standard trial }
{
    let ab = plane::shift_in(ab_of(standard), ab_of(trial));
    let uv = plane::shift_in(uv_of(standard), uv_of(trial));
    Shift {
        dcab: SignedLabUnits(ab.chroma),
        dhab: SignedLabUnits(ab.hue),
        dcuv: SignedLuvUnits(uv.chroma),
        dhuv: SignedLuvUnits(uv.hue),
    }
}
