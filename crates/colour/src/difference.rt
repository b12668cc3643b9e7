// The differences of two colours, each in the units of its own space.
ghost use Rattle.std.specs.Prelude.{◌≡◌, ◌^◌, ◌<◌};
ghost use Rattle.wide.specs.Roots.{square_root};
ghost use Rattle.cie.specs.Colour.{lab_difference, luv_difference};
ghost use Rattle.cie.specs.Sizes.{Sized};
ghost use Rattle.colour.specs.Places.{lab_place, luv_place, squares_between};

use cie::{Colour, LabUnits, LuvUnits};

// A place in one of the spaces: L and its pair of coordinates.
#[derive(Clone, Copy, Debug, PartialEq, Eq)]
struct Place {
    l: u32,
    p: i32,
    q: i32,
}

fn lab_place(c: Colour) -> Place
    ensures { result ≡ lab_place c }
{
    Place {
        l: c.l,
        p: c.a,
        q: c.b,
    }
}

fn luv_place(c: Colour) -> Place
    ensures { result ≡ luv_place c }
{
    Place {
        l: c.l,
        p: c.u,
        q: c.v,
    }
}

// The length of the way from one place to another, down.
fn length_between(m: Place, n: Place) -> u32
    requires { squares_between m n < 2 ^ 64 }
    ensures { result ≡ square_root (squares_between m n) }
{
    let l = signed::distance_of(m.l, n.l) as u64;
    let p = signed::apart_of(m.p, n.p) as u64;
    let q = signed::apart_of(m.q, n.q) as u64;
    wide::roots::square_root(l * l + p * p + q * q)
}

// E in CIELAB.
pub fn lab_difference(p: Colour, q: Colour) -> LabUnits
    requires { Sized p × Sized q }
    ensures { result ≡ lab_difference p q }
{
    LabUnits(length_between(lab_place(p), lab_place(q)))
}

// E in CIELUV.
pub fn luv_difference(p: Colour, q: Colour) -> LuvUnits
    requires { Sized p × Sized q }
    ensures { result ≡ luv_difference p q }
{
    LuvUnits(length_between(luv_place(p), luv_place(q)))
}
