// The standards of document 01: the types that they speak of and the tables that they print. The formulas are in specs/.
#![tactic(auto)]

ghost use Rattle.std.specs.Prelude.{◌≡◌, ◌+◌, ◌*◌, ◌^◌, ◌<◌};
ghost use Rattle.cie.specs.Sums.{with_row};

pub mod spacing;
pub mod spectrum;
pub mod tables;

// X, Y and Z: the sums over the rows of a spectrum, or of the white.
#[derive(Clone, Copy, Debug, PartialEq, Eq)]
pub struct Sums {
    pub x: u64,
    pub y: u64,
    pub z: u64,
}

impl Sums {
    // The sums with a row more.
    pub fn with_row(self, r: u64, x: u64, y: u64, z: u64) -> Sums
        requires { (self.x + r * x < 2 ^ 64) × (self.y + r * y < 2 ^ 64) × (self.z + r * z < 2 ^ 64) }
        ensures { result ≡ with_row self r x y z }
    {
        Sums {
            x: self.x + r * x,
            y: self.y + r * y,
            z: self.z + r * z,
        }
    }
}

// The tristimulus values, in 1/10,000 where the white's Y is 100.
#[derive(Clone, Copy, Debug, PartialEq, Eq)]
pub struct Tristimulus {
    pub x: u32,
    pub y: u32,
    pub z: u32,
}

// The chromaticity x, y, in 1/1,000,000.
#[derive(Clone, Copy, Debug, PartialEq, Eq)]
pub struct Chromaticity {
    pub x: u32,
    pub y: u32,
}

// A colour, L, a, b, u, v and both chromas in 1/10,000; no chromaticity where X + Y + Z is 0.
#[derive(Clone, Copy, Debug, PartialEq, Eq)]
pub struct Colour {
    pub tristimulus: Tristimulus,
    pub chromaticity: Option<Chromaticity>,
    pub l: u32,
    pub a: i32,
    pub b: i32,
    pub u: i32,
    pub v: i32,
    pub cab: u32,
    pub cuv: u32,
}

// A difference or an amount in CIELAB, in 1/10,000.
#[derive(Clone, Copy, Debug, PartialEq, Eq)]
pub struct LabUnits(pub u32);

// A difference or an amount in CIELUV, in 1/10,000.
#[derive(Clone, Copy, Debug, PartialEq, Eq)]
pub struct LuvUnits(pub u32);

// The two spaces of GB/T 7921-1997.
#[derive(Clone, Copy, Debug, PartialEq, Eq, Hash)]
pub enum Space {
    Cielab,
    Cieluv,
}

// What a trial finds.
#[derive(Clone, Copy, Debug, PartialEq, Eq, Hash)]
pub enum Verdict {
    Pass,
    Fail,
    OnTheLine,
}
