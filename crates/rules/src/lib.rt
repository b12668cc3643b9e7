// What the calls decide by: the tolerance, what must stand before a trial, the verdict.
#![tactic(auto)]

ghost use Rattle.std.specs.Prelude.{◌≡◌, ltb};
ghost use Rattle.rules.specs.Standing.{tolerance_limit};
ghost use Rattle.rules.specs.Rules.{tolerance_of, units_of};

use cie::{LabUnits, LuvUnits, Space, Verdict};

pub mod judging;
pub mod standing;

// An amount in one of the two spaces: that of a tolerance, or E in the tolerance's space.
#[derive(Clone, Copy, Debug, PartialEq, Eq)]
pub enum Units {
    Lab(LabUnits),
    Luv(LuvUnits),
}

// E and its verdict.
#[derive(Clone, Copy, Debug, PartialEq, Eq)]
pub struct Judgement {
    pub e: Units,
    pub verdict: Verdict,
}

// The largest amount of a tolerance.
const TOLERANCE_LIMIT: u32 = 1000000;

// Whether an amount is too large for a tolerance.
pub fn off_scale(amount: u32) -> bool
    ensures { result ≡ ltb tolerance_limit amount }
{
    TOLERANCE_LIMIT < amount
}

pub fn tolerance_of(space: Space, amount: u32) -> Units
    ensures { result ≡ tolerance_of space amount }
{
    match space {
        Space::Cielab => Units::Lab(LabUnits(amount)),
        Space::Cieluv => Units::Luv(LuvUnits(amount)),
    }
}

impl Units {
    // The amount, whatever its space.
    pub fn count(self) -> u32
        ensures { result ≡ units_of self }
    {
        match self {
            Units::Lab(amount) => amount.0,
            Units::Luv(amount) => amount.0,
        }
    }
}
