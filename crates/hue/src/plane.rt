// Chroma and hue difference in the plane of one space.
ghost use Rattle.std.specs.Prelude.{◌≡◌, ◌^◌, ◌<◌, pos, nat_abs, ◌*ℤ◌};
ghost use Rattle.std.specs.Int.Signed.{lt_z};
ghost use Rattle.hue.specs.Hue.{chroma_difference, hue_square, turn, hue_difference};
ghost use Rattle.hue.specs.InPlane.{InPlane};

// What a colour has in a plane: a and b, or u and v, and the chroma of that pair.
#[derive(Clone, Copy, Debug, PartialEq, Eq)]
pub struct PlaneColour {
    pub p: i32,
    pub q: i32,
    pub chroma: u32,
}

// Chroma difference and hue difference, trial minus standard.
#[derive(Clone, Copy, Debug, PartialEq, Eq)]
pub struct PlaneShift {
    pub chroma: i32,
    pub hue: i32,
}

// The two squared plane differences less the squared chroma difference, or 0.
#[tactic(auto, using(crate::proofs::Sizes::left_is))]
fn hue_square(standard: PlaneColour, trial: PlaneColour) -> u64
    requires { InPlane standard × InPlane trial }
    ensures { result ≡ hue_square standard trial }
{
    let p = signed::apart_of(standard.p, trial.p) as u64;
    let q = signed::apart_of(standard.q, trial.q) as u64;
    let c = signed::distance_of(standard.chroma, trial.chroma) as u64;
    (p * p + q * q).saturating_sub(c * c)
}

// x × y, which 64 bits hold and 32 do not.
fn product(x: i32, y: i32) -> i64
    requires { (nat_abs x < 2 ^ 27) × (nat_abs y < 2 ^ 27) }
    ensures { result ≡ x *ℤ y }
{
    x as i64 * y as i64
}

// Whether the turn from the standard to the trial is below 0.
fn is_negative(standard: PlaneColour, trial: PlaneColour) -> bool
    requires { InPlane standard × InPlane trial }
    ensures { result ≡ lt_z (turn standard trial) (pos 0) }
{
    product(standard.p, trial.q) - product(trial.p, standard.q) < 0
}

fn hue_difference(standard: PlaneColour, trial: PlaneColour) -> i32
    requires { InPlane standard × InPlane trial }
    ensures { result ≡ hue_difference standard trial }
{
    let size = wide::roots::square_root(hue_square(standard, trial)) as i32;
    if is_negative(standard, trial) {
        -size
    } else {
        size
    }
}

// The chroma and hue differences of a trial and its standard in one plane.
pub fn shift_in(standard: PlaneColour, trial: PlaneColour) -> PlaneShift
    requires { InPlane standard × InPlane trial }
    ensures { (result.chroma ≡ chroma_difference standard trial) × (result.hue ≡ hue_difference standard trial) }
{
    PlaneShift {
        chroma: signed::minus(trial.chroma, standard.chroma),
        hue: hue_difference(standard, trial),
    }
}
