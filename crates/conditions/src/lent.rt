// Conditions as they are lent: so many rows, the weights, and the white.
ghost use Rattle.conditions.specs.Weights.{Weights as Column};
ghost use Rattle.conditions.specs.Conditions.{conditions_by, Sound};

use crate::Conditions;
use colour::white::WhitePoint;

// Illuminant × each observer column, with zeros past the last row.
#[derive(Clone, Copy)]
pub struct Weights<'a> {
    pub x: &'a [u64],
    pub y: &'a [u64],
    pub z: &'a [u64],
    pub ghost by_x: { Column x.now },
    pub ghost by_y: { Column y.now },
    pub ghost by_z: { Column z.now },
}

// All that a measuring goes by; its soundness goes with it.
#[derive(Clone, Copy)]
pub struct Lent<'a> {
    pub rows: usize,
    pub weights: Weights<'a>,
    pub white: WhitePoint,
    pub ghost sound: { Sound (conditions_by rows weights.x.now weights.y.now weights.z.now white) },
}

impl Conditions {
    ghost use Rattle.std.specs.Prelude.{◌≡◌};
    ghost use Rattle.conditions.specs.Lent.{conditions_lent};

    // The conditions, lent.
    pub fn lend(&self) -> Lent<'_>
        requires { Sound self.now }
        ensures { conditions_lent result ≡ self.now }
    {
        Lent {
            rows: self.rows,
            weights: Weights {
                x: &self.x,
                y: &self.y,
                z: &self.z,
            },
            white: self.white,
        }
    }
}
