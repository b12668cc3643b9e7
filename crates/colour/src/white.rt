// The white beside which a colour is found.
ghost use Rattle.std.specs.Prelude.{◌≡◌};
ghost use Rattle.cie.specs.Sums.{White};
ghost use Rattle.colour.specs.White.{white_point_of};

use crate::ratios::{U_FACTOR, V_FACTOR, prime, uv_under};
use cie::Sums;

// The sums of the white, with its u' and v' × 10,000,000.
#[derive(Clone, Copy, Debug, PartialEq, Eq)]
pub struct WhitePoint {
    pub sums: Sums,
    pub u: u32,
    pub v: u32,
}

pub fn white_point(w: Sums) -> WhitePoint
    requires { White w }
    ensures { result ≡ white_point_of w }
{
    let under = uv_under(w);
    WhitePoint {
        sums: w,
        u: prime(U_FACTOR, w.x, under),
        v: prime(V_FACTOR, w.y, under),
    }
}
