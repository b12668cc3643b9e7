// The judgement of a trial: E in the tolerance's space, and the verdict on it.
ghost use Rattle.std.specs.Prelude.{◌≡◌};
ghost use Rattle.cie.specs.Verdict.{verdict_of};
ghost use Rattle.cie.specs.Sizes.{Sized};
ghost use Rattle.rules.specs.Rules.{SizedStandard, judged_by, judged_of};

use crate::{Judgement, Units};
use cie::{Colour, Verdict};
use colour::difference;

// How far E must be from the tolerance for a pass or a fail, in CIELAB.
const LAB_MARGIN: u32 = 12;

// The same in CIELUV.
const LUV_MARGIN: u32 = 114;

// The verdict on e at the tolerance t; both may be near the end of a word.
fn verdict_of(margin: u32, e: u32, t: u32) -> Verdict
    ensures { result ≡ verdict_of margin e t }
{
    let g = u64::from(margin);
    let found = u64::from(e);
    let limit = u64::from(t);
    if found + g <= limit {
        return Verdict::Pass;
    }
    if limit + g <= found {
        return Verdict::Fail;
    }
    Verdict::OnTheLine
}

// The difference of the standard's colour and the trial's in the tolerance's space, and its verdict.
fn judged_by(tolerance: Units, standard: Colour, colour: Colour) -> Judgement
    requires { Sized standard × Sized colour }
    ensures { result ≡ judged_by tolerance standard colour }
{
    let (e, margin) = match tolerance {
        Units::Lab(_) => (
            Units::Lab(difference::lab_difference(standard, colour)),
            LAB_MARGIN,
        ),
        Units::Luv(_) => (
            Units::Luv(difference::luv_difference(standard, colour)),
            LUV_MARGIN,
        ),
    };
    Judgement {
        e,
        verdict: verdict_of(margin, e.count(), tolerance.count()),
    }
}

// The judgement of a trial's colour against the standard in force; none where there is no standard or no tolerance.
pub fn judge(
    standard: Option<Colour>,
    tolerance: Option<Units>,
    colour: Colour,
) -> Option<Judgement>
    requires { SizedStandard standard × Sized colour }
    ensures { result ≡ judged_of standard tolerance colour }
{
    Some(judged_by(tolerance?, standard?, colour))
}
