// Measuring a spectrum under conditions.
ghost use Rattle.std.specs.Prelude.{◌≡◌, ◌≤◌, ◌<◌};
ghost use Rattle.causes.specs.Causes.{answer_of};
ghost use Rattle.cie.specs.Spacing.{most_rows};
ghost use Rattle.cie.specs.Scales.{reader_limit};
ghost use Rattle.cie.specs.Colour.{lightness_at};
ghost use Rattle.conditions.specs.Weights.{dot, white_readings, Spectrum, Weights as Column};
ghost use Rattle.conditions.specs.Measure.{measured_by, colour_under};
ghost use Rattle.conditions.specs.Lent.{conditions_lent};

use crate::lent::{Lent, Weights};
use crate::weights;
use causes::Cause;
use cie::{Colour, Sums};

// The sums of a spectrum, of so many rows, by the weights of conditions; a reading above the limit is over-bright.
pub fn measure(
    readings: &[u16],
    limit: u16,
    rows: usize,
    weights: Weights<'_>,
) -> Result<Sums, Cause>
    requires { (limit ≤ reader_limit) × (rows ≤ most_rows) }
    ensures { answer_of result ≡ measured_by limit rows weights.entry.x.now weights.entry.y.now weights.entry.z.now readings.now }
{
    if readings.len() != rows {
        return Err(Cause::ShortTable);
    }
    if cie::spectrum::over_bright(readings, limit) {
        return Err(Cause::OverBright);
    }
    Ok(weights::sums_of(readings, weights))
}

// The colour of a spectrum by the weights and the white of conditions.
pub fn colour_by(readings: &[u16], lent: Lent<'_>) -> Colour
    requires { Spectrum readings.now }
    ensures { result ≡ colour_under (conditions_lent lent.entry) readings.now }
{
    colour::colour_of(weights::sums_of(readings, lent.weights), lent.white)
}

// L of a spectrum by the weights of y and the white's Y alone.
pub fn lightness_by(readings: &[u16], yn: u64, y: &[u64]) -> u32
    requires { Spectrum readings.now × Column y.now × (dot white_readings y.now ≤ yn) × (0 < yn) }
    ensures { result ≡ lightness_at 1 (dot readings.now y.now) yn }
{
    colour::lightness(weights::sum_of(readings, y), yn)
}
