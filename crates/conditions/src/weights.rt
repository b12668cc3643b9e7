// Weights, and the sums of readings by them.
ghost use Rattle.std.specs.Prelude.{◌≡◌, ◌+◌, ◌≤◌, length};
ghost use Rattle.cie.specs.Spacing.{most_rows};
ghost use Rattle.conditions.specs.Weights.{weights_of, dot, dots, white_readings, Spectrum, Weights as Column, Begun};

use crate::lent::Weights;
use cie::Sums;
use cie::spacing::MOST_ROWS;

pub const WHITE_READING: u16 = 10000;

// Illuminant × column, row by row, and zeros past the last row.
pub fn weights_of(illuminant: &[u32], column: &[u32]) -> [u64; MOST_ROWS]
    requires { (length illuminant.now ≤ most_rows) × (length column.now ≡ length illuminant.now) }
    ensures { result ≡ weights_of illuminant.now column.now }
{
    let mut weights = [0; MOST_ROWS];
    // by index: what is stored through an adapter of `iter_mut` is not known
    for (i, &entry) in illuminant.iter().enumerate() {
        weights[i] = entry as u64 * column[i] as u64;
    }
    weights
}

// The sums with some rows more, from a row on.
fn with_rows(s: Sums, first: usize, count: usize, readings: &[u16], weights: Weights<'_>) -> Sums
    requires { Begun readings.now weights.x.now weights.y.now weights.z.now s first × (first + count ≤ length readings.now) }
    ensures { Begun readings.now weights.entry.x.now weights.entry.y.now weights.entry.z.now result (first + count) }
{
    let Weights { x, y, z } = weights;
    let mut sums = s;
    for row in first..first + count {
        sums = sums.with_row(readings[row] as u64, x[row], y[row], z[row]);
    }
    sums
}

// The rows of a turn, which the compiler writes out; counted, one plain loop takes half as many instructions more, and a `zip` three quarters more.
// 81 rows are four turns and a row, 41 are two and a row.
const TURN: usize = 20;

// The three sums of reading × weight over the readings' own rows, in one pass.
pub fn sums_of(readings: &[u16], weights: Weights<'_>) -> Sums
    requires { Spectrum readings.now }
    ensures { result ≡ dots weights.entry.x.now weights.entry.y.now weights.entry.z.now readings.now }
{
    let mut sums = Sums { x: 0, y: 0, z: 0 };
    let turns = readings.len() / TURN;
    for turn in 0..turns {
        sums = with_rows(sums, TURN * turn, TURN, readings, weights);
    }
    with_rows(sums, TURN * turns, readings.len() % TURN, readings, weights)
}

// The sum of reading × weight over the readings' own rows, by one column.
pub fn sum_of(readings: &[u16], ws: &[u64]) -> u64
    requires { Spectrum readings.now × Column ws.now }
    ensures { result ≡ dot readings.now ws.now }
{
    let mut sum = 0;
    // by index, which counts fewer instructions than a `zip`
    for (i, &r) in readings.iter().enumerate() {
        sum += r as u64 * ws[i];
    }
    sum
}

// The sums with every reading that of the white.
pub fn white_of<'a>(x: &'a [u64], y: &'a [u64], z: &'a [u64]) -> Sums
    requires { Column x.now × Column y.now × Column z.now }
    ensures { result ≡ dots x.now y.now z.now white_readings }
{
    sums_of(&[WHITE_READING; MOST_ROWS], Weights { x, y, z })
}
