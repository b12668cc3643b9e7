// The sums and the white of a built-in light, straight from the tables: nothing is prepared.
#![tactic(auto)]

ghost use Rattle.std.specs.Prelude.{◌≡◌, false, ◌≤◌, length};
ghost use Rattle.cie.specs.Spacing.{unknown_spacing, rows_at};
ghost use Rattle.cie.specs.Sums.{sums_of, white_of};
ghost use Rattle.cie.specs.Lights.{unknown_light, light_tables};
ghost use Rattle.cie.specs.Colour.{colour_at};
ghost use Rattle.colour.specs.White.{white_point_of};
ghost use Rattle.colour.specs.Coordinates.{coordinates_in};
ghost use Rattle.conditions.specs.Weights.{Spectrum};
ghost use Rattle.lights.specs.Lights.{illuminant_of, stride_at, Whole, tables_at};

use cie::spacing::COARSE_SPACING;
use cie::tables::{LIGHT_A, LIGHT_D65};
use cie::{Sums, tables};
use colour::Coordinates;
use colour::white::WhitePoint;

// The whites of the lights at 5 and at 10 nm.
const WHITE_A_5: WhitePoint = WhitePoint {
    sums: Sums {
        x: 237043586599130000,
        y: 215790412893640000,
        z: 76783571561500000,
    },
    u: 2559692,
    v: 5242933,
};

const WHITE_A_10: WhitePoint = WhitePoint {
    sums: Sums {
        x: 118503725192670000,
        y: 107896313444390000,
        z: 38352454529500000,
    },
    u: 2559467,
    v: 5243324,
};

const WHITE_D65_5: WhitePoint = WhitePoint {
    sums: Sums {
        x: 200869027493870000,
        y: 211345495097400000,
        z: 230113095117000000,
    },
    u: 1978327,
    v: 4683394,
};

const WHITE_D65_10: WhitePoint = WhitePoint {
    sums: Sums {
        x: 100414896124890000,
        y: 105680539771210000,
        z: 114993917590100000,
    },
    u: 1978029,
    v: 4683948,
};

// Whether a light is neither.
pub fn is_unknown(light: u32) -> bool
    ensures { result ≡ unknown_light light }
{
    !matches!(light, LIGHT_A | LIGHT_D65)
}

// How many rows of a table lie between two of a spacing's.
#[tactic(auto, unfolding(crate::specs::Lights::stride_at))]
fn stride_at(spacing: u32) -> usize
    ensures { result ≡ stride_at spacing }
{
    if spacing == COARSE_SPACING { 2 } else { 1 }
}

// An illuminant and the columns of an observer, as they are printed.
#[derive(Clone, Copy)]
struct Tables<'a> {
    illuminant: &'a [u32],
    x: &'a [u32],
    y: &'a [u32],
    z: &'a [u32],
    ghost whole: { Whole illuminant.now x.now y.now z.now },
}

// The sums of a spectrum by tables, at the rows of a spacing.
#[tactic(auto, using(crate::proofs::LightRows::row_within))]
fn sums_by(spacing: u32, readings: &[u16], tables: Tables<'_>) -> Sums
    requires { Spectrum readings.now × (length readings.now ≤ rows_at spacing) }
    ensures { result ≡ sums_of (tables_at spacing tables.entry.illuminant.now tables.entry.x.now tables.entry.y.now tables.entry.z.now) readings.now }
{
    let Tables {
        illuminant,
        x,
        y,
        z,
    } = tables;
    let stride = stride_at(spacing);
    let mut sums = Sums { x: 0, y: 0, z: 0 };
    for (i, &reading) in readings.iter().enumerate() {
        let row = stride * i;
        let r = reading as u64 * illuminant[row] as u64;
        sums = sums.with_row(r, x[row] as u64, y[row] as u64, z[row] as u64);
    }
    sums
}

// The illuminant of a light that is 1 or 2.
fn illuminant_of(light: u32) -> &'static [u32]
    ensures { result.now ≡ illuminant_of light }
{
    if light == LIGHT_A {
        &tables::ILLUMINANT_A
    } else {
        &tables::ILLUMINANT_D65
    }
}

// The sums of a spectrum under a light that is 1 or 2.
fn sums_in(light: u32, spacing: u32, readings: &[u16]) -> Sums
    requires { Spectrum readings.now × (length readings.now ≤ rows_at spacing) }
    ensures { result ≡ sums_of (light_tables light spacing) readings.now }
{
    let tables = Tables {
        illuminant: illuminant_of(light),
        x: &tables::OBSERVER_X,
        y: &tables::OBSERVER_Y,
        z: &tables::OBSERVER_Z,
    };
    sums_by(spacing, readings, tables)
}

// The white of a light that is 1 or 2.
fn white_in(light: u32, spacing: u32) -> WhitePoint
    ensures { result ≡ white_point_of (white_of (light_tables light spacing)) }
{
    match (light, spacing) {
        (LIGHT_A, COARSE_SPACING) => WHITE_A_10,
        (LIGHT_A, _) => WHITE_A_5,
        (_, COARSE_SPACING) => WHITE_D65_10,
        _ => WHITE_D65_5,
    }
}

// The coordinates of a spectrum under a light that is 1 or 2.
pub fn coordinates_in(light: u32, spacing: u32, readings: &[u16]) -> Coordinates
    requires { Spectrum readings.now × (length readings.now ≤ rows_at spacing) × (unknown_spacing spacing ≡ false) }
    ensures { result ≡ coordinates_in (colour_at (light_tables light spacing) readings.now) }
{
    let sums = sums_in(light, spacing, readings);
    colour::coordinates_of(sums, white_in(light, spacing))
}
