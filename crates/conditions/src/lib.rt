// From tables and readings to sums: conditions are tables that pass their checks, prepared once; a spectrum is measured under them.
#![tactic(auto)]

ghost use Rattle.std.specs.Prelude.{◌≡◌, length, take};
ghost use Rattle.cie.specs.Spacing.{most_rows, rows_at};
ghost use Rattle.cie.specs.Sums.{tables_of};
ghost use Rattle.cie.specs.Lights.{observed};
ghost use Rattle.conditions.specs.Conditions.{no_conditions, prepared_of, prepared_light, Sound, Prepares};

use causes::Cause;
use cie::spacing::MOST_ROWS;
use cie::tables::{LIGHT_A, LIGHT_D65};
use cie::{Sums, spacing, tables};
use colour::white;
use colour::white::WhitePoint;

mod checks;
pub mod lent;
pub mod measure;
mod weights;

// The rows of a spectrum at the spacing in force, illuminant × each observer column with zeros past the last row, and the white.
#[derive(Clone, Copy, Debug, PartialEq, Eq)]
pub struct Conditions {
    pub rows: usize,
    pub x: [u64; MOST_ROWS],
    pub y: [u64; MOST_ROWS],
    pub z: [u64; MOST_ROWS],
    pub white: WhitePoint,
}

// What stands where nothing is opened.
pub fn none() -> Conditions
    ensures { (result ≡ no_conditions) × Sound result }
{
    let zeros = [0; MOST_ROWS];
    let unit = weights::WHITE_READING as u64;
    let white = white::white_point(Sums {
        x: unit,
        y: unit,
        z: unit,
    });
    Conditions {
        rows: 0,
        x: zeros,
        y: zeros,
        z: zeros,
        white,
    }
}

// Conditions from an illuminant and the three columns of an observer, with the spacing of their rows.
pub fn prepare(
    spacing: u32,
    illuminant: &[u32],
    x: &[u32],
    y: &[u32],
    z: &[u32],
) -> Result<Conditions, Cause>
    ensures { Prepares (prepared_of (tables_of spacing illuminant.now x.now y.now z.now)) result }
{
    if spacing::is_unknown(spacing) {
        return Err(Cause::UnknownSpacing);
    }
    let rows = spacing::rows_at(spacing);
    if checks::any_short(rows, illuminant, x, y, z) {
        return Err(Cause::ShortTable);
    }
    if checks::any_off_scale(illuminant, x, y, z) {
        return Err(Cause::OffScaleCondition);
    }
    let wx = weights::weights_of(illuminant, x);
    let wy = weights::weights_of(illuminant, y);
    let wz = weights::weights_of(illuminant, z);
    let white = weights::white_of(&wx, &wy, &wz);
    if checks::is_dark(white) {
        return Err(Cause::DarkWhite);
    }
    if checks::is_lopsided(white) {
        return Err(Cause::LopsidedWhite);
    }
    Ok(Conditions {
        rows,
        x: wx,
        y: wy,
        z: wz,
        white: white::white_point(white),
    })
}

// Conditions of a built-in illuminant, held in an array, with the 1931 observer.
fn prepare_observed(spacing: u32, illuminant: [u32; MOST_ROWS]) -> Result<Conditions, Cause>
    requires { length illuminant ≡ most_rows }
    ensures { Prepares (prepared_of (observed spacing (take (rows_at spacing) illuminant))) result }
{
    let rows = spacing::rows_at(spacing);
    let x = tables::observer_x(spacing);
    let y = tables::observer_y(spacing);
    let z = tables::observer_z(spacing);
    prepare(
        spacing,
        &illuminant[..rows],
        &x[..rows],
        &y[..rows],
        &z[..rows],
    )
}

// Conditions of a built-in light at a spacing: 1 is A, 2 is D65, each with the 1931 observer.
pub fn prepare_light(light: u32, spacing: u32) -> Result<Conditions, Cause>
    ensures { Prepares (prepared_light light spacing) result }
{
    if spacing::is_unknown(spacing) {
        return Err(Cause::UnknownSpacing);
    }
    match light {
        LIGHT_A => prepare_observed(spacing, tables::illuminant_a(spacing)),
        LIGHT_D65 => prepare_observed(spacing, tables::illuminant_d65(spacing)),
        _ => Err(Cause::NoSuchLight),
    }
}
