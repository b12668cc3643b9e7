// The checks of tables and of their white.
ghost use Rattle.std.specs.Prelude.{◌≡◌};
ghost use Rattle.cie.specs.Scales.{any_above};
ghost use Rattle.cie.specs.Sums.{dark, lopsided};
ghost use Rattle.conditions.specs.Checks.{any_short, any_off_scale};

use cie::Sums;

const ILLUMINANT_LIMIT: u32 = 3000000;

const COLUMN_LIMIT: u32 = 2000000;

const LOPSIDEDNESS: u64 = 10;

// Whether a table does not have so many rows.
pub fn any_short(rows: usize, illuminant: &[u32], x: &[u32], y: &[u32], z: &[u32]) -> bool
    ensures { result ≡ any_short rows illuminant.now x.now y.now z.now }
{
    illuminant.len() != rows || x.len() != rows || y.len() != rows || z.len() != rows
}

// Whether an entry of the table is above the limit.
fn any_above(table: &[u32], limit: u32) -> bool
    ensures { result ≡ any_above limit table.now }
{
    table.iter().any(|&entry| limit < entry)
}

// Whether an entry of a table is above its limit.
pub fn any_off_scale(illuminant: &[u32], x: &[u32], y: &[u32], z: &[u32]) -> bool
    ensures { result ≡ any_off_scale illuminant.now x.now y.now z.now }
{
    any_above(illuminant, ILLUMINANT_LIMIT)
        || any_above(x, COLUMN_LIMIT)
        || any_above(y, COLUMN_LIMIT)
        || any_above(z, COLUMN_LIMIT)
}

pub fn is_dark(w: Sums) -> bool
    ensures { result ≡ dark w }
{
    w.x == 0 || w.y == 0 || w.z == 0
}

pub fn is_lopsided(w: Sums) -> bool
    ensures { result ≡ lopsided w }
{
    // no word is above what does not fit one
    let most = w.y.saturating_mul(LOPSIDEDNESS);
    most < w.x || most < w.z
}
