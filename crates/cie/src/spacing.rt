// The spacings of the rows of a spectrum or a table, in nm, and how many rows each has.
ghost use Rattle.std.specs.Prelude.{◌≡◌, ◌≤◌, ◌<◌};
ghost use Rattle.cie.specs.Spacing.{unknown_spacing, most_rows, rows_at, spacing_told};

pub const FINE_SPACING: u32 = 5;

pub const COARSE_SPACING: u32 = 10;

// The rows at the fine spacing: no table has more.
pub const MOST_ROWS: usize = 81;

// The rows at the coarse spacing.
pub const COARSE_ROWS: usize = 41;

// The bytes of a reading, and of a spectrum at the coarse spacing.
pub const READING_BYTES: usize = 2;

const COARSE_BYTES: usize = READING_BYTES * COARSE_ROWS;

// Whether a spacing is neither. Numbers of spacings and of lights come from outside, and each call that names one asks this first.
pub fn is_unknown(spacing: u32) -> bool
    ensures { result ≡ unknown_spacing spacing }
{
    !matches!(spacing, FINE_SPACING | COARSE_SPACING)
}

// The rows at a spacing: a number and no enum, since this answers for every number, of which all but 10 have the most rows.
#[tactic(auto, unfolding(crate::specs::Spacing::rows_at))]
pub fn rows_at(spacing: u32) -> usize
    ensures { (result ≡ rows_at spacing) × (0 < result) × (result ≤ most_rows) }
{
    if spacing == COARSE_SPACING {
        COARSE_ROWS
    } else {
        MOST_ROWS
    }
}

// The spacing of a spectrum that has so many bytes.
#[tactic(auto, unfolding(crate::specs::Spacing::spacing_told))]
pub fn told_by(bytes: usize) -> u32
    ensures { result ≡ spacing_told bytes }
{
    if bytes == COARSE_BYTES {
        COARSE_SPACING
    } else {
        FINE_SPACING
    }
}
