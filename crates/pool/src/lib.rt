// Pile fabric is measured at several spots: `pool` makes one spectrum of them.
#![tactic(auto)]

ghost use Rattle.std.specs.Prelude.{◌≡◌, ◌<◌, length};
ghost use Rattle.pool.specs.Spots.{off_count, spots_of, at_row, sum_of, pooled_reading, pooled_spectrum, WholeSpots};
ghost use Rattle.pool.specs.Pooling.{pool_answer, pooled, places_after_pool};

use causes::Cause;
use cie::spectrum::FRAME_LIMIT;

// The fewest spots and the most.
const FEWEST_SPOTS: u32 = 2;

pub const MOST_SPOTS: u32 = 16;

// Whether there are too few spots or too many.
fn is_off(count: u32) -> bool
    ensures { result ≡ off_count count }
{
    !(FEWEST_SPOTS..=MOST_SPOTS).contains(&count)
}

// The sum of the spots' readings at a row: they are so many rows apart.
fn sum_at(spots: &[u16], rows: usize, count: u32, row: usize) -> u32
    requires { WholeSpots rows count spots.now × (row < rows) }
    ensures { result ≡ sum_of (at_row (spots_of rows count spots.now) row) }
{
    let mut sum = 0;
    for i in 0..count as usize {
        sum += u32::from(spots[row + rows * i]);
    }
    sum
}

// The pooled reading at a row.
fn pooled_at(spots: &[u16], rows: usize, count: u32, row: usize) -> u16
    requires { WholeSpots rows count spots.now × (row < rows) }
    ensures { result ≡ pooled_reading (at_row (spots_of rows count spots.now) row) }
{
    let sum = sum_at(spots, rows, count, row);
    ((sum + count / 2) / count) as u16
}

// Puts the pooled reading of each row into its place.
fn pool_rows(spots: &[u16], count: u32, places: &mut [u16])
    requires { WholeSpots (length places.old) count spots.now }
    ensures { places.new ≡ pooled_spectrum (length places.old) (spots_of (length places.old) count spots.now) }
{
    let rows = places.len();
    for (row, place) in places.iter_mut().enumerate() {
        *place = pooled_at(spots, rows, count, row);
    }
}

// Pools so many spots, one after another, into as many places as the spacing has rows.
pub fn pool(spacing: u32, count: u32, spots: &[u16], places: &mut [u16]) -> Result<(), Cause>
    ensures result_value { pool_answer result ≡ pooled spacing count spots.now (length places.old) }
    ensures places_after { places.new ≡ places_after_pool spacing count spots.now places.old }
{
    if cie::spacing::is_unknown(spacing) {
        return Err(Cause::UnknownSpacing);
    }
    if is_off(count) {
        return Err(Cause::SpotCount);
    }
    let rows = cie::spacing::rows_at(spacing);
    if spots.len() != rows * count as usize {
        return Err(Cause::ShortTable);
    }
    if places.len() != rows {
        return Err(Cause::ShortTable);
    }
    if cie::spectrum::over_bright(spots, FRAME_LIMIT) {
        return Err(Cause::OverBright);
    }
    pool_rows(spots, count, places);
    Ok(())
}
