// What stands: the checks of a trial before its spectrum is looked at.
ghost use Rattle.std.specs.Prelude.{◌≡◌};
ghost use Rattle.causes.specs.Checks.{first_of};
ghost use Rattle.tallies.specs.ByTable.{is_full};
ghost use Rattle.tallies.specs.Tallies.{tally_sum, set_of, Within};
ghost use Rattle.rules.specs.Standing.{standing_checks};
ghost use Rattle.rules.specs.Rules.{has_standard, has_tolerance};

use crate::Units;
use causes::Cause;
use cie::Colour;
use tallies::{TableTallies, is_table};

// The first of the checks 18, 6, 7, 8 and 10 of a trial for a table that holds.
#[tactic(auto, unfolding(causes::specs::Checks::first_of))]
pub fn stands(
    table: u32,
    opened: bool,
    standard: Option<Colour>,
    tolerance: Option<Units>,
    tallies: TableTallies,
) -> Result<(), Cause>
    requires { Within tallies.sets }
    ensures { result ≡ first_of (standing_checks table opened (has_standard standard) (has_tolerance tolerance) (is_full (tally_sum (set_of tallies.sets table)))) }
{
    if !is_table(table) {
        return Err(Cause::NoSuchTable);
    }
    if !opened {
        return Err(Cause::NoConditions);
    }
    if standard.is_none() {
        return Err(Cause::NoStandard);
    }
    if tolerance.is_none() {
        return Err(Cause::NoTolerance);
    }
    if tallies.is_full(table) {
        return Err(Cause::SessionFull);
    }
    Ok(())
}
