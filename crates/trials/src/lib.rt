// A trial worked out, apart from where a session lies: it is given the conditions and what stands beside them, and no session. A trial and a
// preview of one are both worked out here.
#![tactic(auto)]

ghost use Rattle.std.specs.Prelude.{◌≡◌};
ghost use Rattle.conditions.specs.Lent.{conditions_lent};
ghost use Rattle.tallies.specs.Tallies.{Within};
ghost use Rattle.trials.specs.Tried.{ValidStanding, tried_answer, tried_by, tallies_after};

use causes::Cause;
use cie::spectrum::FRAME_LIMIT;
use cie::{Colour, Verdict};
use conditions::lent::Lent;
use conditions::{Conditions, measure};
use rules::standing::stands;
use rules::{Units, judging};
use tallies::TableTallies;

// What a session holds beside its conditions.
#[derive(Clone, Copy, Debug, PartialEq, Eq)]
pub struct Standing {
    pub opened: bool,
    pub standard: Option<Colour>,
    pub tolerance: Option<Units>,
    pub tallies: TableTallies,
}

// What a trial answers: its colour, E in the tolerance's space, and the verdict.
#[derive(Clone, Copy, Debug, PartialEq, Eq)]
pub struct TrialAnswer {
    pub colour: Colour,
    pub difference: Units,
    pub verdict: Verdict,
}

// A trial's answer, or the cause against it, beside the tallies after it.
#[derive(Clone, Copy, Debug, PartialEq, Eq)]
pub struct Tried {
    pub found: Result<TrialAnswer, Cause>,
    pub tallies: TableTallies,
}

// What a trial for a table finds of a spectrum under conditions, which are lent.
fn tried_by(
    standing: Standing,
    table: u32,
    readings: &[u16],
    lent: Lent<'_>,
) -> Result<TrialAnswer, Cause>
    requires { ValidStanding (conditions_lent lent) standing }
    ensures { tried_answer result ≡ tried_by (conditions_lent lent.entry) standing table readings.now }
{
    stands(
        table,
        standing.opened,
        standing.standard,
        standing.tolerance,
        standing.tallies,
    )?;
    let measured = measure::measure(readings, FRAME_LIMIT, lent.rows, lent.weights);
    // docs/DECISIONS.md fixes this form: `let .. else` on the measuring answer, and not `?`.
    let Ok(sums) = measured else {
        return Err(measured.unwrap_err());
    };
    let colour = colour::colour_of(sums, lent.white);
    let judged = judging::judge(standing.standard, standing.tolerance, colour);
    let judgement = judged.ok_or(Cause::NoTolerance)?;
    Ok(TrialAnswer {
        colour,
        difference: judgement.e,
        verdict: judgement.verdict,
    })
}

// The tallies after what a trial for a table finds.
fn tallied_by(tallies: TableTallies, table: u32, found: Result<TrialAnswer, Cause>) -> TableTallies
    requires { Within tallies.sets }
    ensures { result ≡ tallies_after tallies table (tried_answer found) }
{
    match found {
        Ok(trial) => tallies.tallied(table, trial.verdict),
        Err(_) => tallies,
    }
}

// A trial for a table under conditions, which lend their weights.
pub fn tried_under(
    conditions: &Conditions,
    standing: Standing,
    table: u32,
    readings: &[u16],
) -> Tried
    requires { ValidStanding conditions.now standing }
    ensures found_value { tried_answer result.found ≡ tried_by conditions.now standing table readings.now }
    ensures tallies_value { result.tallies ≡ tallies_after standing.tallies table (tried_by conditions.now standing table readings.now) }
{
    let found = tried_by(standing, table, readings, conditions.lend());
    Tried {
        found,
        tallies: tallied_by(standing.tallies, table, found),
    }
}
