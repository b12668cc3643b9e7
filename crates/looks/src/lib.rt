// The calls that only look. A look is given the conditions and what stands beside them: it is given no session, so it cannot move one.
#![tactic(auto)]

ghost use Rattle.std.specs.Prelude.{◌≡◌};
ghost use Rattle.trials.specs.Tried.{ValidStanding};
ghost use Rattle.looks.specs.Look.{preview, nearest};
ghost use Rattle.looks.specs.Looked.{seen_answer, looked_by};

use book_search::NearestAnswer;
use causes::Cause;
use conditions::Conditions;
use trials::{Standing, TrialAnswer};

// What a look shows.
#[derive(Clone, Copy, Debug, PartialEq, Eq)]
pub enum Seen {
    Previewed(TrialAnswer),
    Nearest(NearestAnswer),
}

// What a trial of a spectrum for a table would answer.
pub fn preview(
    conditions: &Conditions,
    standing: Standing,
    table: u32,
    readings: &[u16],
) -> Result<Seen, Cause>
    requires { ValidStanding conditions.now standing }
    ensures { seen_answer result ≡ looked_by conditions.now standing (preview table readings.now) }
{
    let tried = trials::tried_under(conditions, standing, table, readings);
    Ok(Seen::Previewed(tried.found?))
}

// The shade of a book nearest to a swatch in CIELAB, after so many full comparisons at most.
pub fn nearest(
    conditions: &Conditions,
    standing: Standing,
    budget: u32,
    swatch: &[u16],
    book: &[u8],
) -> Result<Seen, Cause>
    requires { ValidStanding conditions.now standing }
    ensures { seen_answer result ≡ looked_by conditions.now standing (nearest budget swatch.now book.now) }
{
    let found = book_search::search(conditions, standing.opened, budget, swatch, book);
    Ok(Seen::Nearest(found?))
}
