// A session that judges trials against a standard: conditions, a standard, a tolerance and three tallies for each
// inspection table, by value.
#![tactic(auto)]

ghost use Rattle.std.specs.Prelude.{◌≡◌};
ghost use Rattle.causes.specs.Causes.{answer_of};
ghost use Rattle.cie.specs.Sums.{tables_of};
ghost use Rattle.session.specs.Call.{open_tables, open_light, set_standard, set_tolerance, trial, report};
ghost use Rattle.session.specs.Served.{Valid, shown, fresh_session, refused_by, opened_by, replied, standing_of};
ghost use Rattle.session.specs.Meets.{Meets};

use causes::Cause;
use cie::spectrum::FRAME_LIMIT;
use cie::{Colour, Space};
use conditions::{Conditions, measure};
use looks::Seen;
use rules::Units;
use tallies::{TableTallies, Tallies};
use trials::{Standing, TrialAnswer};

mod look;

// What holds of every session is the clause `Valid`, and no ghost field: it is the one invariant of the calls, which `Meets` says each of them
// keeps and which the claims about lists of calls speak of. `opened` stands beside the conditions, which are no Option: `fresh_session`
// has conditions that hold nothing, and `trial_checks` takes the flag.
#[derive(Clone, Copy, Debug, PartialEq, Eq)]
pub struct Session {
    conditions: Conditions,
    opened: bool,
    standard: Option<Colour>,
    tolerance: Option<Units>,
    tallies: TableTallies,
}

// What a report answers: the tallies of each table, that of table 1 first.
#[derive(Clone, Copy, Debug, PartialEq, Eq)]
pub struct ReportAnswer {
    pub tallies: [Tallies; 8],
}

// What an accepted call answers. A look's refusal is what it shows.
#[derive(Clone, Copy, Debug, PartialEq, Eq)]
pub enum Answer {
    Accepted,
    Coloured(Colour),
    Tried(TrialAnswer),
    Counted(ReportAnswer),
    Seen(Result<Seen, Cause>),
}

// The session that a call leaves, beside its answer or the cause against it.
#[derive(Clone, Copy, Debug, PartialEq, Eq)]
pub struct Served {
    pub session: Session,
    pub answer: Result<Answer, Cause>,
}

impl Session {
    // A session that holds nothing.
    pub fn fresh() -> Session
        ensures { (result ≡ fresh_session) × Valid result }
    {
        Session {
            conditions: conditions::none(),
            opened: false,
            standard: None,
            tolerance: None,
            tallies: TableTallies::none(),
        }
    }

    fn refused(self, cause: Cause) -> Served
        ensures { shown result ≡ refused_by self cause }
    {
        Served {
            session: self,
            answer: Err(cause),
        }
    }

    // New conditions are in force, and the standard is dropped; or there is a cause against them.
    fn opened(self, prepared: Result<Conditions, Cause>) -> Served
        ensures { shown result ≡ replied self (opened_by self) (answer_of prepared) }
    {
        match prepared {
            Err(cause) => self.refused(cause),
            Ok(conditions) => Served {
                session: Session {
                    conditions,
                    opened: true,
                    standard: None,
                    ..self
                },
                answer: Ok(Answer::Accepted),
            },
        }
    }

    // Opens an illuminant and the three columns of an observer, with the spacing of their rows in nm, 5 or 10.
    pub fn open_tables(
        self,
        spacing: u32,
        illuminant: &[u32],
        x: &[u32],
        y: &[u32],
        z: &[u32],
    ) -> Served
        requires { Valid self }
        ensures { Meets self (open_tables (tables_of spacing illuminant.now x.now y.now z.now)) result }
    {
        self.opened(conditions::prepare(spacing, illuminant, x, y, z))
    }

    // Opens a built-in light at a spacing in nm, 5 or 10: 1 is A, 2 is D65.
    pub fn open_light(self, light: u32, spacing: u32) -> Served
        requires { Valid self }
        ensures { Meets self (open_light light spacing) result }
    {
        self.opened(conditions::prepare_light(light, spacing))
    }

    // Sets the standard, and answers its colour.
    pub fn set_standard(self, readings: &[u16]) -> Served
        requires { Valid self }
        ensures { Meets self (set_standard readings.now) result }
    {
        if !self.opened {
            return self.refused(Cause::NoConditions);
        }
        let lent = self.conditions.lend();
        let measured = measure::measure(readings, FRAME_LIMIT, lent.rows, lent.weights);
        // docs/DECISIONS.md fixes this form: `let .. else` on the measuring answer, and not `?`.
        let Ok(sums) = measured else {
            return self.refused(measured.unwrap_err());
        };
        let colour = colour::colour_of(sums, lent.white);
        Served {
            session: Session {
                standard: Some(colour),
                ..self
            },
            answer: Ok(Answer::Coloured(colour)),
        }
    }

    // Sets the tolerance.
    pub fn set_tolerance(self, space: Space, amount: u32) -> Served
        requires { Valid self }
        ensures { Meets self (set_tolerance space amount) result }
    {
        if rules::off_scale(amount) {
            return self.refused(Cause::ToleranceOffScale);
        }
        Served {
            session: Session {
                tolerance: Some(rules::tolerance_of(space, amount)),
                ..self
            },
            answer: Ok(Answer::Accepted),
        }
    }

    // What the session holds beside its conditions.
    fn standing(self) -> Standing
        ensures { result ≡ standing_of self }
    {
        Standing {
            opened: self.opened,
            standard: self.standard,
            tolerance: self.tolerance,
            tallies: self.tallies,
        }
    }

    // Judges a spectrum against the standard: its colour, E and the verdict, which is tallied for the table.
    #[inline(always)]
    pub fn trial(mut self, table: u32, readings: &[u16]) -> Served
        requires { Valid self }
        ensures { Meets self (trial table readings.now) result }
    {
        // a copy is lent, and not a part of the session: the session then stays where it is, and is not copied three times
        let conditions = self.conditions;
        let tried = trials::tried_under(&conditions, self.standing(), table, readings);
        self.tallies = tried.tallies;
        Served {
            session: self,
            answer: tried.found.map(Answer::Tried),
        }
    }

    // The tallies of each table.
    pub fn report(self) -> Served
        requires { Valid self }
        ensures { Meets self report result }
    {
        let tallies = self.tallies.each();
        Served {
            session: self,
            answer: Ok(Answer::Counted(ReportAnswer { tallies })),
        }
    }
}
