// Verdicts counted by inspection table: three tallies for each of the eight that feed the frame.
#![tactic(auto)]

ghost use Rattle.std.specs.Prelude.{◌≡◌, ◌≤◌};
ghost use Rattle.tallies.specs.ByTable.{is_table, table_limit, is_full};
ghost use Rattle.tallies.specs.Tallies.{no_sets, tally_sum, tallied_by, set_of, tallied_for, Within};

use cie::Verdict;

// The tables are numbered from 1 to this.
const TABLES: u32 = 8;

// The most trials of a table.
const TABLE_LIMIT: u32 = 100000;

// How many trials were given each verdict.
#[derive(Clone, Copy, Debug, PartialEq, Eq)]
pub struct Tallies {
    pub passed: u32,
    pub failed: u32,
    pub line: u32,
}

// Those of a table before its first trial.
const NONE: Tallies = Tallies {
    passed: 0,
    failed: 0,
    line: 0,
};

// A set of tallies for each table, that of table 1 first. `Within` is asked in clauses, and is no ghost field: definitions of specs/, as
// `tallies_after` of trials, make this struct of any sets.
#[derive(Clone, Copy, Debug, PartialEq, Eq)]
pub struct TableTallies {
    sets: [Tallies; 8],
}

// Whether a number is a table's.
pub fn is_table(table: u32) -> bool
    ensures { result ≡ is_table table }
{
    (1..=TABLES).contains(&table)
}

// The tallies with the verdict's raised by 1.
fn raised(t: Tallies, verdict: Verdict) -> Tallies
    requires { tally_sum t ≤ table_limit }
    ensures { result ≡ tallied_by verdict t }
{
    match verdict {
        Verdict::Pass => Tallies {
            passed: t.passed + 1,
            ..t
        },
        Verdict::Fail => Tallies {
            failed: t.failed + 1,
            ..t
        },
        Verdict::OnTheLine => Tallies {
            line: t.line + 1,
            ..t
        },
    }
}

impl TableTallies {
    // Tallies of 0 for each table.
    pub fn none() -> TableTallies
        ensures { result.sets ≡ no_sets }
    {
        TableTallies { sets: [NONE; 8] }
    }

    // The tallies of a table, or tallies of 0 where there is no such table.
    fn of(self, table: u32) -> Tallies
        requires { Within self.sets }
        ensures { result ≡ set_of self.sets table }
    {
        if !is_table(table) {
            return NONE;
        }
        self.sets[(table - 1) as usize]
    }

    // Whether a table takes no more trials.
    pub fn is_full(self, table: u32) -> bool
        requires { Within self.sets }
        ensures { result ≡ is_full (tally_sum (set_of self.sets table)) }
    {
        let t = self.of(table);
        t.passed + t.failed + t.line == TABLE_LIMIT
    }

    // The verdict is tallied for a table; where there is no such table, nothing is.
    pub fn tallied(self, table: u32, verdict: Verdict) -> TableTallies
        requires { Within self.sets }
        ensures { result.sets ≡ tallied_for self.sets table verdict }
    {
        if !is_table(table) {
            return self;
        }
        let mut sets = self.sets;
        let place = (table - 1) as usize;
        sets[place] = raised(sets[place], verdict);
        TableTallies { sets }
    }

    // All sets, that of table 1 first.
    pub fn each(self) -> [Tallies; 8]
        ensures { result ≡ self.sets }
    {
        self.sets
    }
}
