// The calls that only look: each gives a copy of the session's conditions, says what stands, and returns the session as it was.
ghost use Rattle.std.specs.Prelude.{◌≡◌};
ghost use Rattle.looks.specs.Look.{preview, nearest};
ghost use Rattle.looks.specs.Looked.{seen_answer};
ghost use Rattle.session.specs.Call.{look};
ghost use Rattle.session.specs.Served.{Valid, shown, seen_by};
ghost use Rattle.session.specs.Meets.{Meets};

use crate::{Answer, Served, Session};
use causes::Cause;
use looks::Seen;

impl Session {
    // The session as it was, and what a look shows of it.
    fn seen(self, seen: Result<Seen, Cause>) -> Served
        ensures { shown result ≡ seen_by self (seen_answer seen) }
    {
        Served {
            session: self,
            answer: Ok(Answer::Seen(seen)),
        }
    }

    // Shows what a trial of a spectrum for a table would answer, and tallies nothing.
    pub fn preview(self, table: u32, readings: &[u16]) -> Served
        requires { Valid self }
        ensures { Meets self (look (preview table readings.now)) result }
    {
        let conditions = self.conditions;
        self.seen(looks::preview(&conditions, self.standing(), table, readings))
    }

    // Shows the shade of a book nearest to a swatch in CIELAB, after so many full comparisons at most.
    pub fn nearest(self, budget: u32, swatch: &[u16], book: &[u8]) -> Served
        requires { Valid self }
        ensures { Meets self (look (nearest budget swatch.now book.now)) result }
    {
        let conditions = self.conditions;
        self.seen(looks::nearest(&conditions, self.standing(), budget, swatch, book))
    }
}
