// Answers as lines of text on standard output.
ghost use Rattle.std.specs.Prelude.{◌+◌, ◌≤◌};

use crate::sheet::Sheet;
use book_search::NearestAnswer;
use causes::Cause;
use cie::{Chromaticity, Colour, Verdict};
use looks::Seen;
use session::{Answer, ReportAnswer};
use tallies::Tallies;
use trials::TrialAnswer;

// The longest answer, a report, and its line end.
const LONGEST: usize = 272;

fn put_chromaticity(sheet: &mut Sheet<LONGEST>, chromaticity: Option<Chromaticity>)
    requires { sheet.old.end + 22 ≤ LONGEST }
    ensures { sheet.new.end ≤ sheet.old.end + 22 }
{
    match chromaticity {
        Some(c) => sheet.put_fields(&[c.x, c.y]),
        None => sheet.put(b" none none"),
    }
}

// X Y Z x y L a b u v Cab Cuv, each after a space.
fn put_colour(sheet: &mut Sheet<LONGEST>, c: Colour)
    requires { sheet.old.end + 136 ≤ LONGEST }
    ensures { sheet.new.end ≤ sheet.old.end + 136 }
{
    let t = c.tristimulus;
    sheet.put_fields(&[t.x, t.y, t.z]);
    put_chromaticity(sheet, c.chromaticity);
    sheet.put_field(c.l);
    for x in [c.a, c.b, c.u, c.v] {
        sheet.put_signed_field(x);
    }
    sheet.put_fields(&[c.cab, c.cuv]);
}

fn name_of(verdict: Verdict) -> &'static [u8; 4] {
    match verdict {
        Verdict::Pass => b"pass",
        Verdict::Fail => b"fail",
        Verdict::OnTheLine => b"line",
    }
}

fn put_tried(sheet: &mut Sheet<LONGEST>, t: TrialAnswer)
    requires { sheet.old.end + 151 ≤ LONGEST }
    ensures { sheet.new.end ≤ sheet.old.end + 151 }
{
    sheet.put(name_of(t.verdict));
    sheet.put_field(t.difference.count());
    put_colour(sheet, t.colour);
}

fn put_refused(sheet: &mut Sheet<LONGEST>, cause: Cause)
    requires { sheet.old.end + 18 ≤ LONGEST }
    ensures { sheet.new.end ≤ sheet.old.end + 18 }
{
    sheet.put(b"refused");
    sheet.put_field(u32::from(cause));
}

// What a search answers: full comparisons made, the best shade, the gap, and E.
fn put_nearest(sheet: &mut Sheet<LONGEST>, a: NearestAnswer)
    requires { sheet.old.end + 51 ≤ LONGEST }
    ensures { sheet.new.end ≤ sheet.old.end + 51 }
{
    sheet.put(b"nearest");
    sheet.put_fields(&[a.count, a.shade as u32, a.gap.0, a.e.0]);
}

// A look's answer: a preview's is as a trial's.
fn put_seen(sheet: &mut Sheet<LONGEST>, seen: Result<Seen, Cause>)
    requires { sheet.old.end + 151 ≤ LONGEST }
    ensures { sheet.new.end ≤ sheet.old.end + 151 }
{
    match seen {
        Ok(Seen::Previewed(t)) => put_tried(sheet, t),
        Ok(Seen::Nearest(a)) => put_nearest(sheet, a),
        Err(cause) => put_refused(sheet, cause),
    }
}

// The tallies of each table, in the order of their numbers.
fn put_report(sheet: &mut Sheet<LONGEST>, report: ReportAnswer)
    requires { sheet.old.end + 271 ≤ LONGEST }
    ensures { sheet.new.end ≤ sheet.old.end + 271 }
{
    sheet.put(b"tallies");
    for t in report.tallies {
        sheet.put_fields(&[t.passed, t.failed, t.line]);
    }
}

// The answer without its line end.
fn put_answer(sheet: &mut Sheet<LONGEST>, answer: Result<Answer, Cause>)
    requires { sheet.old.end + 271 ≤ LONGEST }
    ensures { sheet.new.end ≤ sheet.old.end + 271 }
{
    match answer {
        Ok(Answer::Accepted) => sheet.put(b"ok"),
        Ok(Answer::Coloured(colour)) => {
            sheet.put(b"colour");
            put_colour(sheet, colour);
        }
        Ok(Answer::Tried(t)) => put_tried(sheet, t),
        Ok(Answer::Counted(r)) => put_report(sheet, r),
        Ok(Answer::Seen(seen)) => put_seen(sheet, seen),
        Err(cause) => put_refused(sheet, cause),
    }
}

pub fn print(rt: &impl Print, answer: Result<Answer, Cause>) {
    let mut sheet = Sheet::new();
    put_answer(&mut sheet, answer);
    sheet.print(rt);
}

pub fn print_unreadable(rt: &impl Print) {
    let _ = rt.write_all(b"unreadable\n");
}
