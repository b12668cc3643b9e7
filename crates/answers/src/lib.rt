// Answers as records of thirty-two words. specs/Answers.antt lays them out.
#![tactic(auto)]

ghost use Rattle.std.specs.Prelude.{◌≡◌, ◌≤◌, [], ◌∷◌, ◌++◌, length};
ghost use Rattle.std.proofs.lemmas.List.Edits.{sets};
ghost use Rattle.causes.specs.Causes.{cause_number};
ghost use Rattle.trials.specs.Tried.{amount_of, trial_outcome};
ghost use Rattle.book_search.specs.Searching.{nearest_outcome};
ghost use Rattle.looks.specs.Looked.{seen_answer};
ghost use Rattle.session.specs.declared.Answer.TheVariants.{Counted};
ghost use Rattle.session.specs.Outcome.{seen};
ghost use Rattle.session.specs.Served.{outcome_of};
ghost use Rattle.answers.specs.Answers.{answer_words, chromaticity_words, space_word, verdict_word, colour_words, trial_words, nearest_words, padded, refused_record, answer_record};

use book_search::NearestAnswer;
use causes::Cause;
use cie::{Chromaticity, Colour, Verdict};
use looks::Seen;
use rules::Units;
use session::{Answer, ReportAnswer};
use trials::TrialAnswer;

pub const ANSWER_WORDS: usize = 32;

// The words, and zeros up to the length of an answer.
fn padded(words: &[u32]) -> [u32; ANSWER_WORDS]
    requires { length words.now ≤ answer_words }
    ensures { result ≡ padded words.now }
{
    let mut record = [0u32; ANSWER_WORDS];
    record[..words.len()].copy_from_slice(words);
    record
}

// Whether a chromaticity is there, and its x and y.
fn place_of(chromaticity: Option<Chromaticity>) -> (u32, u32, u32)
    ensures { (result.0 ∷ result.1 ∷ result.2 ∷ []) ≡ chromaticity_words chromaticity }
{
    match chromaticity {
        None => (0, 0, 0),
        Some(Chromaticity { x, y }) => (1, x, y),
    }
}

// A function, and no `From`: `Verdict` and `u32` are both of other crates.
fn verdict_word(v: Verdict) -> u32
    ensures { result ≡ verdict_word v }
{
    match v {
        Verdict::Pass => 0,
        Verdict::Fail => 1,
        Verdict::OnTheLine => 2,
    }
}

// The space of a difference, and its units.
fn amount_of(e: Units) -> (u32, u32)
    ensures { (result.0 ≡ space_word (amount_of e).space) × (result.1 ≡ (amount_of e).units) }
{
    match e {
        Units::Lab(units) => (0, units.0),
        Units::Luv(units) => (1, units.0),
    }
}

// The words of an answer that has a colour.
fn colour_words(kind: u32, c: Colour, amount: (u32, u32), verdict: u32) -> [u32; ANSWER_WORDS]
    ensures { result ≡ padded (kind ∷ (colour_words c ++ (amount.0 ∷ amount.1 ∷ verdict ∷ []))) }
{
    let (there, x, y) = place_of(c.chromaticity);
    padded(&[
        kind,
        c.tristimulus.x,
        c.tristimulus.y,
        c.tristimulus.z,
        there,
        x,
        y,
        c.l,
        endian::bits(c.a),
        endian::bits(c.b),
        endian::bits(c.u),
        endian::bits(c.v),
        c.cab,
        c.cuv,
        amount.0,
        amount.1,
        verdict,
    ])
}

// The words of a colour alone: zeros stand in the place of E and the verdict.
fn coloured_words(colour: Colour) -> [u32; ANSWER_WORDS]
    ensures { result ≡ padded (1 ∷ colour_words colour) }
{
    colour_words(1, colour, (0, 0), 0)
}

// The words of a trial's answer, or of a preview's, by its kind.
fn trial_words(kind: u32, t: TrialAnswer) -> [u32; ANSWER_WORDS]
    ensures { result ≡ padded (kind ∷ trial_words (trial_outcome t)) }
{
    colour_words(
        kind,
        t.colour,
        amount_of(t.difference),
        verdict_word(t.verdict),
    )
}

// The words of a report's answer: the tallies of table 1, of table 2, and so on.
#[tactic(auto, using(crate::proofs::Laid::report_more))]
fn report_words(report: ReportAnswer) -> [u32; ANSWER_WORDS]
    ensures { result ≡ answer_record (outcome_of (Ok (Counted report))) }
{
    let mut words = [0u32; ANSWER_WORDS];
    words[0] = 3;
    for (i, set) in report.tallies.iter().enumerate() {
        words[3 * i + 1] = set.passed;
        words[3 * i + 2] = set.failed;
        words[3 * i + 3] = set.line;
    }
    words
}

fn refused_words(cause: Cause) -> [u32; ANSWER_WORDS]
    ensures { result ≡ refused_record (cause_number cause) }
{
    padded(&[4, u32::from(cause)])
}

// The words of a search's answer.
fn nearest_words(a: NearestAnswer) -> [u32; ANSWER_WORDS]
    ensures { result ≡ padded (6 ∷ nearest_words (nearest_outcome a)) }
{
    padded(&[6, a.count, u32::from(a.shade), a.gap.0, a.e.0])
}

#[tactic(auto, unfolding(crate::specs::Answers::answer_record))]
fn seen_words(answer: Result<Seen, Cause>) -> [u32; ANSWER_WORDS]
    ensures { result ≡ answer_record (seen (seen_answer answer)) }
{
    match answer {
        Ok(Seen::Previewed(t)) => trial_words(5, t),
        Ok(Seen::Nearest(a)) => nearest_words(a),
        Err(cause) => refused_words(cause),
    }
}

#[tactic(auto, unfolding(crate::specs::Answers::answer_record))]
fn words_of(answer: Result<Answer, Cause>) -> [u32; ANSWER_WORDS]
    ensures { result ≡ answer_record (outcome_of answer) }
{
    match answer {
        Ok(Answer::Accepted) => padded(&[0]),
        Ok(Answer::Coloured(colour)) => coloured_words(colour),
        Ok(Answer::Tried(t)) => trial_words(2, t),
        Ok(Answer::Counted(r)) => report_words(r),
        Ok(Answer::Seen(seen)) => seen_words(seen),
        Err(cause) => refused_words(cause),
    }
}

// Writes an answer's words at the start of the part that is lent.
pub fn write(part: &mut [u32], answer: Result<Answer, Cause>)
    requires { answer_words ≤ length part.old }
    ensures { part.new ≡ sets part.old 0 (answer_record (outcome_of answer)) }
{
    stores::put_words(part, &words_of(answer));
}
