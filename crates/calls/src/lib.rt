// Runs a whole list of calls that is held in slices: ten words a call, with its tables, spectra and books as parts of three slices, and
// thirty-two words for each answer. specs/Records.antt lays a call out, answers/specs/Answers.antt an answer.
#![tactic(auto)]

ghost use Rattle.std.specs.Prelude.{◌≡◌, ◌+◌, ◌<◌, length};
ghost use Rattle.causes.specs.Causes.{answer_of};
ghost use Rattle.session.specs.Served.{Valid};
ghost use Rattle.session.specs.Meets.{Meets};
ghost use Rattle.calls.specs.Records.{call_words, kind_of, kind_word, word_at, part_at, slices_of, call_of};
ghost use Rattle.calls.specs.Run.{ran, answers_after};

use causes::Cause;
use cie::Space;
use session::{Served, Session};

pub const CALL_WORDS: usize = 10;

// What a call does: a record's first word.
#[derive(Clone, Copy, Debug, PartialEq, Eq, Hash)]
pub enum Kind {
    Report,
    OpenTables,
    OpenLight,
    Standard,
    ToleranceLab,
    ToleranceLuv,
    Trial,
    Preview,
    Nearest,
}

// Any number that names no other call is a report.
impl From<u32> for Kind {
    ghost from_gives = { λ word kind. kind ≡ kind_of word };

    fn from(word: u32) -> Kind {
        match word {
            1 => Kind::OpenTables,
            2 => Kind::OpenLight,
            3 => Kind::Standard,
            4 => Kind::ToleranceLab,
            5 => Kind::ToleranceLuv,
            6 => Kind::Trial,
            7 => Kind::Preview,
            8 => Kind::Nearest,
            _ => Kind::Report,
        }
    }
}

// The word of a kind.
impl From<Kind> for u32 {
    ghost from_gives = { λ kind word. word ≡ kind_word kind };

    fn from(kind: Kind) -> u32 {
        match kind {
            Kind::Report => 0,
            Kind::OpenTables => 1,
            Kind::OpenLight => 2,
            Kind::Standard => 3,
            Kind::ToleranceLab => 4,
            Kind::ToleranceLuv => 5,
            Kind::Trial => 6,
            Kind::Preview => 7,
            Kind::Nearest => 8,
        }
    }
}

// A word of a record, or 0 where the record ends before it.
fn word(words: &[u32], i: usize) -> u32
    ensures { result ≡ word_at words.now i }
{
    words.get(i).copied().unwrap_or(0)
}

// The part that two words of a record name in a slice, or an empty one where it runs past the end.
#[tactic(auto, unfolding(crate::specs::Records::part_of))]
fn part<'a, T>(slice: &'a [T], words: &[u32], i: usize) -> &'a [T]
    requires { i < call_words }
    ensures { result.now ≡ part_at slice.now words.now i }
{
    let start = word(words, i) as usize;
    let end = start + word(words, i + 1) as usize;
    slice.get(start..end).unwrap_or(&[])
}

// Makes the call of a record.
pub fn call(s: Session, words: &[u32], tables: &[u32], spectra: &[u16], books: &[u8]) -> Served
    requires { Valid s }
    ensures { Meets s (call_of words.now (slices_of tables.now spectra.now books.now)) result }
{
    match Kind::from(word(words, 0)) {
        Kind::OpenTables => s.open_tables(
            word(words, 9),
            part(tables, words, 1),
            part(tables, words, 3),
            part(tables, words, 5),
            part(tables, words, 7),
        ),
        Kind::OpenLight => s.open_light(word(words, 1), word(words, 2)),
        Kind::Standard => s.set_standard(part(spectra, words, 1)),
        Kind::ToleranceLab => s.set_tolerance(Space::Cielab, word(words, 1)),
        Kind::ToleranceLuv => s.set_tolerance(Space::Cieluv, word(words, 1)),
        Kind::Trial => s.trial(word(words, 3), part(spectra, words, 1)),
        Kind::Preview => s.preview(word(words, 3), part(spectra, words, 1)),
        Kind::Nearest => s.nearest(
            word(words, 5),
            part(spectra, words, 1),
            part(books, words, 3),
        ),
        Kind::Report => s.report(),
    }
}

// Runs the calls from a fresh session, and writes the answer of each into the buffer: how many were answered, or the cause against the run.
pub fn run(
    records: &[u32],
    tables: &[u32],
    spectra: &[u16],
    books: &[u8],
    buffer: &mut [u32],
) -> Result<usize, Cause>
    ensures result_value { answer_of result ≡ ran records.now (length buffer.old) }
    ensures buffer_after { buffer.new ≡ answers_after records.now (slices_of tables.now spectra.now books.now) buffer.old }
{
    let n = records.len() / CALL_WORDS;
    if buffer.len() < n * answers::ANSWER_WORDS {
        return Err(Cause::ShortBuffer);
    }
    let mut session = Session::fresh();
    // By a count, and not over `chunks_exact_mut`: once its chunks are given back, nothing is known of what was written into them.
    for i in 0..n {
        let served = call(session, &records[i * CALL_WORDS..], tables, spectra, books);
        answers::write(&mut buffer[i * answers::ANSWER_WORDS..], served.answer);
        session = served.session;
    }
    Ok(n)
}
