// The calls of a book, the pooling of spots, the run of a list of calls and a run of trials, for tests and benchmarks: no part of the product. The crate
// `probe_c` gives them to C.
#![tactic(auto)]

ghost use Rattle.std.specs.Prelude.{◌≡◌, length};
ghost use Rattle.causes.specs.Causes.{answer_of};
ghost use Rattle.book.specs.Reading.{found, places_after_read};
ghost use Rattle.book_writer.specs.Writing.{written, buffer_after_write};
ghost use Rattle.strike.specs.Striking.{struck, buffer_after_strike};
ghost use Rattle.pool.specs.Pooling.{pooled, places_after_pool};
ghost use Rattle.calls.specs.Records.{slices_of};
ghost use Rattle.calls.specs.Run.{ran, answers_after};
ghost use Rattle.session.specs.Served.{outcome_of, Valid};
ghost use Rattle.probe.specs.Probe.{count_code, cause_code, done_code, passed_in, after_trials, session_for, pass_count};

use causes::Cause;
use cie::Space;
use cie::spacing::FINE_SPACING;
use session::{Answer, Session};

// A refused write, strike or run answers the cause's number above this: no book is as long, and no list of a test.
const REFUSED: u64 = 4294967296;

// The count, or 2^32 and the cause's number.
fn count_code(counted: Result<usize, Cause>) -> u64
    ensures { result ≡ count_code (answer_of counted) }
{
    match counted {
        Ok(count) => count as u64,
        Err(cause) => REFUSED + u32::from(cause) as u64,
    }
}

// 0, or the cause's number.
fn cause_code(done: Result<(), Cause>) -> u32
    ensures { result ≡ done_code done }
{
    match done {
        Ok(()) => 0,
        Err(cause) => u32::from(cause),
    }
}

// Writes a book at a spacing, and answers its length, or 2^32 and the cause's number.
pub fn probe_write(spacing: u32, numbers: &[u16], spectra: &[u16], buffer: &mut [u8]) -> u64
    ensures value { result ≡ count_code (written spacing numbers.now spectra.now (length buffer.old)) }
    ensures buffer_after { buffer.new ≡ buffer_after_write spacing numbers.now spectra.now buffer.old }
{
    count_code(book_writer::write(spacing, numbers, spectra, buffer))
}

// Reads a shade of a book of a spacing, and answers 0, or the cause's number.
pub fn probe_read(spacing: u32, book: &[u8], number: u16, places: &mut [u16]) -> u32
    ensures value { result ≡ cause_code (found spacing book.now number (length places.old)) }
    ensures places_after { places.new ≡ places_after_read spacing book.now number places.old }
{
    cause_code(book::read(spacing, book, number, places))
}

// Strikes a shade of the book of a spacing that fills the buffer, and answers the length of the book that is left, or 2^32 and the cause's number.
pub fn probe_strike(spacing: u32, number: u16, buffer: &mut [u8]) -> u64
    ensures value { result ≡ count_code (struck spacing number buffer.old) }
    ensures buffer_after { buffer.new ≡ buffer_after_strike spacing number buffer.old }
{
    count_code(strike::strike(spacing, number, buffer))
}

// Pools spots at a spacing, and answers 0, or the cause's number.
pub fn probe_pool(spacing: u32, count: u32, spots: &[u16], places: &mut [u16]) -> u32
    ensures value { result ≡ cause_code (pooled spacing count spots.now (length places.old)) }
    ensures places_after { places.new ≡ places_after_pool spacing count spots.now places.old }
{
    cause_code(pool::pool(spacing, count, spots, places))
}

// Runs a list of calls, and answers how many were answered, or 2^32 and the cause's number.
pub fn probe_run(
    records: &[u32],
    tables: &[u32],
    spectra: &[u16],
    books: &[u8],
    buffer: &mut [u32],
) -> u64
    ensures value { result ≡ count_code (ran records.now (length buffer.old)) }
    ensures buffer_after { buffer.new ≡ answers_after records.now (slices_of tables.now spectra.now books.now) buffer.old }
{
    count_code(calls::run(records, tables, spectra, books, buffer))
}

// A session with a light at 5 nm, a standard and a tolerance in CIELAB, as far as it takes them.
fn session_for(light: u32, standard: &[u16], amount: u32) -> Session
    ensures { (result ≡ session_for light standard.now amount) × Valid result }
{
    let opened = Session::fresh().open_light(light, FINE_SPACING).session;
    let held = opened.set_standard(standard).session;
    held.set_tolerance(Space::Cielab, amount).session
}

// The inspection table that a run of trials names.
const ONLY_TABLE: u32 = 1;

// The session after some trials of one spectrum.
fn after_trials(session: Session, readings: &[u16], count: u32) -> Session
    requires { Valid session }
    ensures { (result ≡ after_trials session readings.now count) × Valid result }
{
    let mut current = session;
    for _ in 0..count {
        current = current.trial(ONLY_TABLE, readings).session;
    }
    current
}

// The passes that a report counts for that table.
fn passed_in(answer: Result<Answer, Cause>) -> u32
    ensures { result ≡ passed_in (outcome_of answer) }
{
    match answer {
        Ok(Answer::Counted(r)) => r.tallies[0].passed,
        _ => 0,
    }
}

// How many of some trials of one spectrum pass, against a standard under a light at 5 nm, at a tolerance in CIELAB.
pub fn probe_trials(light: u32, standard: &[u16], trial: &[u16], amount: u32, count: u32) -> u32
    ensures { result ≡ pass_count light standard.now trial.now amount count }
{
    let ready = session_for(light, standard, amount);
    let last = after_trials(ready, trial, count);
    passed_in(last.report().answer)
}
