// A line's call made, its spots pooled or its shade struck, and the answer printed.
ghost use Rattle.std.specs.Prelude.{◌≤◌};
ghost use Rattle.session.specs.Served.{Valid};

use crate::form::{
    Asked, BOOK_LENGTH, BYTES, ENTRIES, LENGTH, NUMBER, SPACING, SPOTS, STRETCH, Stage,
};
use crate::line::{Line, capped};
use crate::reader::Reader;
use crate::{beside, print};
use cie::spacing;
use cie::spacing::MOST_ROWS;
use session::Session;

// The number, or the largest of 16 bits.
fn short(n: u32) -> u16 {
    u16::try_from(n).unwrap_or(u16::MAX)
}

// The first entries in as many places as are lent, each as it is converted.
fn put<T: Copy, F: Fn(u32) -> T + Drop>(entries: &[u32], places: &mut [T], convert: F)
    requires { F.IsAlwaysCallable convert }
{
    for (place, &entry) in places.iter_mut().zip(entries) {
        *place = convert(entry);
    }
}

// Makes the call of a line, with the book that it has, and prints its answer.
fn call(
    rt: &impl Print,
    session: &mut Session,
    record: &[u32],
    entries: &[u32; ENTRIES],
    book: &[u8],
)
    requires { Valid session.old }
    ensures { Valid session.new }
{
    let mut readings = [0u16; STRETCH];
    put(entries, &mut readings, short);
    let served = calls::call(*session, record, entries, &readings, book);
    *session = served.session;
    print::print(rt, served.answer);
}

// Pools the spots of a line, into as many places as its spacing has rows, and prints the spectrum.
fn pool(rt: &impl Print, line: Line, entries: &[u32; ENTRIES]) {
    let mut spots = [0u16; SPOTS];
    let mut places = [0u16; MOST_ROWS];
    let n = (line.record[LENGTH] as usize).min(SPOTS);
    let spots = &mut spots[..n];
    put(entries, spots, short);
    let spacing = line.record[SPACING];
    let places = &mut places[..spacing::rows_at(spacing)];
    match pool::pool(spacing, line.record[NUMBER], spots, places) {
        Ok(()) => beside::print_spectrum(rt, places),
        Err(cause) => print::print(rt, Err(cause)),
    }
}

// The bytes of a line, in room that is lent: how many they are.
fn put_buffer(line: Line, entries: &[u32; ENTRIES], room: &mut [u8; BYTES]) -> usize
    ensures { result ≤ BYTES }
{
    let n = ((line.digits / 2) as usize).min(BYTES);
    put(
        &entries[STRETCH..],
        &mut room[..n],
        |entry| (entry % 256) as u8,
    );
    n
}

// Strikes a shade of the book that fills a line's buffer, and prints what is left.
fn strike(rt: &impl Print, line: Line, entries: &[u32; ENTRIES]) {
    let mut room = [0u8; BYTES];
    let n = put_buffer(line, entries, &mut room);
    let buffer = &mut room[..n];
    match strike::strike(line.record[SPACING], short(line.record[NUMBER]), buffer) {
        Ok(left) => beside::print_struck(rt, capped(left as u64), buffer),
        Err(cause) => print::print(rt, Err(cause)),
    }
}

// Makes the search of a line, in the book that fills its buffer.
fn search(rt: &impl Print, session: &mut Session, line: Line, entries: &[u32; ENTRIES])
    requires { Valid session.old }
    ensures { Valid session.new }
{
    let mut record = line.record;
    let mut room = [0u8; BYTES];
    let n = put_buffer(line, entries, &mut room);
    record[BOOK_LENGTH] = n as u32;
    call(rt, session, &record, entries, &room[..n]);
}

// Answers the line that ends here, by the session or beside it. An empty line is passed over.
pub fn answer(rt: &impl Print, session: &mut Session, reader: &mut Reader)
    requires { Valid session.old }
    ensures { Valid session.new }
{
    let line = reader.end();
    let entries = &reader.entries;
    match (line.stage, line.asked) {
        (Stage::Start, _) => {}
        (Stage::End, Asked::Call) => call(rt, session, &line.record, entries, b""),
        (Stage::End, Asked::Search) => search(rt, session, line, entries),
        (Stage::End, Asked::Pool) => pool(rt, line, entries),
        (Stage::End, Asked::Strike) => strike(rt, line, entries),
        _ => print::print_unreadable(rt),
    }
}
