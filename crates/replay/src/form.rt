// What a line may ask for, what may come next in it, and where its numbers stand.
use book::layout::{ENTRY, HEAD, MOST_SHADES};
use cie::spacing::{MOST_ROWS, READING_BYTES};
use pool::MOST_SPOTS;

// The tables of a call stand one after the other among the entries, each in a stretch of 82: one more than a table may
// have, so that a longer one is seen to be too long.
pub const STRETCH: usize = MOST_ROWS + 1;

pub const TABLES: usize = 4;

// The spots of a pooling stand in the first entries: one more than 16 spots of 81 rows have.
pub const SPOTS: usize = MOST_ROWS * MOST_SPOTS as usize + 1;

// The bytes of a buffer stand behind the first stretch: one more than the longest book has.
pub const BYTES: usize = HEAD + (ENTRY + READING_BYTES * MOST_ROWS) * MOST_SHADES + 1;

pub const ENTRIES: usize = STRETCH + BYTES;

// What a line asks for: a call of the session, one with a book, spots pooled, or a shade struck.
#[derive(Clone, Copy, Debug, PartialEq, Eq, Hash)]
pub enum Asked {
    Call,
    Search,
    Pool,
    Strike,
}

// What may come next: an entry of the present table with how many of them are still to come, and a digit of a buffer.
#[derive(Clone, Copy, Debug, PartialEq, Eq, Hash)]
pub enum Stage {
    Start,
    Space,
    Number,
    Length,
    Entry(u64),
    Digits,
    End,
    Unreadable,
}

// The words of a search's record: how many bytes its book has, which is lent alone, and the budget.
pub const BOOK_LENGTH: usize = 4;

pub const BUDGET: usize = 5;

// The words of a record that is no call's: how many entries a pooling has; the spacing; the number of spots, or of the shade.
pub const LENGTH: usize = 2;

pub const SPACING: usize = 3;

pub const NUMBER: usize = 4;
