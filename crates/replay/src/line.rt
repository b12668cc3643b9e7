// A line of the script, as its words come.
ghost use Rattle.std.specs.Prelude.{◌≤◌, ◌<◌, length};

use crate::form::{Asked, BUDGET, ENTRIES, LENGTH, NUMBER, SPACING, SPOTS, STRETCH, Stage, TABLES};
use crate::token::Token;
use crate::{command, hex};
use calls::{CALL_WORDS, Kind};

#[derive(Clone, Copy, Debug, PartialEq, Eq)]
pub struct Line {
    pub stage: Stage,
    pub asked: Asked,
    // the record of its call: a light, a spacing, an amount, an inspection table, and where each table starts and how many
    // entries it has, counted up to its room; or the record of a pooling or a strike
    pub record: [u32; CALL_WORDS],
    // the words of the record that its numbers go to: the next, and the one after the last
    next: usize,
    end: usize,
    // how many tables are whole, and how many are still to come, the present one among them
    whole: usize,
    tables: usize,
    // how many digits of a buffer have come, counted up to their room
    pub digits: u32,
}

// The number, or the largest of 32 bits.
pub fn capped(n: u64) -> u32 {
    u32::try_from(n).unwrap_or(u32::MAX)
}

impl Line {
    // The line of a call that has so many tables.
    pub fn started(kind: Kind, stage: Stage, tables: usize) -> Line {
        let kind = u32::from(kind);
        let second = STRETCH as u32;
        Line {
            stage,
            asked: Asked::Call,
            record: [kind, 0, 0, second, 0, 2 * second, 0, 3 * second, 0, 0],
            next: 1,
            end: 2,
            whole: 0,
            tables,
            digits: 0,
        }
    }

    pub fn new() -> Line {
        Line::started(Kind::Report, Stage::Start, 0)
    }

    pub fn unreadable() -> Line {
        Line::started(Kind::Report, Stage::Unreadable, 0)
    }

    // The line of a call whose numbers go to these words of its record.
    pub fn with_words(self, next: usize, end: usize) -> Line {
        Line { next, end, ..self }
    }

    // The line of a pooling, a strike or a search, that has so many tables.
    pub fn beside(asked: Asked, tables: usize) -> Line {
        Line {
            stage: Stage::Number,
            asked,
            record: [0; CALL_WORDS],
            next: SPACING,
            end: NUMBER + 1,
            whole: 0,
            tables,
            digits: 0,
        }
    }

    // The line of a search: a number, a table and a buffer.
    pub fn search() -> Line {
        let mut line = Line::beside(Asked::Search, 1).with_words(BUDGET, BUDGET + 1);
        line.record[0] = u32::from(Kind::Nearest);
        line
    }

    // The line at another stage.
    fn at_stage(self, stage: Stage) -> Line {
        Line { stage, ..self }
    }

    // After the last table come the digits of a search.
    fn past_tables(self) -> Line {
        match self.asked {
            Asked::Search => self.at_stage(Stage::Digits),
            _ => self.at_stage(Stage::End),
        }
    }

    // The present table is whole. No command has more than four; a ghost field that says so would take away `..self`.
    fn with_table(self) -> Line {
        if self.tables <= 1 {
            return self.past_tables();
        }
        if TABLES <= self.whole {
            return Line::unreadable();
        }
        Line {
            stage: Stage::Length,
            whole: self.whole + 1,
            tables: self.tables - 1,
            ..self
        }
    }

    // One entry more is counted in a word of the record and stored in the places lent, unless there are too many.
    fn stored(mut self, word: usize, value: u64, places: &mut [u32]) -> Line
        requires { (word < CALL_WORDS) × (length places.old ≤ ENTRIES) }
    {
        let n = self.record[word];
        if let Some(place) = places.get_mut(n as usize) {
            *place = capped(value);
            self.record[word] = n + 1;
        }
        self
    }

    // One entry more of the present table, or of the spots.
    fn with_stored(self, value: u64, entries: &mut [u32; ENTRIES]) -> Line {
        if self.asked == Asked::Pool {
            return self.stored(LENGTH, value, &mut entries[..SPOTS]);
        }
        if TABLES <= self.whole {
            return self;
        }
        let start = self.whole * STRETCH;
        self.stored(
            2 * self.whole + 2,
            value,
            &mut entries[start..start + STRETCH],
        )
    }

    // One entry more, of so many that are still to come.
    fn with_entry(self, left: u64, value: u64, entries: &mut [u32; ENTRIES]) -> Line {
        let next = self.with_stored(value, entries);
        if left <= 1 {
            return next.with_table();
        }
        next.at_stage(Stage::Entry(left - 1))
    }

    // After the last number come the digits of a strike, or the tables, if there are any.
    fn past_numbers(self) -> Line {
        match self.asked {
            Asked::Strike => self.at_stage(Stage::Digits),
            _ if self.tables == 0 => self.at_stage(Stage::End),
            _ => self.at_stage(Stage::Length),
        }
    }

    // One number more goes to its word of the record.
    fn with_value(mut self, value: u64) -> Line {
        if CALL_WORDS <= self.next {
            return Line::unreadable();
        }
        self.record[self.next] = capped(value);
        self.next += 1;
        if self.next < self.end {
            return self;
        }
        self.past_numbers()
    }

    // The line with one digit more of a buffer.
    pub fn with_digit(self, byte: u8, entries: &mut [u32; ENTRIES]) -> Line {
        match hex::value_of(byte) {
            Some(value) => Line {
                digits: hex::stored(self.digits, value, entries),
                ..self
            },
            None => Line::unreadable(),
        }
    }

    // The digits are whole where they are bytes, at least one.
    fn with_digits(self) -> Line {
        if self.digits == 0 || self.digits % 2 != 0 {
            return Line::unreadable();
        }
        self.at_stage(Stage::End)
    }

    // The line with one word more.
    pub fn with_token(self, token: Token, entries: &mut [u32; ENTRIES]) -> Line {
        match (self.stage, token.number()) {
            (Stage::Start, _) => command::of_command(token),
            (Stage::Space, _) => command::of_space(token),
            (Stage::Digits, _) => self.with_digits(),
            (Stage::Number, Some(value)) => self.with_value(value),
            (Stage::Length, Some(0)) => self.with_table(),
            (Stage::Length, Some(length)) => self.at_stage(Stage::Entry(length)),
            (Stage::Entry(left), Some(value)) => self.with_entry(left, value, entries),
            _ => Line::unreadable(),
        }
    }
}
