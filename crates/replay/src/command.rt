// The words that begin a line, and what each asks for.
use crate::form::{Asked, Stage, TABLES};
use crate::line::Line;
use crate::token::Token;
use calls::Kind;

// The line of a command.
pub fn of_command(token: Token) -> Line {
    match token.word() {
        b"trial" => Line::started(Kind::Trial, Stage::Number, 1).with_words(3, 4),
        b"preview" => Line::started(Kind::Preview, Stage::Number, 1).with_words(3, 4),
        b"standard" => Line::started(Kind::Standard, Stage::Length, 1),
        b"tolerance" => Line::started(Kind::Report, Stage::Space, 0),
        b"report" => Line::started(Kind::Report, Stage::End, 0),
        b"light" => Line::started(Kind::OpenLight, Stage::Number, 0).with_words(1, 3),
        b"nearest" => Line::search(),
        b"pool" => Line::beside(Asked::Pool, 1),
        b"strike" => Line::beside(Asked::Strike, 0),
        b"open" => Line::started(Kind::OpenTables, Stage::Number, TABLES).with_words(9, 10),
        _ => Line::unreadable(),
    }
}

// The line of a tolerance in a space.
pub fn of_space(token: Token) -> Line {
    match token.word() {
        b"lab" => Line::started(Kind::ToleranceLab, Stage::Number, 0),
        b"luv" => Line::started(Kind::ToleranceLuv, Stage::Number, 0),
        _ => Line::unreadable(),
    }
}
