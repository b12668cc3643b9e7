// The line that is being read, its entries, and the word of it that is not ended.
use crate::form::{ENTRIES, Stage};
use crate::line::Line;
use crate::token::Token;

#[derive(Clone, Copy, Debug)]
pub struct Reader {
    line: Line,
    token: Token,
    pub entries: [u32; ENTRIES],
}

impl Reader {
    pub fn new() -> Reader {
        Reader {
            line: Line::new(),
            token: Token::new(),
            entries: [0; ENTRIES],
        }
    }

    // One byte more of the line, which is no line feed.
    pub fn take(&mut self, byte: u8) {
        if byte == b' ' {
            self.line = self.line.with_token(self.token, &mut self.entries);
            self.token = Token::new();
        } else if self.line.stage == Stage::Digits {
            self.line = self.line.with_digit(byte, &mut self.entries);
        } else {
            self.token = self.token.with_byte(byte);
        }
    }

    // The line at its end, and the next is begun; one with no byte is as it began.
    pub fn end(&mut self) -> Line {
        let mut line = self.line;
        if line.stage != Stage::Start || !self.token.is_empty() {
            line = line.with_token(self.token, &mut self.entries);
        }
        self.line = Line::new();
        self.token = Token::new();
        line
    }
}
