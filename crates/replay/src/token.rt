// One word of a line, as its bytes come.
ghost use Rattle.std.specs.Prelude.{◌≤◌};
ghost use Rattle.replay.specs.declared.token.TheConstants.{ROOM};

// One byte more than the longest command has, so that a longer word is seen to be none.
const ROOM: usize = 10;

#[derive(Clone, Copy, Debug, PartialEq, Eq)]
pub struct Token {
    // its first bytes, and how many they are
    bytes: [u8; ROOM],
    count: usize,
    // the number that its digits spell, or the largest; none where a byte is no digit
    value: Option<u64>,
    ghost within: { count ≤ ROOM },
}

// The number with one digit more, or the largest: so it is from a tenth of the largest on, where sums that saturate would still tell the last
// ten numbers apart.
fn with_digit(value: u64, byte: u8) -> Option<u64> {
    match byte {
        b'0'..=b'9' if value < u64::MAX / 10 => Some(value * 10 + (byte - b'0') as u64),
        b'0'..=b'9' => Some(u64::MAX),
        _ => None,
    }
}

impl Token {
    pub fn new() -> Token {
        Token {
            bytes: [0; ROOM],
            count: 0,
            value: Some(0),
        }
    }

    pub fn with_byte(mut self, byte: u8) -> Token {
        self.value = self.value.and_then(|value| with_digit(value, byte));
        if self.count < ROOM {
            self.bytes[self.count] = byte;
            self.count += 1;
        }
        self
    }

    pub fn is_empty(self) -> bool {
        self.count == 0
    }

    // The number that it spells, if it is one.
    pub fn number(self) -> Option<u64> {
        if self.is_empty() { None } else { self.value }
    }

    // The word, or so much of it that it is no command.
    pub fn word(&self) -> &[u8] {
        &self.bytes[..self.count]
    }
}
