// Keys, and the next of them: the order in which shades are tried.
ghost use Rattle.std.specs.Prelude.{◌≡◌, ◌+◌, ◌<◌};
ghost use Rattle.nearest.specs.Order.{key_range, difference_in, number_in, NextIs};

// Numbers have 16 bits.
pub const NUMBER_RANGE: u64 = 1 << 16;

// The difference of L in a key.
pub fn difference_in(key: u64) -> u64
    ensures { result ≡ difference_in key }
{
    key / NUMBER_RANGE
}

// The number in a key.
pub fn number_in(key: u64) -> u16
    ensures { result ≡ number_in key }
{
    (key % NUMBER_RANGE) as u16
}

// The place of the least key from a number on, if one is so high.
pub fn next(keys: &[u64], from: u64) -> Option<usize>
    ensures { NextIs keys.now from result }
{
    let mut best: Option<(u64, usize)> = None;
    for (i, &key) in keys.iter().enumerate() {
        if from <= key && best.is_none_or(|(least, _)| key < least) {
            best = Some((key, i));
        }
    }
    best.map(|(_, i)| i)
}

// The place of the least key above one, if one is above it.
pub fn after(keys: &[u64], key: u64) -> Option<usize>
    requires { key < key_range }
    ensures { NextIs keys.now (key + 1) result }
{
    next(keys, key + 1)
}
