// The nearest shade in the time there is: the order in which shades are tried, and what a search holds, apart from how shades and their
// colours are found.
#![tactic(auto)]

ghost use Rattle.std.specs.Prelude.{◌≡◌, ◌+◌, ◌<◌, ◌^◌, length, get_or};
ghost use Rattle.nearest.specs.Order.{key_range, key_of, SmallKeys, NextIs, number_in, begun, next_difference, turn, is_closer, compared, gap_of};

mod order;

// Shades are tried by the difference of L, then by number: both make one key.
pub fn key_of(difference: u32, number: u16) -> u64
    ensures { (result ≡ key_of difference number) × (result < key_range) }
{
    u64::from(difference) * order::NUMBER_RANGE + u64::from(number)
}

// The place of the key that is tried first, if there is any.
pub fn first(keys: &[u64]) -> Option<usize>
    ensures { NextIs keys.now 0 result }
{
    order::next(keys, 0)
}

// A search: how many full comparisons were made, the key of the best shade and its E, and the place of the shade that is tried next, if one
// remains.
#[derive(Clone, Copy, Debug, PartialEq, Eq)]
pub struct Search {
    pub count: u32,
    best: u64,
    pub e: u32,
    pub next: Option<usize>,
}

impl Search {
    // After the first full comparison, with the shade at a place.
    pub fn begun(keys: &[u64], i: usize, e: u32) -> Search
        requires { SmallKeys keys.now × (i < length keys.now) }
        ensures { (result ≡ begun (get_or keys.now i 0) e result.next) × NextIs keys.now (get_or keys.now i 0 + 1) result.next }
    {
        let best = keys[i];
        Search {
            count: 1,
            best,
            e,
            next: order::after(keys, best),
        }
    }

    // The difference of L of the next shade, if one remains.
    #[tactic(auto, unfolding(crate::specs::Order::next_difference))]
    fn next_difference(self, keys: &[u64]) -> Option<u64>
        ensures { result ≡ next_difference self keys.now }
    {
        let &key = keys.get(self.next?)?;
        Some(order::difference_in(key))
    }

    // The place of the shade that is tried next, if the search goes on.
    #[tactic(auto, unfolding(crate::specs::Order::turn, crate::specs::Order::goes_on, crate::specs::Order::next_difference))]
    pub fn turn(self, budget: u32, keys: &[u64]) -> Option<usize>
        ensures { result ≡ turn self budget keys.now }
    {
        let difference = self.next_difference(keys)?;
        if self.count < budget && difference < u64::from(self.e) {
            self.next
        } else {
            None
        }
    }

    // Whether a full comparison takes the place of the best one: a smaller E, or the same E and a lower number.
    fn is_closer(self, key: u64, e: u32) -> bool
        ensures { result ≡ is_closer self key e }
    {
        (e, order::number_in(key)) < (self.e, order::number_in(self.best))
    }

    // After one full comparison more, with the shade at a place.
    #[tactic(auto, unfolding(crate::specs::Order::compared))]
    pub fn compared(self, keys: &[u64], i: usize, e: u32) -> Search
        requires { SmallKeys keys.now × (i < length keys.now) × (self.count + 1 < 2 ^ 32) }
        ensures { (result ≡ compared self (get_or keys.now i 0) e result.next) × NextIs keys.now (get_or keys.now i 0 + 1) result.next }
    {
        let key = keys[i];
        let (best, e) = if self.is_closer(key, e) {
            (key, e)
        } else {
            (self.best, self.e)
        };
        Search {
            count: self.count + 1,
            best,
            e,
            next: order::after(keys, key),
        }
    }

    // The number of the best shade.
    pub fn shade(self) -> u16
        ensures { result ≡ number_in self.best }
    {
        order::number_in(self.best)
    }

    // The best E less the next difference of L, 0 where that is negative or no shade remains.
    #[tactic(auto, unfolding(crate::specs::Order::gap_of, crate::specs::Order::next_difference))]
    pub fn gap(self, keys: &[u64]) -> u32
        ensures { result ≡ gap_of self keys.now }
    {
        self.next_difference(keys).map_or(
            0,
            |difference| u64::from(self.e).saturating_sub(difference) as u32,
        )
    }
}
