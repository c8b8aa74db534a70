// Walks that are at each of at most sixteen doorsteps at some time.
ghost use Rattle.std.specs.Prelude.{◌≡◌, ◌<◌, ◌≤◌, length, MatchOption};
ghost use Rattle.policies.specs.Limits.{stops_limit};

use crate::policy::Policy;
use crate::word::{Word, fits, with_bit};

// At most this many doorsteps, one for each parcel aboard. specs/Limits.antt states the number again, so that another number here is refused.
pub const STOPS_LIMIT: usize = 16;

// The first `count` places of the table are the doorsteps, in the order of the parcels.
// A table with a count: this crate uses no heap, and `Stops` is `Copy`.
#[derive(Clone, Copy)]
pub struct Stops {
    table: [usize; STOPS_LIMIT],
    count: usize,
    ghost few: { count ≤ stops_limit },
}

impl Stops {
    ghost use Rattle.policies.specs.Stops.{doorsteps, here};

    // Nothing, where there are more than sixteen.
    pub fn new(stops: &[usize]) -> Option<Stops>
        ensures { MatchOption result (stops_limit < length stops.now) (λ s. doorsteps s ≡ stops.now) }
    {
        let count = stops.len();
        if count > STOPS_LIMIT {
            return None;
        }
        let mut table = [0; STOPS_LIMIT];
        table[..count].copy_from_slice(stops);
        Some(Stops { table, count })
    }

    // The doorsteps, in the order of the parcels.
    fn stops(&self) -> &[usize]
        ensures { result.now ≡ doorsteps self.now }
    {
        &self.table[..self.count]
    }

    // A bit for each doorstep that is this point.
    fn here(&self, point: usize) -> Word
        ensures { result ≡ here (doorsteps self.now) point }
    {
        // `as`, as in `width`. A rule book sets its bits in such a loop too: one function for both would take a closure, and each would owe
        // what it says of every item.
        let mut word = 0;
        for (place, stop) in self.stops().iter().enumerate() {
            word = with_bit(word, place as u32, *stop == point);
        }
        word
    }
}

impl Policy for Stops {
    ghost use Rattle.policies.specs.Stops.{VisitsAll, doorsteps, stopping};
    ghost use Rattle.policies.specs.Stopping.{stopping_lawful, few_doorsteps};

    ghost automaton = { λ s. stopping (doorsteps s) };

    ghost permits = { λ s. VisitsAll (doorsteps s) };

    ghost lawful = { λ s. stopping_lawful (doorsteps s) (few_doorsteps s) };

    // `as`, since the count is known to fit: a `try_from` would need an answer for more.
    fn width(&self) -> u32 {
        self.count as u32
    }

    fn depart(&self, point: usize) -> Word {
        self.here(point)
    }

    fn cross(&self, word: Word, _number: u16, head: usize) -> Word {
        if fits(word, self.width()) {
            word | self.here(head)
        } else {
            0
        }
    }

    fn may_end(&self, word: Word, _point: usize) -> bool {
        word == (1 << self.count) - 1
    }
}
