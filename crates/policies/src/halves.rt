// Two words in one.
ghost use Rattle.std.specs.Prelude.{◌≡◌, ◌+◌, ◌/◌, ◌%◌, ◌^◌, ◌<◌, ◌≤◌, MatchOption};
ghost use Rattle.policies.specs.Limits.{width_limit};
ghost use Rattle.policies.specs.Both.{joined};

use crate::word::{WIDTH_LIMIT, Word};

// The widths of both; the high one stands above the low one.
#[derive(Clone, Copy)]
pub(crate) struct Halves {
    low: u32,
    high: u32,
    ghost narrow: { low + high ≤ width_limit },
}

impl Halves {
    // Nothing, where one word has no room for both.
    pub(crate) fn new(low: u32, high: u32) -> Option<Halves>
        ensures { MatchOption result (width_limit < low + high) (λ halves. (halves.low ≡ low) × (halves.high ≡ high)) }
    {
        if low.saturating_add(high) <= WIDTH_LIMIT {
            Some(Halves { low, high })
        } else {
            None
        }
    }

    // How many bits both have.
    pub(crate) fn width(self) -> u32
        ensures { result ≡ self.low + self.high }
    {
        self.low + self.high
    }

    pub(crate) fn low(self, word: Word) -> Word
        ensures { result ≡ word % 2 ^ self.low }
    {
        word & Word::MAX.unbounded_shr(WIDTH_LIMIT - self.low)
    }

    pub(crate) fn high(self, word: Word) -> Word
        ensures { result ≡ word / 2 ^ self.low }
    {
        word.unbounded_shr(self.low)
    }

    pub(crate) fn join(self, high: Word, low: Word) -> Word
        requires high_fits { high < 2 ^ self.high }
        requires low_fits { low < 2 ^ self.low }
        ensures { result ≡ joined self.low high low }
    {
        high.unbounded_shl(self.low) | low
    }
}
