// Two policies at once: a walk is permitted where both permit it.
ghost use Rattle.std.specs.Prelude.{◌≡◌, ◌+◌, ◌<◌, MatchOption};
ghost use Rattle.policies.specs.Limits.{width_limit};
ghost use Rattle.policies.specs.Both.{Both, both};
ghost use Rattle.policies.specs.Pairing.{both_lawful};

use crate::halves::Halves;
use crate::policy::Policy;
use crate::word::{TOO_WIDE, Word, fits};

// The word of the second stands above that of the first.
#[derive(Drop)]
pub struct Pair<P, Q> {
    pub first: P,
    pub second: Q,
}

impl<P: Policy, Q: Policy> Pair<P, Q> {
    // How the words of both stand in one; nothing, where they are too wide: then every word is 0, which permits nothing.
    fn halves(&self) -> Option<Halves>
        ensures { let first = P.automaton self.now.first in let second = Q.automaton self.now.second in MatchOption result (width_limit < first.width + second.width) (λ halves. (halves.low ≡ first.width) × (halves.high ≡ second.width)) }
    {
        Halves::new(self.first.width(), self.second.width())
    }
}

impl<P: Policy, Q: Policy> Policy for Pair<P, Q> {
    ghost automaton = { λ s. both (P.automaton s.first) (Q.automaton s.second) };

    ghost permits = { λ s. Both (P.automaton s.first) (Q.automaton s.second) (P.permits s.first) (Q.permits s.second) };

    ghost lawful = { λ s. both_lawful _ _ _ _ (P.lawful s.first) (Q.lawful s.second) };

    fn width(&self) -> u32 {
        self.halves().map_or(TOO_WIDE, |halves| halves.width())
    }

    fn depart(&self, point: usize) -> Word {
        let Some(halves) = self.halves() else {
            return 0;
        };
        halves.join(self.second.depart(point), self.first.depart(point))
    }

    fn cross(&self, word: Word, number: u16, head: usize) -> Word {
        let Some(halves) = self.halves() else {
            return 0;
        };
        if !fits(word, halves.width()) {
            return 0;
        }
        let first = self.first.cross(halves.low(word), number, head);
        let second = self.second.cross(halves.high(word), number, head);
        halves.join(second, first)
    }

    fn may_end(&self, word: Word, point: usize) -> bool {
        self.halves().is_some_and(|halves| {
            self.first.may_end(halves.low(word), point)
                && self.second.may_end(halves.high(word), point)
        })
    }
}
