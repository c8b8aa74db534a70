// What a policy tells. Its questions alter nothing.
ghost use Rattle.std.specs.Prelude.{◌≡◌, ℕ, List};
ghost use Rattle.policies.specs.declared.step.Step.{Step};
ghost use Rattle.policies.specs.Automaton.{Automaton, Lawful};

use crate::word::Word;

// A policy means a set of walks (`permits`: a start, then the steps). What it answers (`automaton`) tells exactly these, by the laws.
pub trait Policy {
    ghost automaton: { Self → Automaton };

    ghost permits: { Self → ℕ → List Step → Type 0 };

    ghost lawful: { (s : Self) → Lawful (automaton s) (permits s) };

    // How many bits its words have; one more than the limit where they would be too many.
    fn width(&self) -> u32
        ensures { result ≡ (automaton self.now).width };

    // The word of a walk that departs from a point.
    fn depart(&self, point: usize) -> Word
        ensures { result ≡ (automaton self.now).depart point };

    // The word after crossing an arc and reaching its head. Number and head apart, as an arc has them: a `Step` would be made for each call.
    fn cross(&self, word: Word, number: u16, head: usize) -> Word
        ensures { result ≡ (automaton self.now).cross word number head };

    // Whether a walk with this word may end at this point.
    fn may_end(&self, word: Word, point: usize) -> bool
        ensures { result ≡ (automaton self.now).ends word point };
}

// A policy that is lent is a policy, so that its owner keeps it. Each method is passed on by hand, since no derive does it.
impl<P: Policy> Policy for &P {
    ghost automaton = { λ r. P.Policy.automaton r.now };

    ghost permits = { λ r. P.Policy.permits r.now };

    ghost lawful = { λ r. P.Policy.lawful r.now };

    fn width(&self) -> u32 {
        (**self).width()
    }

    fn depart(&self, point: usize) -> Word {
        (**self).depart(point)
    }

    fn cross(&self, word: Word, number: u16, head: usize) -> Word {
        (**self).cross(word, number, head)
    }

    fn may_end(&self, word: Word, point: usize) -> bool {
        (**self).may_end(word, point)
    }
}
