// The marked terms of a book. Each has a bit, in the order of the text.
ghost use Rattle.std.specs.Prelude.{◌≡◌, ◌≤◌, ◌&&◌, ◌||◌, length};
ghost use Rattle.policies.specs.Places.{bit};
ghost use Rattle.rule_exprs.specs.Limits.{terms_limit};
ghost use Rattle.rule_book.specs.Marking.{notes, ready, marked};

use crate::event::Event;
use policies::word::{Word, has_bit, with_bit};
use rule_exprs::expr::Place;

// What a term waits for.
#[derive(Clone, Copy)]
pub enum Mark {
    Place(Place),
    From(u16),
}

#[derive(Clone, Copy)]
pub struct Term {
    pub mark: Mark,
    // Whether it is a place of a sequence that is not its first: it waits for the term before it too. A flag: what a mark notes is read without it, and whether a term is ready without the mark.
    pub chained: bool,
}

impl Mark {
    // Whether an event is what it waits for.
    fn notes(self, event: Event) -> bool
        ensures { result ≡ notes self event }
    {
        match self {
            Mark::Place(place) => event.meets(place),
            Mark::From(point) => event.departs(point),
        }
    }
}

impl Term {
    // Whether it may be marked: one in a chain where the term before it is marked.
    fn is_ready(self, word: Word, place: u32) -> bool
        ensures { result ≡ ready self.chained word place }
    {
        !self.chained || place == 0 || has_bit(word, place - 1)
    }

    // Whether its bit, at `place`, is set after an event.
    fn is_set(self, word: Word, event: Event, place: u32) -> bool
        ensures { result ≡ (bit word place || (ready self.chained word place && notes self.mark event)) }
    {
        has_bit(word, place) || self.is_ready(word, place) && self.mark.notes(event)
    }
}

// The word after an event. Doorsteps set their bits in such a loop too: one function for both would take a closure, and each would owe
// what the closure says of every item.
pub fn marked(terms: &[Term], word: Word, event: Event) -> Word
    requires { length terms.now ≤ terms_limit }
    ensures { result ≡ marked terms.now word event }
{
    let mut next = 0;
    for (i, term) in terms.iter().enumerate() {
        // `as`, since a book has at most 16 terms
        let place = i as u32;
        next = with_bit(next, place, term.is_set(word, event, place));
    }
    next
}
