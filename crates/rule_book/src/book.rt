// A rule book as a policy: it permits the walks that break none of its rules.
ghost use Rattle.std.specs.Prelude.{◌≡◌, ◌≤◌, [], length, sum_by, OnErr};
ghost use Rattle.rule_exprs.specs.Limits.{terms_limit};
ghost use Rattle.rule_text.specs.Loads.{Loads};
ghost use Rattle.rule_text.specs.Statements.{contents};
ghost use Rattle.rule_book.specs.Meaning.{Permits};
ghost use Rattle.rule_book.specs.Terms.{book_terms};
ghost use Rattle.rule_book.specs.Marking as spec;
ghost use Rattle.rule_book.specs.Marking.{rule_marks, ruling};
ghost use Rattle.rule_book.specs.Ruling.{ruling_lawful};

use crate::collect::terms_of;
use crate::event::Event;
use crate::term::{Term, marked};
use crate::value::are_kept;
use policies::policy::Policy;
use policies::word::{Word, fits};
use rule_text::book::Book;
use rule_tokens::fault::Fault;
use std::alloc::Global;

// Each marked term has a bit of the word, in the order of the text: set once its event has come.
#[derive(Drop)]
pub struct RuleBook {
    book: Book,
    terms: Vec<Term>,
    ghost collected: { terms.items ≡ book_terms (contents book) },
    ghost few: { sum_by rule_marks (contents book) ≤ terms_limit },
}

impl RuleBook {
    // A book of no rules, which permits every walk.
    pub fn new(heap: Global) -> RuleBook
        ensures { contents result.book ≡ [] }
    {
        RuleBook {
            book: Book::new(heap),
            terms: Vec::new(heap),
        }
    }

    // How many rules there are.
    pub fn count(&self) -> usize
        ensures { result ≡ length (contents self.now.book) }
    {
        self.book.rules().len()
    }

    // Takes the rules of a text in place of those it has; on a refusal it keeps them.
    pub fn load(&mut self, heap: Global, text: &[u8]) -> Result<(), Fault>
        ensures read { Loads result text.now self.old.book self.new.book }
        ensures kept { OnErr result (self.new ≡ self.old) }
    {
        let mut book = Book::new(heap);
        book.load(heap, text)?;
        let terms = terms_of(heap, book.rules())?;
        *self = RuleBook { book, terms };
        Ok(())
    }

    // The word after an event.
    #[tactic(auto, using(crate::specs::Ruling::book_count))]
    fn after(&self, word: Word, event: Event) -> Word
        ensures { result ≡ spec.marked (book_terms (contents self.now.book)) word event }
    {
        marked(self.terms.as_slice(), word, event)
    }
}

impl Policy for RuleBook {
    ghost automaton = { λ s. ruling (contents s.book) };

    ghost permits = { λ s. Permits (contents s.book) };

    ghost lawful = { λ s. ruling_lawful (contents s.book) s.few };

    // `as`, since a book has at most 16 terms
    #[tactic(auto, using(crate::specs::Ruling::book_count))]
    fn width(&self) -> u32 {
        self.terms.len() as u32
    }

    fn depart(&self, point: usize) -> Word {
        self.after(0, Event::Depart(point))
    }

    fn cross(&self, word: Word, number: u16, head: usize) -> Word {
        if fits(word, self.width()) {
            let crossed = self.after(word, Event::Cross(number));
            self.after(crossed, Event::Arrive(head))
        } else {
            0
        }
    }

    fn may_end(&self, word: Word, point: usize) -> bool {
        fits(word, self.width()) && are_kept(self.book.rules(), word, point)
    }
}
