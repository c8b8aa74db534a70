// A book of rules.
ghost use Rattle.std.specs.Prelude.{◌≡◌, []};
ghost use Rattle.rule_text.specs.Statements.{contents};
ghost use Rattle.rule_text.specs.Books.{verdict};
ghost use Rattle.rule_text.specs.Following.{Replaces};
ghost use Rattle.rule_text.specs.Loads.{Loads};

use crate::reading::read;
use crate::rule::Rule;
use rule_tokens::fault::Fault;
use std::alloc::Global;

#[derive(Drop)]
pub struct Book {
    rules: Vec<Rule>,
}

impl Book {
    // A book of no rules.
    pub fn new(heap: Global) -> Book
        ensures { contents result ≡ [] }
    {
        Book {
            rules: Vec::new(heap),
        }
    }

    pub fn rules(&self) -> &[Rule]
        ensures { result.now ≡ self.now.rules.items }
    {
        &self.rules
    }

    // Takes the rules of a text in place of those it has; on a refusal it keeps them.
    pub fn load(&mut self, heap: Global, text: &[u8]) -> Result<(), Fault>
        ensures replaces { Replaces result (verdict text.now) self.old self.new }
        ensures loads { Loads result text.now self.old self.new }
    {
        self.rules = read(heap, text)?;
        Ok(())
    }
}
