// Collects the marked terms of a book, in the order of its text.
ghost use Rattle.std.specs.Prelude.{◌≡◌, false, map, MatchResult};
ghost use Rattle.rule_tokens.specs.declared.fault.Fault.TheVariants.{Memory};
ghost use Rattle.rule_exprs.specs.Formulas.{shape};
ghost use Rattle.rule_text.specs.Statements.{stated};
ghost use Rattle.rule_book.specs.Adds.{Adds};
ghost use Rattle.rule_book.specs.Terms as spec;
ghost use Rattle.rule_book.specs.Terms.{alone, place_terms, rule_terms, book_terms};

use crate::term::{Mark, Term};
use rule_exprs::expr::{Expr, Place};
use rule_text::rule::Rule;
use rule_tokens::fault::Fault;
use std::alloc::Global;

fn add_term(terms: &mut Vec<Term>, mark: Mark) -> Result<(), Fault>
    ensures { Adds result terms.old.items terms.new.items (alone mark) }
{
    terms.push(Term {
        mark,
        chained: false,
    })?;
    Ok(())
}

// The places of a sequence, all but its first chained.
fn add_places(terms: &mut Vec<Term>, places: &[Place]) -> Result<(), Fault>
    ensures { Adds result terms.old.items terms.new.items (place_terms places.now false) }
{
    for (i, place) in places.iter().enumerate() {
        terms.push(Term {
            mark: Mark::Place(*place),
            chained: i > 0,
        })?;
    }
    Ok(())
}

fn add_expr(terms: &mut Vec<Term>, expr: &Expr) -> Result<(), Fault>
    ensures { Adds result terms.old.items terms.new.items (spec.terms (shape expr.now)) }
{
    match expr {
        Expr::Place(place) => add_term(terms, Mark::Place(*place)),
        Expr::From(n) => add_term(terms, Mark::From(*n)),
        Expr::To(_) => Ok(()),
        Expr::Not(inner) => add_expr(terms, inner),
        Expr::And(members) | Expr::Or(members) => {
            for member in members {
                add_expr(terms, member)?;
            }
            Ok(())
        }
        Expr::Seq(places) => add_places(terms, places.as_slice()),
    }
}

fn add_rule(terms: &mut Vec<Term>, rule: &Rule) -> Result<(), Fault>
    ensures { Adds result terms.old.items terms.new.items (rule_terms (stated rule.now)) }
{
    add_expr(terms, &rule.condition)?;
    add_expr(terms, &rule.consequence)
}

// The marked terms of some rules; the only fault is want of memory.
pub fn terms_of(heap: Global, rules: &[Rule]) -> Result<Vec<Term>, Fault>
    ensures { MatchResult result (λ terms. terms.items ≡ book_terms (map stated rules.now)) (λ f. f ≡ Memory) }
{
    let mut terms = Vec::new(heap);
    for rule in rules {
        add_rule(&mut terms, rule)?;
    }
    Ok(terms)
}
