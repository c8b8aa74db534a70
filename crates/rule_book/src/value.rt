// What a word says of expressions and rules: each marked term has a bit of it, in the order of the text.
ghost use Rattle.std.specs.Prelude.{◌≡◌, ◌/◌, ◌^◌, map};
ghost use Rattle.policies.specs.Places.{bit};
ghost use Rattle.rule_exprs.specs.Formulas.{shape, marks};
ghost use Rattle.rule_text.specs.Statements.{stated};
ghost use Rattle.rule_book.specs.Meaning.{breaks};
ghost use Rattle.rule_book.specs.Marking.{value, rule_marks, rule_kept, kept};

use policies::word::{Word, has_bit};
use rule_exprs::expr::Expr;
use rule_text::rule::{Rule, RuleKind};

// The bits of a word that are left, the next one lowest.
#[derive(Drop)]
struct Bits {
    left: Word,
}

impl Bits {
    // The next bit.
    fn take(&mut self) -> bool
        ensures taken { result ≡ bit self.old.left 0 }
        ensures left { self.new.left ≡ self.old.left / 2 }
    {
        let taken = has_bit(self.left, 0);
        self.left >>= 1;
        taken
    }

    // Whether an expression holds of a walk that ends at `point`. Takes the bits of its marked terms.
    fn holds(&mut self, expr: &Expr, point: usize) -> bool
        ensures holds { result ≡ value (shape expr.now) self.old.left 0 point }
        ensures left { self.new.left ≡ self.old.left / 2 ^ marks (shape expr.now) }
    {
        match expr {
            Expr::Place(_) | Expr::From(_) => self.take(),
            Expr::To(n) => usize::from(*n) == point,
            Expr::Not(inner) => !self.holds(inner, point),
            // Each member takes its bits, so neither loop stops early. One for both would be handed its operator and its
            // first value, and be no shorter.
            Expr::And(members) => {
                let mut all = true;
                for member in members {
                    all &= self.holds(member, point);
                }
                all
            }
            Expr::Or(members) => {
                let mut one = false;
                for member in members {
                    one |= self.holds(member, point);
                }
                one
            }
            // the last place waits for those before it
            Expr::Seq(places) => {
                let mut last = true;
                for _ in places {
                    last = self.take();
                }
                last
            }
        }
    }

    // Whether a rule is not broken. Takes the bits of its marked terms.
    #[tactic(auto, using(crate::proofs::Shifted::value_after, crate::proofs::Shifted::left_after))]
    fn keeps(&mut self, rule: &Rule, point: usize) -> bool
        ensures kept { result ≡ rule_kept (stated rule.now) self.old.left 0 point }
        ensures left { self.new.left ≡ self.old.left / 2 ^ rule_marks (stated rule.now) }
    {
        let condition = self.holds(&rule.condition, point);
        let consequence = self.holds(&rule.consequence, point);
        !breaks(rule.kind, condition, consequence)
    }
}

// Whether a rule of a kind is broken.
fn breaks(kind: RuleKind, condition: bool, consequence: bool) -> bool
    ensures { result ≡ breaks kind condition consequence }
{
    match kind {
        RuleKind::Ban => condition && consequence,
        RuleKind::Need => condition && !consequence,
    }
}

// Whether no rule is broken by a walk with this word that ends at this point. Clauses say `map stated` of the rules, since a slice has no model.
pub fn are_kept(rules: &[Rule], word: Word, point: usize) -> bool
    ensures { result ≡ kept (map stated rules.now) word 0 point }
{
    let mut bits = Bits { left: word };
    // A loop, since a test that `all` calls would have to change the bits.
    for rule in rules {
        if !bits.keeps(rule, point) {
            return false;
        }
    }
    true
}
