// A rule: where its condition is met, the consequence is forbidden or asked for.
use rule_exprs::expr::Expr;

#[derive(Clone, Copy, Debug, PartialEq, Eq)]
pub enum RuleKind {
    Ban,
    Need,
}

#[derive(Drop)]
pub struct Rule {
    pub kind: RuleKind,
    pub number: u16,
    pub condition: Expr,
    pub consequence: Expr,
}
