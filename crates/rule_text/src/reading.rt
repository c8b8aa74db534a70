// Reads the rules of a text.
ghost use Rattle.std.specs.Prelude.{◌≡◌, ◌<◌, length, map, IfOk, OnSome};
ghost use Rattle.std.specs.Option.{option_map};
ghost use Rattle.rule_tokens.specs.Seen.{seen};
ghost use Rattle.rule_exprs.specs.Follow.{Follows};
ghost use Rattle.rule_text.specs.Limits.{rules_limit};
ghost use Rattle.rule_text.specs.Statements.{stated};
ghost use Rattle.rule_text.specs.Books as books;
ghost use Rattle.rule_text.specs.Books.{a_then, a_stop, a_rule, verdict};
ghost use Rattle.rule_text.specs.Following.{Begins, Judges, next_or_end};

use crate::limits::{NUMBER_LIMIT, RULES_LIMIT, TEXT_LIMIT};
use crate::rule::{Rule, RuleKind};
use rule_exprs::keyword::{Keyword, keyword_of};
use rule_exprs::parser::Parser;
use rule_tokens::fault::Fault;
use rule_tokens::token::Token;
use std::alloc::Global;

// The kind of the rule that begins at a token.
fn kind_at(head: Token<'_>) -> Result<RuleKind, Fault>
    ensures { Begins result (seen head.entry) }
{
    let Token::Word(word, place) = head else {
        return Err(Fault::Order(head.place()));
    };
    // A `TryFrom<Keyword>` would hold this same match, and its error would still have to become the fault.
    match keyword_of(word) {
        Some(Keyword::Ban) => Ok(RuleKind::Ban),
        Some(Keyword::Need) => Ok(RuleKind::Need),
        _ => Err(Fault::Order(place)),
    }
}

// Whether a rule has this number. Here and below clauses say `map stated` of the rules, since a slice of them has no model of its own.
fn is_taken(rules: &[Rule], number: u16) -> bool
    ensures { result ≡ books.taken (map stated rules.now) number }
{
    rules.iter().any(|rule| rule.number == number)
}

// The number of a rule, which none of the rules before it has.
fn fresh(parser: &mut Parser<'_>, rules: &[Rule]) -> Result<u16, Fault>
    ensures { Follows (λ n. n) result parser.new (books.fresh (map stated rules.now) parser.old) }
{
    let token = parser.token()?;
    let Token::Number(n, place) = token else {
        return Err(Fault::Order(token.place()));
    };
    // a `match`, as for the numbers in expressions, with a test of its own
    match u16::try_from(n) {
        Ok(number) if (1..=NUMBER_LIMIT).contains(&n) && !is_taken(rules, number) => Ok(number),
        _ => Err(Fault::Value(place)),
    }
}

// Each expected token has a `let .. else` of its own, whose other branch gives the fault and its place.
fn then(parser: &mut Parser<'_>) -> Result<(), Fault>
    ensures { Follows (λ u. u) result parser.new (a_then parser.old) }
{
    let token = parser.token()?;
    let Token::Word(word, place) = token else {
        return Err(Fault::Order(token.place()));
    };
    let Some(Keyword::Then) = keyword_of(word) else {
        return Err(Fault::Order(place));
    };
    Ok(())
}

// As in `then`, a `let .. else` for the expected token.
fn stop(parser: &mut Parser<'_>) -> Result<(), Fault>
    ensures { Follows (λ u. u) result parser.new (a_stop parser.old) }
{
    let token = parser.token()?;
    let Token::Stop(_) = token else {
        return Err(Fault::Order(token.place()));
    };
    Ok(())
}

// A rule after its first word; `rules` are those before it. They are no field beside the parser: `then` and `stop` don't
// use them, and `read` adds to them between two calls.
fn rule(parser: &mut Parser<'_>, kind: RuleKind, rules: &[Rule]) -> Result<Rule, Fault>
    ensures { Follows stated result parser.new (a_rule (map stated rules.now) kind parser.old) }
{
    let number = fresh(parser, rules)?;
    let condition = parser.expression()?;
    then(parser)?;
    let consequence = parser.expression()?;
    stop(parser)?;
    Ok(Rule {
        kind,
        number,
        condition,
        consequence,
    })
}

// The rule that follows these, or none where the text ends.
fn next_rule(parser: &mut Parser<'_>, rules: &[Rule]) -> Result<Option<Rule>, Fault>
    ensures room { IfOk result (λ r. OnSome r (length rules.now < rules_limit)) }
    ensures follows { Follows (option_map stated) result parser.new (next_or_end (map stated rules.now) parser.old) }
{
    let token = parser.token()?;
    if matches!(token, Token::End(_)) {
        return Ok(None);
    }
    let kind = kind_at(token)?;
    if rules.len() >= RULES_LIMIT {
        return Err(Fault::Limit(token.place()));
    }
    Ok(Some(rule(parser, kind, rules)?))
}

// The rules of a text, up to its end.
pub fn read(heap: Global, text: &[u8]) -> Result<Vec<Rule>, Fault>
    ensures { Judges result (verdict text.now) }
{
    if text.len() > TEXT_LIMIT {
        return Err(Fault::Limit(TEXT_LIMIT));
    }
    let mut parser = Parser::new(heap, text);
    let mut rules = Vec::new(heap);
    while let Some(rule) = next_rule(&mut parser, &rules)? {
        rules.push(rule)?;
    }
    Ok(rules)
}
