// Reads expressions from a text, token by token. What is wrong with the first wrong token is passed up as it is.
ghost use Rattle.std.specs.Prelude.{◌≡◌, suc, true, false, ◌+◌, ◌<◌, [], ◌∷◌, IfOk, OnSome};
ghost use Rattle.rule_tokens.specs.Ahead.{ahead};
ghost use Rattle.rule_tokens.specs.Seen.{seen};
ghost use Rattle.rule_exprs.specs.Limits.{members_limit};
ghost use Rattle.rule_exprs.specs.Formulas.{shape, shapes, none, more};
ghost use Rattle.rule_exprs.specs.Grammar as grammar;
ghost use Rattle.rule_exprs.specs.Grammar.{a_number, counted, opened, group, end_bracket, a_place, members};
ghost use Rattle.rule_exprs.specs.Follow.{Follows, next_member, seen_if};

use crate::expr::{Expr, Place};
use crate::keyword::{Keyword, keyword_of};
use crate::limits::{DEPTH_LIMIT, EXPRESSIONS_LIMIT, MEMBERS_LEAST, MEMBERS_LIMIT, TERMS_LIMIT};
use rule_tokens::fault::Fault;
use rule_tokens::reader::Reader;
use rule_tokens::token::Token;
use std::alloc::Global;
use std::marker::Model;
use streets::limits::{NUMBERS_END, POINTS_LIMIT};

// The points and the numbers of arcs are those below these. `as`, since a constant can call no `try_from`; that nothing
// is lost is proved where they are used.
const POINTS_END: u16 = POINTS_LIMIT as u16;

const ARCS_END: u16 = NUMBERS_END as u16;

#[derive(Drop)]
pub struct Parser<'a> {
    heap: Global,
    reader: Reader<'a>,
    // how many were read so far
    expressions: usize,
    terms: usize,
}

// Clauses see a parser as what is still to come and what was counted.
impl<'a> Model for Parser<'a> {
    ghost Value = { grammar.St };

    ghost view = { λ p. record { toks = ahead p.reader; expressions = p.expressions; terms = p.terms } };
}

impl<'a> Parser<'a> {
    // At the front of a text.
    pub fn new(heap: Global, text: &'a [u8]) -> Parser<'a>
        ensures { result ≡ grammar.start text.now }
    {
        Parser {
            heap,
            reader: Reader::new(text),
            expressions: 0,
            terms: 0,
        }
    }

    pub fn token(&mut self) -> Result<Token<'a>, Fault>
        ensures { Follows seen result self.new (grammar.token self.old) }
    {
        self.reader.next()
    }

    // A number below `end`; one that doesn't fit in 16 bits is refused like any other.
    fn number(&mut self, end: u16) -> Result<u16, Fault>
        ensures { Follows (λ n. n) result self.new (a_number end self.old) }
    {
        let token = self.token()?;
        let Token::Number(n, place) = token else {
            return Err(Fault::Order(token.place()));
        };
        // a `match`, so that a number that is too high and one that doesn't fit are one case
        match u16::try_from(n) {
            Ok(n) if n < end => Ok(n),
            _ => Err(Fault::Value(place)),
        }
    }

    // Counts an expression, whose keyword stands at `place`.
    fn count(&mut self, place: usize) -> Result<(), Fault>
        ensures { Follows (λ u. u) result self.new (counted place false self.old) }
    {
        if self.expressions >= EXPRESSIONS_LIMIT {
            return Err(Fault::Limit(place));
        }
        self.expressions += 1;
        Ok(())
    }

    // The number of a marked term, whose keyword stands at `place`. It tests and adds as `count` does: a helper for both
    // would need a contract longer than those lines.
    fn term(&mut self, place: usize, end: u16) -> Result<u16, Fault>
        ensures { Follows (λ n. n) result self.new (grammar.term place true end self.old) }
    {
        self.count(place)?;
        if self.terms >= TERMS_LIMIT {
            return Err(Fault::Limit(place));
        }
        self.terms += 1;
        self.number(end)
    }

    // A place, from its first token on.
    fn place(&mut self, head: Token<'a>) -> Result<Place, Fault>
        ensures { Follows (λ x. x) result self.new (a_place (seen head.entry) self.old) }
    {
        let Token::Word(word, place) = head else {
            return Err(Fault::Order(head.place()));
        };
        match keyword_of(word) {
            Some(Keyword::At) => Ok(Place::At(self.term(place, POINTS_END)?)),
            Some(Keyword::Use) => Ok(Place::Use(self.term(place, ARCS_END)?)),
            _ => Err(Fault::Order(place)),
        }
    }

    // Counts the expression whose keyword stands at `place`, and takes the opening bracket after it. `depth` is how many
    // brackets may still be opened here, and the result how many inside this one. The two are no struct: each keyword
    // has a place of its own, and only the depth is passed on from one bracket to those inside it.
    fn open(&mut self, place: usize, depth: u8) -> Result<u8, Fault>
        ensures less { IfOk result (λ d. suc d ≡ depth) }
        ensures follows { Follows (λ _. tt) result self.new (opened place depth self.old) }
    {
        self.count(place)?;
        let token = self.token()?;
        let Token::Open(place) = token else {
            return Err(Fault::Order(token.place()));
        };
        depth.checked_sub(1).ok_or(Fault::Limit(place))
    }

    // Each expected token has a `let .. else` of its own, whose other branch gives the fault and its place.
    fn close(&mut self) -> Result<(), Fault>
        ensures { Follows (λ u. u) result self.new (end_bracket self.old) }
    {
        let token = self.token()?;
        let Token::Close(_) = token else {
            return Err(Fault::Order(token.place()));
        };
        Ok(())
    }

    // After `count` members of a bracket: none where it closes, and otherwise the first token of one more.
    fn member(&mut self, count: usize) -> Result<Option<Token<'a>>, Fault>
        ensures room { IfOk result (λ t. OnSome t (count < members_limit)) }
        ensures follows { Follows seen_if result self.new (next_member count self.old) }
    {
        let token = self.token()?;
        if let Token::Close(place) = token {
            if count < MEMBERS_LEAST {
                return Err(Fault::Order(place));
            }
            return Ok(None);
        }
        if count >= MEMBERS_LIMIT {
            return Err(Fault::Order(token.place()));
        }
        Ok(Some(token))
    }

    // The places of a sequence, whose keyword stands at `place`. Its loop is not shared with `operands`, which has to call
    // `form` by name: those two call each other.
    fn places(&mut self, place: usize, depth: u8) -> Result<Vec<Place>, Fault>
        ensures { Follows (λ v. v.items) result self.new (group place depth (members [] ◌∷◌ a_place members_limit 0) self.old) }
    {
        self.open(place, depth)?;
        let mut places = Vec::new(self.heap);
        while let Some(token) = self.member(places.len())? {
            places.push(self.place(token)?)?;
        }
        Ok(places)
    }

    // An expression from its first token on, where `depth` more brackets may be nested.
    #[cycle(form_operands_single)]
    fn form(&mut self, head: Token<'a>, depth: u8) -> Result<Expr, Fault>
        ensures { Follows shape result self.new (grammar.expression (suc depth) (seen head.entry) self.old) }
    {
        let Token::Word(word, place) = head else {
            return Err(Fault::Order(head.place()));
        };
        match keyword_of(word) {
            Some(Keyword::At | Keyword::Use) => Ok(Expr::Place(self.place(head)?)),
            Some(Keyword::From) => Ok(Expr::From(self.term(place, POINTS_END)?)),
            Some(Keyword::To) => {
                self.count(place)?;
                Ok(Expr::To(self.number(POINTS_END)?))
            }
            Some(Keyword::Not) => {
                let e = self.single(place, depth)?;
                Ok(Expr::Not(Box::new(self.heap, e)?))
            }
            Some(Keyword::And) => Ok(Expr::And(self.operands(place, depth)?)),
            Some(Keyword::Or) => Ok(Expr::Or(self.operands(place, depth)?)),
            Some(Keyword::Seq) => Ok(Expr::Seq(self.places(place, depth)?)),
            _ => Err(Fault::Order(place)),
        }
    }

    // The one member of `not`, whose keyword stands at `place`.
    #[cycle(form_operands_single)]
    fn single(&mut self, place: usize, depth: u8) -> Result<Expr, Fault>
        ensures { Follows shape result self.new (group place depth (grammar.single (grammar.expression depth)) self.old) }
    {
        let inner = self.open(place, depth)?;
        let token = self.token()?;
        let e = self.form(token, inner)?;
        self.close()?;
        Ok(e)
    }

    // The members of `and` or `or`, whose keyword stands at `place`.
    #[cycle(form_operands_single)]
    fn operands(&mut self, place: usize, depth: u8) -> Result<Vec<Expr>, Fault>
        ensures { Follows (λ v. shapes v.items) result self.new (group place depth (members none more (grammar.expression depth) members_limit 0) self.old) }
    {
        let inner = self.open(place, depth)?;
        let mut operands = Vec::new(self.heap);
        while let Some(token) = self.member(operands.len())? {
            operands.push(self.form(token, inner)?)?;
        }
        Ok(operands)
    }

    // An expression that stands in no bracket.
    #[tactic(auto, unfolding(crate::specs::Grammar::whole))]
    pub fn expression(&mut self) -> Result<Expr, Fault>
        ensures { Follows shape result self.new (grammar.whole self.old) }
    {
        let token = self.token()?;
        self.form(token, DEPTH_LIMIT - 1)
    }
}
