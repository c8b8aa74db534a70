// The words of the rule language.
ghost use Rattle.std.specs.Prelude.{◌≡◌};
ghost use Rattle.rule_exprs.specs.Keywords.{meant};

#[derive(Clone, Copy, Debug, PartialEq, Eq)]
pub enum Keyword {
    Ban,
    Need,
    Then,
    At,
    Use,
    From,
    To,
    Not,
    And,
    Or,
    Seq,
}

// No `TryFrom`: a word that is no keyword is no error by itself, and what reads it says which fault it is.
pub fn keyword_of(word: &[u8]) -> Option<Keyword>
    ensures { result ≡ meant word.now }
{
    match word {
        b"ban" => Some(Keyword::Ban),
        b"need" => Some(Keyword::Need),
        b"then" => Some(Keyword::Then),
        b"at" => Some(Keyword::At),
        b"use" => Some(Keyword::Use),
        b"from" => Some(Keyword::From),
        b"to" => Some(Keyword::To),
        b"not" => Some(Keyword::Not),
        b"and" => Some(Keyword::And),
        b"or" => Some(Keyword::Or),
        b"seq" => Some(Keyword::Seq),
        _ => None,
    }
}
