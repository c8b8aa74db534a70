// A token, with the place of its first byte.
ghost use Rattle.std.specs.Prelude.{◌≡◌};
ghost use Rattle.rule_tokens.specs.Seen.{place_of};

#[derive(Clone, Copy, Debug)]
pub enum Token<'a> {
    // its letters, in the text
    Word(&'a [u8], usize),
    Number(u32, usize),
    Open(usize),
    Close(usize),
    Stop(usize),
    // no token is left
    End(usize),
}

impl<'a> Token<'a> {
    pub fn place(self) -> usize
        ensures { result ≡ place_of self.entry }
    {
        match self {
            Token::Word(_, place)
            | Token::Number(_, place)
            | Token::Open(place)
            | Token::Close(place)
            | Token::Stop(place)
            | Token::End(place) => place,
        }
    }
}
