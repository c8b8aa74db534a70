// Takes the tokens from the front of a text.
ghost use Rattle.std.specs.Prelude.{◌≡◌, ℕ, ◌<◌, ◌≤◌, true, false, length, slice_index};
ghost use Rattle.rule_tokens.specs.Lex.{blank, digit, value, plain, tokens, digits_limit};
ghost use Rattle.rule_tokens.specs.Ahead.{ahead, Reads, Takes};

use crate::cursor::Cursor;
use crate::fault::Fault;
use crate::run::run_len;
use crate::token::Token;

// A number has at most this many digits. specs/Lex.antt states it again, so that another number here is refused.
const DIGITS_LIMIT: usize = 5;

// What a run of digits stands for. By hand: `parse` takes a `&str`, and the way there has an error that cannot come here.
fn value_of(digits: &[u8]) -> u32
    requires short { length digits.now ≤ digits_limit }
    requires all { (k : ℕ) → k < length digits.now → digit (slice_index digits.now k) ≡ true }
    ensures { result ≡ value digits.now }
{
    let mut sum: u32 = 0;
    for b in digits {
        sum = sum * 10 + u32::from(*b - b'0');
    }
    sum
}

// The number of a run of digits that begins at `place`.
fn number(run: &[u8], place: usize) -> Result<u32, Fault>
    requires { (k : ℕ) → k < length run.now → digit (slice_index run.now k) ≡ true }
    ensures { Reads result (plain run.now) (value run.now) place }
{
    if run.len() > DIGITS_LIMIT || matches!(run, [b'0', _, ..]) {
        return Err(Fault::Token(place));
    }
    Ok(value_of(run))
}

#[derive(Drop)]
pub struct Reader<'a> {
    cursor: Cursor<'a>,
}

impl<'a> Reader<'a> {
    // At the front of a text.
    pub fn new(text: &'a [u8]) -> Reader<'a>
        ensures { ahead result ≡ tokens 0 0 text.now }
    {
        Reader {
            cursor: Cursor::new(text),
        }
    }

    // Goes past the blanks at the front, which say nothing.
    fn skip_blanks(&mut self)
        ensures same { ahead self.new ≡ ahead self.old }
        ensures none { blank (slice_index self.new.cursor.rest.now 0) ≡ false }
    {
        let len = run_len(self.cursor.rest, |b| b == b' ' || b == b'\n');
        self.cursor.take(len);
    }

    // Takes one token; the end of the text is given again and again.
    pub fn next(&mut self) -> Result<Token<'a>, Fault>
        ensures { Takes result (ahead self.old) (ahead self.new) }
    {
        self.skip_blanks();
        let place = self.cursor.place;
        let Some(first) = self.cursor.rest.first() else {
            return Ok(Token::End(place));
        };
        // Each of these bytes gives its own token.
        match *first as char {
            'a'..='z' => {
                let len = run_len(self.cursor.rest, |b| b.is_ascii_lowercase());
                Ok(Token::Word(self.cursor.take(len), place))
            }
            '0'..='9' => {
                let len = run_len(self.cursor.rest, |b| b.is_ascii_digit());
                let value = number(self.cursor.take(len), place)?;
                Ok(Token::Number(value, place))
            }
            '[' => {
                self.cursor.take(1);
                Ok(Token::Open(place))
            }
            ']' => {
                self.cursor.take(1);
                Ok(Token::Close(place))
            }
            '.' => {
                self.cursor.take(1);
                Ok(Token::Stop(place))
            }
            _ => Err(Fault::Token(place)),
        }
    }
}
