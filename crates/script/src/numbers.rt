// Numbers, as a script writes them.
ghost use Rattle.std.specs.Prelude.{◌≡◌};
ghost use Rattle.script.specs.Numbers.{number_of};

// specs/Numbers.antt states the number again, so that another number here is refused.
const MOST_DIGITS: usize = 10;

// The number that a word writes: 1 to 10 decimal digits and nothing else.
pub fn number(word: &[u8]) -> Option<u64>
    ensures { result ≡ number_of word.now }
{
    if word.is_empty() || word.len() > MOST_DIGITS {
        return None;
    }
    // By hand: `from_utf8` alone took as long as this loop does, and `parse` as long again.
    let mut value: u64 = 0;
    for b in word {
        if !b.is_ascii_digit() {
            return None;
        }
        value = value * 10 + u64::from(*b - b'0');
    }
    Some(value)
}
