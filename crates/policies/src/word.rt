// The word of a policy, and its bits.
ghost use Rattle.std.specs.Prelude.{◌≡◌, ◌^◌, ◌&&◌, if◌then◌else◌, bit_or, nat_lt};
ghost use Rattle.policies.specs.Limits.{width_limit};
ghost use Rattle.policies.specs.Places.{bit};

pub type Word = u32;

// A policy has at most this many bits: as many as a word. specs/Limits.antt states the number again, so that another type here is refused.
pub const WIDTH_LIMIT: u32 = Word::BITS;

// The width of a policy that would need more. A number and no Option: callers compare it with the limit.
pub const TOO_WIDE: u32 = WIDTH_LIMIT + 1;

// Whether a word has no bit set from `width` on.
pub fn fits(word: Word, width: u32) -> bool
    ensures { result ≡ nat_lt word (2 ^ width) }
{
    word.unbounded_shr(width) == 0
}

// Whether a bit is set; beyond the limit none is.
pub fn has_bit(word: Word, place: u32) -> bool
    ensures { result ≡ bit word place }
{
    word.unbounded_shr(place) & 1 == 1
}

// The word with one bit set where `set`; a place beyond the limit is no bit.
pub fn with_bit(word: Word, place: u32, set: bool) -> Word
    ensures { result ≡ bit_or word (if set && nat_lt place width_limit then 2 ^ place else 0) }
{
    if set && place < WIDTH_LIMIT {
        word | 1 << place
    } else {
        word
    }
}
