// The limits on a rule text. specs/Limits.antt states each number again, so that another number here is refused.

// A text has at most this many bytes.
pub const TEXT_LIMIT: usize = 4096;

// A book has at most this many rules.
pub const RULES_LIMIT: usize = 16;

// The highest number of a rule; the lowest is 1.
pub const NUMBER_LIMIT: u32 = 9999;
