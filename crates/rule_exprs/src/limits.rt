// The limits on the expressions of a text. specs/Limits.antt states each number again, so that another number here is
// refused.

// A text has at most this many expressions. Each counts, also inside another, and each place of a sequence.
pub const EXPRESSIONS_LIMIT: usize = 64;

// A text has at most this many marked terms: `at`, `use` and `from`, also as places of a sequence.
pub const TERMS_LIMIT: usize = 16;

// An expression without brackets has depth 1, and each bracket adds 1.
pub const DEPTH_LIMIT: u8 = 8;

// `and`, `or` and `seq` have at least and at most this many members.
pub const MEMBERS_LEAST: usize = 2;

pub const MEMBERS_LIMIT: usize = 8;
