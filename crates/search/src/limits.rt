// How large a pool may be.

// A pool has at most this many labels. specs/Limits.antt states the number on its own, so that a change of it here alone is refused.
pub const LABELS_LIMIT: usize = 65_536;
