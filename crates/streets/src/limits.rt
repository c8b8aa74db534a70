// The limits of every street map. specs/Limits.antt states each number again, so that another number here is refused.

// A map has at most this many points.
pub const POINTS_LIMIT: usize = 1024;

// Arc numbers are those below this.
pub const NUMBERS_END: usize = 4096;

pub const SECONDS_LIMIT: u16 = 3600;

// Per mille.
pub const CLIMB_LIMIT: u16 = 400;

// Cents.
pub const TOLL_LIMIT: u16 = 10000;

// A yard grid has 1 to this many rows, and as many columns.
pub const SIDE_LIMIT: usize = 32;
