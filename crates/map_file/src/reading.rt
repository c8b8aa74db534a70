// The bytes of a map file, once their counts are known to be right, and what they hold at their places.
ghost use Rattle.std.specs.Prelude.{◌≡◌, ℕ, ◌+◌, ◌*◌, ◌<◌, ◌≤◌, length, IfOk};
ghost use Rattle.std.specs.Result.{result_err};
ghost use Rattle.map_file.specs.Reading.{field_at, points, records, offset, many, arc_at, counts_fault};
ghost use Rattle.map_file.specs.Sound.{Sized};

use crate::check::RECORDS_LIMIT;
use streets::arc::{Arc, Weight};
use streets::limits::POINTS_LIMIT;
use streets::refusal::Refusal;

// The field at a place, low byte first.
fn field(bytes: &[u8], at: usize) -> u16
    requires { at + 1 < length bytes.now }
    ensures { result ≡ field_at bytes.now at }
{
    u16::from_le_bytes([bytes[at], bytes[at + 1]])
}

// Where the records of a point begin, and how many it has.
#[derive(Clone, Copy)]
pub struct Pair {
    pub offset: u16,
    pub many: u16,
}

impl Pair {
    // Where they end.
    pub fn end(self) -> usize
        ensures { result ≡ self.offset + self.many }
    {
        usize::from(self.offset) + usize::from(self.many)
    }
}

// Bytes of the length that their counts ask for. It keeps no copy of them. No `impl Model`: one that borrows is not `Copy`.
#[derive(Clone, Copy)]
pub struct Sheet<'a> {
    bytes: &'a [u8],
    ghost sized: { Sized bytes.now },
}

impl<'a> Sheet<'a> {
    // The counts n and m are in range, and the length is the one they ask for.
    pub fn open(bytes: &'a [u8]) -> Result<Sheet<'a>, Refusal>
        ensures fault { result_err result ≡ counts_fault bytes.now }
        ensures bytes { IfOk result (λ sheet. sheet.bytes.now ≡ bytes.now) }
    {
        if bytes.len() < 4 {
            return Err(Refusal::FileLength);
        }
        let n = usize::from(field(bytes, 0));
        let m = usize::from(field(bytes, 2));
        if n < 1 || POINTS_LIMIT < n || RECORDS_LIMIT < m {
            return Err(Refusal::FileCounts);
        }
        if bytes.len() != 4 + 4 * n + 10 * m {
            return Err(Refusal::FileLength);
        }
        Ok(Sheet { bytes })
    }

    // No points and no arcs.
    pub fn empty() -> Sheet<'a>
        ensures points { points result.bytes.now ≡ 0 }
        ensures records { records result.bytes.now ≡ 0 }
    {
        Sheet {
            bytes: &[0, 0, 0, 0],
        }
    }
}

impl Sheet<'_> {
    pub fn points(&self) -> usize
        ensures { result ≡ points self.now.bytes.now }
    {
        usize::from(field(self.bytes, 0))
    }

    pub fn records(&self) -> usize
        ensures { result ≡ records self.now.bytes.now }
    {
        usize::from(field(self.bytes, 2))
    }

    pub fn pair_at(&self, point: usize) -> Pair
        requires { point < points self.now.bytes.now }
        ensures offset { result.offset ≡ offset self.now.bytes.now point }
        ensures many { result.many ≡ many self.now.bytes.now point }
    {
        let at = 4 + 4 * point;
        Pair {
            offset: field(self.bytes, at),
            many: field(self.bytes, at + 2),
        }
    }

    // The arc that a record states.
    pub fn arc_at(&self, index: usize) -> Arc
        requires { index < records self.now.bytes.now }
        ensures { result ≡ arc_at self.now.bytes.now index }
    {
        let at = 4 + 4 * self.points() + 10 * index;
        Arc {
            number: field(self.bytes, at),
            head: field(self.bytes, at + 2),
            weight: Weight {
                seconds: field(self.bytes, at + 4),
                climb: field(self.bytes, at + 6),
                toll: field(self.bytes, at + 8),
            },
        }
    }
}
