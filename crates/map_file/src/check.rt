// Whether bytes are a map file, check by check.
ghost use Rattle.std.specs.Prelude.{◌≡◌, ℕ, ◌+◌, ◌*◌, ◌<◌, ◌≤◌, length, is_ok, Decides};
ghost use Rattle.std.specs.Result.{result_err};
ghost use Rattle.map_file.specs.Format.{Encoded};
ghost use Rattle.map_file.specs.Reading.{points, is_in_line, end_before, is_within, pairs_fault, records_fault, numbers_fault, contents_fault, fault_of};
ghost use Rattle.map_file.specs.Sound.{Sized};

use crate::file::FileMap;
use crate::reading::Sheet;
use streets::arc::Arc;
use streets::limits::{CLIMB_LIMIT, NUMBERS_END, SECONDS_LIMIT, TOLL_LIMIT};
use streets::marks::Marks;
use streets::refusal::Refusal;

// A file has at most this many records. specs/Format.antt states the number again, so that another number here is refused.
pub const RECORDS_LIMIT: usize = 4096;

// Head, seconds, climb and toll are within their ranges.
fn is_arc_within(n: usize, arc: Arc) -> bool
    ensures { result ≡ is_within n arc }
{
    usize::from(arc.head) < n
        && arc.weight.seconds <= SECONDS_LIMIT
        && arc.weight.climb <= CLIMB_LIMIT
        && arc.weight.toll <= TOLL_LIMIT
}

impl Sheet<'_> {
    // Where the records of the points before one end.
    fn end_before(&self, point: usize) -> usize
        requires { point ≤ points self.now.bytes.now }
        ensures { result ≡ end_before self.now.bytes.now point }
    {
        if point == 0 {
            0
        } else {
            self.pair_at(point - 1).end()
        }
    }

    // A point's offset is the end of the point before.
    fn is_in_line(&self, point: usize) -> bool
        requires { point < points self.now.bytes.now }
        ensures { result ≡ is_in_line self.now.bytes.now point }
    {
        usize::from(self.pair_at(point).offset) == self.end_before(point)
    }

    // Each offset is the end of the point before, and the last end is the number of records; if only that is not so, the place is the number of points.
    fn check_pairs(&self) -> Result<(), Refusal>
        ensures { result_err result ≡ pairs_fault self.now.bytes.now }
    {
        let n = self.points();
        let last = (self.end_before(n) != self.records()).then_some(n);
        (0..n)
            .find(|p| !self.is_in_line(*p))
            .or(last)
            .map_or(Ok(()), |p| Err(Refusal::PairOutOfLine(p)))
    }

    // Each record's head, seconds, climb and toll are within their ranges.
    fn check_records(&self) -> Result<(), Refusal>
        ensures { result_err result ≡ records_fault self.now.bytes.now }
    {
        let n = self.points();
        (0..self.records())
            .find(|i| !is_arc_within(n, self.arc_at(*i)))
            .map_or(Ok(()), |i| Err(Refusal::RecordOutside(i)))
    }

    // Each record's number is at most 4,095 and stands in no record before it.
    fn check_numbers(&self) -> Result<(), Refusal>
        ensures { result_err result ≡ numbers_fault self.now.bytes.now }
    {
        let mut seen = Marks::none();
        // A loop, since a test that `find` calls would have to change the marks.
        for i in 0..self.records() {
            let number = usize::from(self.arc_at(i).number);
            if number >= NUMBERS_END || seen.has(number) {
                return Err(Refusal::NumberTaken(i));
            }
            seen.put(number, true);
        }
        Ok(())
    }

    // The checks of pairs and records in their order; the first that fails decides.
    pub fn check(&self) -> Result<(), Refusal>
        ensures { result_err result ≡ contents_fault self.now.bytes.now }
    {
        self.check_pairs()?;
        self.check_records()?;
        self.check_numbers()
    }
}

// Ok exactly when the bytes are those of a map file; otherwise the first check that fails, with its place.
pub fn check(bytes: &[u8]) -> Result<(), Refusal>
    ensures encoded { Decides (is_ok result) (Encoded bytes.now) }
    ensures fault { result_err result ≡ fault_of bytes.now }
{
    FileMap::open(bytes).map(|_| ())
}
