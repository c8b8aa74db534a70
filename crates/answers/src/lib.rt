// The program's answers, in words that a planner reads. They are written where they are printed, and take no memory.
// The types wrap those of `streets`: Rust takes an impl of `Display` only in the crate of the type.
#![tactic(auto)]

ghost use Rattle.std.specs.Prelude.{◌≡◌, Some};
ghost use Rattle.answers.specs.Words.{arc_words, arcs_words, refusal_words};

use std::fmt;
use streets::arc::{Arc, Weight};
use streets::refusal::Refusal;

// One arc, as `1 to 2 30s climb 80 toll 0`.
#[derive(Clone, Copy)]
pub struct ArcWords(pub Arc);

impl fmt::Display for ArcWords {
    ghost output = { λ w. Some (arc_words w.0) };

    fn fmt<W: fmt::Write>(&self, f: &mut fmt::Formatter<W>) -> fmt::Result {
        let Arc {
            number,
            head,
            weight: Weight {
                seconds,
                climb,
                toll,
            },
        } = self.0;
        write!(f, "{number} to {head} {seconds}s climb {climb} toll {toll}")
    }
}

// Arcs in their order, parted by semicolons; `none` where there is none.
#[derive(Clone, Copy)]
pub struct ArcsWords<'a>(pub &'a [Arc]);

impl fmt::Display for ArcsWords<'_> {
    ghost output = { λ w. Some (arcs_words w.0.now) };

    fn fmt<W: fmt::Write>(&self, f: &mut fmt::Formatter<W>) -> fmt::Result {
        let [first, rest @ ..] = self.0 else {
            return f.write_str("none");
        };
        write!(f, "{}", ArcWords(*first))?;
        for arc in rest {
            write!(f, "; {}", ArcWords(*arc))?;
        }
        Ok(())
    }
}

// A refusal by its number, its place if it has one, and why.
#[derive(Clone, Copy)]
pub struct RefusalWords {
    refusal: Refusal,
    reason: &'static str,
}

impl RefusalWords {
    pub fn new(refusal: Refusal) -> RefusalWords
        ensures { result.refusal ≡ refusal }
    {
        // Held beside the refusal, so that the output is a definition's with no table of these texts in specs/.
        let reason = match refusal {
            Refusal::PointOutside => "the map has no such point",
            Refusal::PoolSize => "a search has 1 to 65536 labels",
            Refusal::RouteShort => "the route list has fewer places than the pool has labels",
            Refusal::ArcOutside => "arc numbers go up to 4095",
            Refusal::FileLength => "the map file is not as long as its counts ask for",
            Refusal::FileCounts => "a map file has 1 to 1024 points and at most 4096 arcs",
            Refusal::PairOutOfLine(_) =>
                "the arcs of this point do not begin where those of the point before it end",
            Refusal::RecordOutside(_) =>
                "the arc in this record has a head, seconds, climb or toll out of range",
            Refusal::NumberTaken(_) =>
                "the arc in this record has a number above 4095 or one that an earlier arc has",
            Refusal::TooWide => "the rules and doorsteps together need more than 32 bits",
            Refusal::PoolExhausted(_) => "the search needs more labels than it was given",
            Refusal::NoRoute(_) =>
                "no route: the doorsteps cannot all be reached over open streets within the rules",
        };
        RefusalWords { refusal, reason }
    }
}

impl fmt::Display for RefusalWords {
    ghost output = { λ w. Some (refusal_words w) };

    fn fmt<W: fmt::Write>(&self, f: &mut fmt::Formatter<W>) -> fmt::Result {
        let number = self.refusal.number();
        let reason = self.reason;
        match self.refusal.place() {
            Some(at) => write!(f, "refused {number} at {at}: {reason}"),
            None => write!(f, "refused {number}: {reason}"),
        }
    }
}
