// The kinds of cost, and the calls.
ghost use Rattle.std.specs.Prelude.{◌≡◌, Some};
ghost use Rattle.script.specs.Lines.{kind};
ghost use Rattle.script.specs.Spelling.{call_text, kind_text};

use crate::mistakes::Expected;
use std::fmt;

#[derive(Clone, Copy, Debug, PartialEq, Eq)]
pub enum CostKind {
    Seconds,
    Climb,
}

impl TryFrom<&[u8]> for CostKind {
    type Error = Expected;

    ghost try_from_gives = { λ word r. r ≡ kind word.now };

    fn try_from(word: &[u8]) -> Result<CostKind, Expected> {
        match word {
            b"s" => Ok(CostKind::Seconds),
            b"c" => Ok(CostKind::Climb),
            _ => Err(Expected::CostArguments),
        }
    }
}

impl fmt::Display for CostKind {
    ghost output = { λ k. Some (kind_text k) };

    fn fmt<W: fmt::Write>(&self, f: &mut fmt::Formatter<W>) -> fmt::Result {
        f.write_str(match self {
            CostKind::Seconds => "s",
            CostKind::Climb => "c",
        })
    }
}

// The numbers are as written: whether there is such an arc or point is for the shift to say.
#[derive(Clone, Copy, Debug, PartialEq, Eq)]
pub enum Call {
    Shut(u64),
    Reopen(u64),
    Arcs(u64),
}

impl fmt::Display for Call {
    ghost output = { λ c. Some (call_text c) };

    fn fmt<W: fmt::Write>(&self, f: &mut fmt::Formatter<W>) -> fmt::Result {
        let (verb, n) = match self {
            Call::Shut(arc) => ("shut", *arc),
            Call::Reopen(arc) => ("reopen", *arc),
            Call::Arcs(point) => ("arcs", *point),
        };
        write!(f, "{verb} {n}")
    }
}
