// Why a script is refused.
ghost use Rattle.std.specs.Prelude.{◌≡◌, Some};
ghost use Rattle.script.specs.Mistakes.{expected_text, mistake_text, error_text};
ghost use Rattle.script.specs.declared.mistakes.ScriptError.TheVariants.{Memory};

use std::alloc::{AllocError, AllocFailed};
use std::fmt;

// What was expected where a script is wrong.
#[derive(Clone, Copy, Debug, PartialEq, Eq)]
pub enum Expected {
    Opening,
    OneOpening,
    EarlierCapacity,
    EarlierCost,
    KnownWord,
    MapArguments,
    GridArguments,
    CapacityArguments,
    CostArguments,
    ShutArguments,
    ReopenArguments,
    ArcsArguments,
    Number,
    Text,
    SomeOpening,
}

#[derive(Clone, Copy, Debug, PartialEq, Eq)]
pub struct Mistake {
    // Counted from 1, blank lines and comments included.
    pub line: usize,
    pub expected: Expected,
}

#[derive(Clone, Copy, Debug, PartialEq, Eq)]
pub enum ScriptError {
    Mistake(Mistake),
    Memory,
}

// Two impls: making a `String` fails with an `AllocError` and a `push` with an `AllocFailed`, and one
// generic impl for both would overlap with `From<T> for T`.
impl From<AllocError> for ScriptError {
    ghost from_gives = { λ _ r. r ≡ Memory };

    fn from(_e: AllocError) -> ScriptError {
        ScriptError::Memory
    }
}

impl<T: Drop> From<AllocFailed<T>> for ScriptError {
    ghost from_gives = { λ _ r. r ≡ Memory };

    fn from(_e: AllocFailed<T>) -> ScriptError {
        ScriptError::Memory
    }
}

// In words for whoever wrote the script.
impl fmt::Display for Expected {
    ghost output = { λ e. Some (expected_text e) };

    fn fmt<W: fmt::Write>(&self, f: &mut fmt::Formatter<W>) -> fmt::Result {
        f.write_str(match self {
            Expected::Opening =>
                "expected `map FILE` or `grid ROWS COLUMNS SECONDS CLIMB` as the first line",
            Expected::OneOpening => "`map` and `grid` stand only on the first line",
            Expected::EarlierCapacity =>
                "`capacity` stands at most once, before `cost` and before any call",
            Expected::EarlierCost => "`cost` stands at most once, before any call",
            Expected::KnownWord => "unknown word: no line of a script begins so",
            Expected::MapArguments => "`map` takes one word: a file",
            Expected::GridArguments =>
                "`grid` takes four numbers: rows, columns, seconds and climb",
            Expected::CapacityArguments => "`capacity` takes one number: the units that fit aboard",
            Expected::CostArguments => "`cost` takes one word: `s` for seconds or `c` for climb",
            Expected::ShutArguments => "`shut` takes one number: an arc",
            Expected::ReopenArguments => "`reopen` takes one number: an arc",
            Expected::ArcsArguments => "`arcs` takes one number: a point",
            Expected::Number => "a number has 1 to 10 digits",
            Expected::Text => "the name of a file is text in UTF-8",
            Expected::SomeOpening =>
                "no opening line in the script: expected `map FILE` or `grid ROWS COLUMNS SECONDS CLIMB`",
        })
    }
}

impl fmt::Display for Mistake {
    ghost output = { λ m. Some (mistake_text m) };

    fn fmt<W: fmt::Write>(&self, f: &mut fmt::Formatter<W>) -> fmt::Result {
        let Mistake { line, expected } = self;
        write!(f, "line {line}: {expected}")
    }
}

impl fmt::Display for ScriptError {
    ghost output = { λ e. Some (error_text e) };

    fn fmt<W: fmt::Write>(&self, f: &mut fmt::Formatter<W>) -> fmt::Result {
        match self {
            ScriptError::Mistake(mistake) => mistake.fmt(f),
            ScriptError::Memory => f.write_str("out of memory"),
        }
    }
}
