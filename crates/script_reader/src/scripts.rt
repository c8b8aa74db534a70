// What a script says.
ghost use Rattle.std.specs.Prelude.{Some};
ghost use Rattle.script.specs.Spelling.{opening_text};
ghost use Rattle.script_reader.specs.Drafts.{opens_of};

use script::calls::{Call, CostKind};
use script::yards::Yard;
use std::fmt;

// What a shift is opened over.
#[derive(Drop)]
pub enum Opening {
    // A map file, by its path.
    Map(String),
    Grid(Yard),
}

#[derive(Drop)]
pub struct Script {
    pub opening: Opening,
    pub capacity: Option<u64>,
    pub cost: Option<CostKind>,
    pub calls: Vec<Call>,
}

impl fmt::Display for Opening {
    ghost output = { λ o. Some (opening_text (opens_of o)) };

    fn fmt<W: fmt::Write>(&self, f: &mut fmt::Formatter<W>) -> fmt::Result {
        match self {
            Opening::Map(path) => write!(f, "map {path}"),
            Opening::Grid(
                Yard {
                    rows,
                    columns,
                    seconds,
                    climb,
                },
            ) => write!(f, "grid {rows} {columns} {seconds} {climb}"),
        }
    }
}
