// Why a run ends before its script is carried out.
ghost use Rattle.fatskhole.specs.Stops.{TellsUnreadable};

use script::mistakes::ScriptError;
use std::alloc::{AllocError, Global};
use std::io;
use thiserror::Error;

#[derive(Debug, Drop, Error)]
pub enum Stop {
    // More than one word on the command line.
    #[error("usage: fatskhole [FILE], where FILE is a script; without it, standard input is read")]
    Usage,
    #[error("cannot read {what}: {why}")]
    Unreadable { what: String, why: io::Error },
    #[error("{0}")]
    Script(#[from] ScriptError),
    // The line that is printed for `map` says why.
    #[error("the map is refused, and no call was made")]
    MapRefused,
    #[error("cannot write: {0}")]
    Output(#[from] io::Error),
    #[error("out of memory")]
    Memory(#[from] AllocError),
}

impl Stop {
    // What could not be read, and why. The name is copied, since a path of the script does not outlive the run.
    pub fn unreadable(heap: Global, what: &str, why: io::Error) -> Stop
        ensures { TellsUnreadable result what.now why }
    {
        String::from_str(heap, what).map_or_else(
            Stop::Memory,
            |what| Stop::Unreadable { what, why },
        )
    }
}
