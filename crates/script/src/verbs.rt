// The words that a line begins with.
ghost use Rattle.std.specs.Prelude.{◌≡◌};
ghost use Rattle.script.specs.Lines.{verb_of};

use crate::mistakes::Expected;

#[derive(Clone, Copy, Debug, PartialEq, Eq)]
pub enum Verb {
    Map,
    Grid,
    Capacity,
    Cost,
    Shut,
    Reopen,
    Arcs,
}

impl TryFrom<&[u8]> for Verb {
    type Error = Expected;

    ghost try_from_gives = { λ word r. r ≡ verb_of word.now };

    fn try_from(word: &[u8]) -> Result<Verb, Expected> {
        match word {
            b"map" => Ok(Verb::Map),
            b"grid" => Ok(Verb::Grid),
            b"capacity" => Ok(Verb::Capacity),
            b"cost" => Ok(Verb::Cost),
            b"shut" => Ok(Verb::Shut),
            b"reopen" => Ok(Verb::Reopen),
            b"arcs" => Ok(Verb::Arcs),
            _ => Err(Expected::KnownWord),
        }
    }
}
