// The states of a search.
use policies::word::Word;

// A point with the word of a walk to there. Of two states the smaller has the smaller point, or at one point the smaller word.
#[derive(Clone, Copy, PartialEq, Eq, PartialOrd, Ord)]
pub(crate) struct State {
    pub(crate) point: usize,
    pub(crate) word: Word,
}
