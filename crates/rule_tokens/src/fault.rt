// Why a rule text is refused; each place is a byte's index in the text.
ghost use Rattle.std.specs.Prelude.{◌≡◌};
ghost use Rattle.rule_tokens.specs.declared.fault.Fault.TheVariants.{Memory};

use std::alloc::AllocFailed;

#[derive(Clone, Copy, Debug, PartialEq, Eq)]
pub enum Fault {
    // an unknown byte, or a digit run of more than five digits or with a needless zero in front
    Token(usize),
    // a token that may not stand there
    Order(usize),
    // a number outside its range, or one that is taken
    Value(usize),
    // the first token beyond a limit
    Limit(usize),
    // no memory: this says nothing of the text
    Memory,
}

// Written for each error enum, since an impl for all would overlap with `From<T> for T`.
impl<T: Drop> From<AllocFailed<T>> for Fault {
    ghost from_gives = { λ _ r. r ≡ Memory };

    fn from(_e: AllocFailed<T>) -> Fault {
        Fault::Memory
    }
}
