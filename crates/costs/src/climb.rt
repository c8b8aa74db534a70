// The steepest arc of a walk, in per mille.
ghost use Rattle.std.specs.Prelude.{refl};
ghost use Rattle.costs.specs.Climb.{by_climb};
ghost use Rattle.costs.specs.Laws.{climb_lawful};

use crate::cost::Cost;
use streets::arc::Weight;

// Its last two methods read like those of `Seconds`: to share them would take a trait for the one number in each.
#[derive(Clone, Copy)]
pub struct Climb {
    pub value: u16,
}

impl Cost for Climb {
    const LETTER: u8 = b'c';

    ghost LETTER = { by_climb.letter };

    ghost kind = { by_climb };

    ghost own_letter = { refl };

    ghost lawful = { climb_lawful };

    fn zero() -> Climb {
        Climb { value: 0 }
    }

    fn plus(self, weight: Weight) -> Climb {
        Climb {
            value: self.value.max(weight.climb),
        }
    }

    fn at_most(self, other: Climb) -> bool {
        self.value <= other.value
    }

    fn told(self) -> u64 {
        u64::from(self.value)
    }
}
