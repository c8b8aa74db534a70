// How long a walk takes, up to the largest number of 32 bits.
ghost use Rattle.std.specs.Prelude.{◌≤◌};
ghost use Rattle.costs.specs.Limits.{seconds_most};

use crate::cost::Cost;
use streets::arc::Weight;

#[derive(Clone, Copy)]
pub struct Seconds {
    pub value: u32,
    ghost fits: { value ≤ seconds_most },
}

impl Cost for Seconds {
    ghost use Rattle.std.specs.Prelude.{refl};
    ghost use Rattle.costs.specs.Seconds.{by_seconds};
    ghost use Rattle.costs.specs.Laws.{seconds_lawful};

    const LETTER: u8 = b's';

    ghost LETTER = { by_seconds.letter };

    ghost kind = { by_seconds };

    ghost own_letter = { refl };

    ghost lawful = { seconds_lawful };

    fn zero() -> Seconds {
        Seconds { value: 0 }
    }

    // The largest number of 32 bits is where sums stop.
    fn plus(self, weight: Weight) -> Seconds {
        Seconds {
            value: self.value.saturating_add(u32::from(weight.seconds)),
        }
    }

    fn at_most(self, other: Seconds) -> bool {
        self.value <= other.value
    }

    fn told(self) -> u64 {
        u64::from(self.value)
    }
}
