// What every kind of cost tells. Its questions alter nothing.
ghost use Rattle.std.specs.Prelude.{◌≡◌, ℕ};
ghost use Rattle.costs.specs.Kind.{Kind, Lawful};

use streets::arc::Weight;

// A value of this type is what a walk costs. Generic code learns of it what `Lawful` says, and nothing else.
pub trait Cost: Copy {
    // The letter by which a planner knows the kind.
    const LETTER: u8;

    ghost LETTER: { ℕ };

    ghost kind: { Kind Self };

    // What a walk of no arcs costs.
    fn zero() -> Self
        ensures { result ≡ kind.zero };

    // The cost with one arc more.
    fn plus(self, weight: Weight) -> Self
        ensures { result ≡ kind.plus self weight };

    // No `Ord`: two costs may each be at most the other and yet differ.
    fn at_most(self, other: Self) -> bool
        ensures { result ≡ kind.leq self other };

    // The number that stands for this cost in print.
    fn told(self) -> u64
        ensures { result ≡ kind.told self };

    ghost own_letter: { LETTER ≡ kind.letter };

    ghost lawful: { Lawful kind };
}
