// A pair of pairs.
ghost use Rattle.std.specs.Prelude.{◌≡◌, ◌+◌, ◌≤◌, true};
ghost use Rattle.policies.specs.Limits.{width_limit};

use crate::walk::is_permitted;
use policies::pair::Pair;
use policies::policy::Policy;
use policies::step::Step;

// Whether a walk is permitted by all four, the last of which is lent: exactly so, where their bits fit into one word.
pub fn all_permit<P: Policy + Drop, Q: Policy + Drop, R: Policy + Drop, S: Policy>(
    first: P,
    second: Q,
    third: R,
    fourth: &S,
    start: usize,
    steps: &[Step],
) -> bool
    ensures only { result ≡ true → P.permits first start steps.now × Q.permits second start steps.now × R.permits third start steps.now × S.permits fourth.now start steps.now }
    ensures every { ((P.automaton first).width + (Q.automaton second).width) + ((R.automaton third).width + (S.automaton fourth.now).width) ≤ width_limit → P.permits first start steps.now → Q.permits second start steps.now → R.permits third start steps.now → S.permits fourth.now start steps.now → result ≡ true }
{
    let all = Pair {
        first: Pair { first, second },
        second: Pair {
            first: third,
            second: fourth,
        },
    };
    is_permitted(&all, start, steps)
}
