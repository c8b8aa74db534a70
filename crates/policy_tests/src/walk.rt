// A policy's word on a whole walk. Start and steps are apart, as a policy's `permits` has them.
ghost use Rattle.std.specs.Prelude.{◌≡◌, true};
ghost use Rattle.policies.specs.Automaton.{carried, final};

use policies::policy::Policy;
use policies::step::Step;
use policies::word::Word;

// The word after a walk.
pub fn word_after<P: Policy>(policy: &P, start: usize, steps: &[Step]) -> Word
    ensures { result ≡ carried (P.automaton policy.now) start steps.now }
{
    steps.iter().fold(policy.depart(start), |word, step| {
        policy.cross(word, step.number, step.head)
    })
}

// Where a walk ends.
fn last_point(start: usize, steps: &[Step]) -> usize
    ensures { result ≡ final start steps.now }
{
    steps.last().map_or(start, |step| step.head)
}

// Whether a policy permits a walk.
pub fn is_permitted<P: Policy>(policy: &P, start: usize, steps: &[Step]) -> bool
    ensures only { result ≡ true → P.permits policy.now start steps.now }
    ensures every { P.permits policy.now start steps.now → result ≡ true }
{
    policy.may_end(word_after(policy, start, steps), last_point(start, steps))
}
