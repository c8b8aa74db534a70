// The mathematics of the search: what it computes (specs/), and the theorem that nobody can undercut its tours (proofs/).
#![tactic(auto)]

ghost use Rattle.std.specs.Prelude.{ℕ};
ghost use Rattle.streets.specs.Network.{Network};
ghost use Rattle.search_laws.specs.Right.{Sound, Roomy, Steady};

use costs::cost::Cost;
use policies::policy::Policy;

// The theorem, at every policy and every kind of cost, from their laws alone: on every network and between any two points the search's answer is right,
// a pool with a label for each point and each word is never exhausted, and as long as it is not, its size does not matter.
// There is nothing to compute: the contract is what a caller learns.
pub fn search_is_right<P: Policy, C: Cost>(policy: &P)
    ensures sound { (N : Network) (start goal pool : ℕ) → Sound N C.kind (P.automaton policy.now) (P.permits policy.now) start goal pool }
    ensures roomy { (N : Network) (start goal pool : ℕ) → Roomy N C.kind (P.automaton policy.now) start goal pool }
    ensures steady { (N : Network) (start goal pool larger : ℕ) → Steady N C.kind (P.automaton policy.now) start goal pool larger }
{}
