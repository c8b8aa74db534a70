// A label of the search: a state, what the cheapest walk to there that was found so far costs, and the last arc of that walk.
ghost use Rattle.std.specs.Prelude.{◌≡◌, ◌<◌};
ghost use Rattle.search_laws.specs.Search.{sooner, arrives};
ghost use Rattle.search.specs.Limits.{labels_limit};
ghost use Rattle.search.specs.Links.{bare, stays, departing, onward, settle};

use crate::state::State;
use crate::tour::Tour;
use costs::cost::Cost;
use policies::policy::Policy;
use streets::arc::Arc;

// `parent` is the place of the label that this one was reached from, by the arc `arc`; its walk has `hops` arcs.
#[derive(Clone, Copy)]
pub struct Label<C> {
    pub(crate) state: State,
    cost: C,
    pub(crate) arc: u16,
    // a place, since the labels stand in memory that is lent: a search has no heap
    pub(crate) parent: usize,
    pub(crate) hops: usize,
    // a flag, since a label is settled where it stands, among those that wait
    pub(crate) settled: bool,
}

impl<C: Cost> Label<C> {
    // For filling a pool: a search reads no label that it did not make.
    pub fn blank() -> Label<C>
        ensures { result ≡ departing C.kind 0 0 }
    {
        Label::departing(State { point: 0, word: 0 })
    }

    // The first label of a search.
    pub(crate) fn departing(state: State) -> Label<C>
        ensures { result ≡ departing C.kind state.point state.word }
    {
        Label {
            state,
            cost: C::zero(),
            // never read, as no arc leads back from here; an `Option` would add to each step of the walk back a case that cannot occur
            arc: 0,
            parent: 0,
            hops: 0,
            settled: false,
        }
    }

    // The label to which an arc leads from this one, which stands at `place`.
    pub(crate) fn onward<P: Policy>(self, policy: &P, place: usize, arc: Arc) -> Label<C>
        requires { self.hops < labels_limit }
        ensures { result ≡ onward C.kind (P.automaton policy.now) place self arc }
    {
        let point = usize::from(arc.head);
        let word = policy.cross(self.state.word, arc.number, point);
        Label {
            state: State { point, word },
            cost: self.cost.plus(arc.weight),
            arc: arc.number,
            parent: place,
            hops: self.hops + 1,
            settled: false,
        }
    }

    // Whether it is to be settled before the other: it costs less, or neither costs less and its state is smaller.
    // Costs have no `cmp`, since two that are at most each other need not be equal.
    pub(crate) fn is_sooner(&self, other: &Label<C>) -> bool
        ensures { result ≡ sooner C.kind (bare self.now) (bare other.now) }
    {
        self.cost.at_most(other.cost)
            && (!other.cost.at_most(self.cost) || self.state < other.state)
    }

    // Whether it stays where the other is offered for its state: settled labels do, and those that cost no more.
    pub(crate) fn stays(&self, other: &Label<C>) -> bool
        ensures { result ≡ stays C.kind self.now other.now }
    {
        self.settled || self.cost.at_most(other.cost)
    }

    // Whether its walk may end here.
    pub(crate) fn has_arrived<P: Policy>(&self, policy: &P, goal: usize) -> bool
        ensures { result ≡ arrives (P.automaton policy.now) goal (bare self.now) }
    {
        self.state.point == goal && policy.may_end(self.state.word, goal)
    }

    // This label, settled.
    pub(crate) fn settle(self) -> Label<C>
        ensures { result ≡ settle self }
    {
        Label {
            settled: true,
            ..self
        }
    }

    // Its walk as a tour, with the number of labels settled.
    pub(crate) fn tour(&self, settled: usize) -> Tour<C>
        ensures { result ≡ record { cost = self.now.cost; count = self.now.hops; settled = settled } }
    {
        Tour {
            cost: self.cost,
            count: self.hops,
            settled,
        }
    }
}
