// The loops of the search.
ghost use Rattle.std.specs.Prelude.{◌≡◌, ◌<◌, ◌≤◌, length, take, IfSome};
ghost use Rattle.streets.specs.Network.{network};
ghost use Rattle.search_laws.specs.Search.{search};
ghost use Rattle.search.specs.Limits.{labels_limit};
ghost use Rattle.search.specs.Links.{followed, in_use};
ghost use Rattle.search.specs.Answer.{Ends};

use crate::label::Label;
use crate::pool::{least, relax};
use crate::query::Query;
use crate::state::State;
use crate::tour::Tour;
use costs::cost::Cost;
use policies::policy::Policy;
use streets::map::Map;
use streets::refusal::Refusal;

impl<M: Map, P: Policy> Query<'_, M, P> {
    // Follows what a slot holds from a label: how many labels are in use then, or nothing where a label beyond the pool is needed.
    fn follow<C: Cost>(
        &self,
        pool: &mut [Label<C>],
        used: usize,
        place: usize,
        label: Label<C>,
        index: usize,
    ) -> Option<usize>
        requires fits { used ≤ length pool.old }
        requires short { label.hops < labels_limit }
        ensures pinned { followed C.kind (P.automaton self.now.policy.now) (length pool.old) place label (take used pool.old) ((M.view self.now.map.now).slot label.state.point index) ≡ in_use result pool.new }
        ensures within { IfSome result (λ u. u ≤ length pool.old) }
    {
        // a `match`, since the slot is empty or is followed
        match self.map.slot(label.state.point, index) {
            None => Some(used),
            Some(arc) => relax(pool, used, label.onward(self.policy, place, arc)),
        }
    }

    // Settles labels in the order of their costs, from the start on, until one has arrived: its place, and its walk as a tour.
    pub(crate) fn explore<C: Cost>(
        &self,
        pool: &mut [Label<C>],
    ) -> Result<(usize, Tour<C>), Refusal>
        requires some_labels { 0 < length pool.old }
        requires within { length pool.old ≤ labels_limit }
        ensures { Ends result pool.new (search (network (M.view self.now.map.now)) C.kind (P.automaton self.now.policy.now) self.now.start self.now.goal (length pool.old)) }
    {
        let size = pool.len();
        pool[0] = Label::departing(State {
            point: self.start,
            word: self.policy.depart(self.start),
        });
        let mut used = 1;
        let mut settled = 0;
        // `loop` and no `for`, since it is left by its label with the answer, from the loop over slots too
        'settling: loop {
            if settled == size {
                break 'settling Err(Refusal::NoRoute(size));
            }
            let Some((place, label)) = least(&pool[..used]) else {
                break 'settling Err(Refusal::NoRoute(settled));
            };
            pool[place] = label.settle();
            settled += 1;
            if label.has_arrived(self.policy, self.goal) {
                break 'settling Ok((place, label.tour(settled)));
            }
            // by number, since a map lends no list of its slots
            'slots: for index in 0..self.map.slots(label.state.point) {
                let Some(more) = self.follow(pool, used, place, label, index) else {
                    break 'settling Err(Refusal::PoolExhausted(settled));
                };
                used = more;
            }
        }
    }
}
