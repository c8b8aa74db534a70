// The search for a cheapest permitted tour: label-setting, over the states of a map and a policy.
#![tactic(auto)]

ghost use Rattle.std.specs.Prelude.{length};
ghost use Rattle.streets.specs.Network.{network};
ghost use Rattle.search_laws.specs.Search.{search};
ghost use Rattle.search_laws.specs.Right.{Sound};
ghost use Rattle.search.specs.Answer.{checked, Gives};

use crate::label::Label;
use crate::query::Query;
use crate::route::write_route;
use crate::tour::Tour;
use costs::cost::Cost;
use policies::policy::Policy;
use streets::map::Map;
use streets::refusal::Refusal;

mod checks;
mod explore;
pub mod label;
mod limits;
mod pool;
mod query;
mod route;
mod state;
pub mod tour;

// A cheapest walk from start to goal that the policy permits, within the labels of the pool. What the pool holds before makes no difference.
// `given` says what the answer and the route list are, by the search's definition; `sound`, that this answer is right.
pub fn search<M: Map, P: Policy, C: Cost>(
    map: &M,
    policy: &P,
    start: usize,
    goal: usize,
    pool: &mut [Label<C>],
    route: &mut [u16],
) -> Result<Tour<C>, Refusal>
    ensures given { Gives result pool.old pool.new route.old route.new (checked (M.view map.now) (P.automaton policy.now) start goal (length pool.old) (length route.old)) (search (network (M.view map.now)) C.kind (P.automaton policy.now) start goal (length pool.old)) }
    ensures sound { Sound (network (M.view map.now)) C.kind (P.automaton policy.now) (P.permits policy.now) start goal (length pool.old) }
{
    let query = Query {
        map,
        policy,
        start,
        goal,
    };
    query.check(pool.len(), route.len())?;
    let (place, tour) = query.explore(pool)?;
    write_route(pool, place, &mut route[..tour.count]);
    Ok(tour)
}
