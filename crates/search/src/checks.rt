// The checks before a search.
ghost use Rattle.std.specs.Prelude.{◌≡◌};
ghost use Rattle.std.specs.Result.{result_err};
ghost use Rattle.search.specs.Answer.{checked};

use crate::limits::LABELS_LIMIT;
use crate::query::Query;
use policies::policy::Policy;
use policies::word::WIDTH_LIMIT;
use streets::map::Map;
use streets::refusal::Refusal;

impl<M: Map, P: Policy> Query<'_, M, P> {
    // Whether it can be searched with a pool of this many labels and a route list of this many places; the first check that fails decides.
    pub(crate) fn check(&self, labels: usize, places: usize) -> Result<(), Refusal>
        ensures { result_err result ≡ checked (M.view self.now.map.now) (P.automaton self.now.policy.now) self.now.start self.now.goal labels places }
    {
        let points = self.map.points();
        if self.start >= points || self.goal >= points {
            return Err(Refusal::PointOutside);
        }
        if labels == 0 || labels > LABELS_LIMIT {
            return Err(Refusal::PoolSize);
        }
        if places < labels {
            return Err(Refusal::RouteShort);
        }
        if self.policy.width() > WIDTH_LIMIT {
            return Err(Refusal::TooWide);
        }
        Ok(())
    }
}
