// The labels in use: the first `used` of the pool, in the order made, one for a state.
ghost use Rattle.std.specs.Prelude.{◌≡◌, ◌<◌, ◌≤◌, length, take, IfSome};
ghost use Rattle.search.specs.Links.{place, prefer, first, relaxed, in_use, Waits};

use crate::label::Label;
use crate::state::State;
use costs::cost::Cost;

// The place of the label of a state.
pub(crate) fn find<C: Cost>(labels: &[Label<C>], state: State) -> Option<usize>
    ensures first { result ≡ place state.point state.word labels.now }
    ensures within { IfSome result (λ i. i < length labels.now) }
{
    for (place, label) in labels.iter().enumerate() {
        if label.state == state {
            return Some(place);
        }
    }
    None
}

// Of a label that may wait and the best of those behind it, the one to settle first.
// Place and label are a pair, as `enumerate` gives them, and no struct: `explore` takes them apart at once.
fn better<C: Cost>(
    place: usize,
    label: Label<C>,
    best: Option<(usize, Label<C>)>,
) -> Option<(usize, Label<C>)>
    ensures { result ≡ prefer C.kind place label best }
{
    if label.settled || best.is_some_and(|(_, other)| other.is_sooner(&label)) {
        best
    } else {
        Some((place, label))
    }
}

// The waiting label to settle next, with its place.
pub(crate) fn least<C: Cost>(labels: &[Label<C>]) -> Option<(usize, Label<C>)>
    ensures first { result ≡ first C.kind labels.now }
    ensures within { IfSome result (λ s. Waits labels.now s) }
{
    let mut best = None;
    for (place, label) in labels.iter().enumerate().rev() {
        best = better(place, *label, best);
    }
    best
}

// Offers a label to the pool: how many are in use then, or nothing where a label beyond the pool is needed.
// Pool and number in use are no struct, since each method of it would also have to promise that it still holds the caller's slice, and how long that is.
pub(crate) fn relax<C: Cost>(pool: &mut [Label<C>], used: usize, new: Label<C>) -> Option<usize>
    requires { used ≤ length pool.old }
    ensures pinned { relaxed C.kind (length pool.old) new (take used pool.old) ≡ in_use result pool.new }
    ensures within { IfSome result (λ u. u ≤ length pool.old) }
{
    match find(&pool[..used], new.state) {
        None => {
            if used == pool.len() {
                return None;
            }
            pool[used] = new;
            Some(used + 1)
        }
        Some(place) => {
            if !pool[place].stays(&new) {
                pool[place] = new;
            }
            Some(used)
        }
    }
}
