// The lists of arcs that any map means, made out of its slots.
#![tactic(auto)]

ghost use Rattle.std.specs.Prelude.{◌≡◌, ℕ, ◌≤◌, length, IfOk};
ghost use Rattle.streets.specs.Closing.{without};
ghost use Rattle.streets.specs.Limits.{numbers_end};
ghost use Rattle.streets.specs.Network.{network, arc_total};

use std::alloc::{AllocError, Global};
use streets::arc::Arc;
use streets::closures::ClosureLayer;
use streets::map::Map;

// The arcs that leave a point, in list order.
// Loops here and in `count_at`, and no `filter_map`: the compiler makes slow code of the loop inside its `next`.
pub fn arcs_of<M: Map>(heap: Global, map: &M, point: usize) -> Result<Vec<Arc>, AllocError>
    ensures { IfOk result (λ v. v.items ≡ (network (M.view map.now)).arcs point) }
{
    let mut arcs = Vec::new(heap);
    for k in 0..map.slots(point) {
        if let Some(arc) = map.slot(point, k) {
            arcs.push(arc)?;
        }
    }
    Ok(arcs)
}

// The arcs that leave a point and are not shut: those of the map below without the marked ones.
// It is `arcs_of` at a layer, and is here for its contract: what the layer means, in lists.
#[tactic(auto, using(streets::specs::Closings::closed_arcs))]
pub fn open_arcs<M: Map>(
    heap: Global,
    layer: &ClosureLayer<M>,
    point: usize,
) -> Result<Vec<Arc>, AllocError>
    ensures { IfOk result (λ v. v.items ≡ (without layer.now.shut.table (network (M.view layer.now.below))).arcs point) }
{
    arcs_of(heap, layer, point)
}

// How many arcs leave a point. The walk of `arcs_of` again: one function for both would take a closure, and each would owe what it says of every arc.
fn count_at<M: Map>(map: &M, point: usize) -> usize
    ensures { result ≡ length ((network (M.view map.now)).arcs point) }
{
    let mut count = 0;
    for index in 0..map.slots(point) {
        if let Some(_) = map.slot(point, index) {
            count += 1;
        }
    }
    count
}

// How many arcs a map has: at most as many as there are numbers.
pub fn arc_count<M: Map>(map: &M) -> usize
    ensures value { result ≡ arc_total (network (M.view map.now)).arcs (M.view map.now).points }
    ensures few { result ≤ numbers_end }
{
    (0..map.points()).map(|point| count_at(map, point)).sum()
}
