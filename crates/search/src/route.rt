// The walk back from a label.
ghost use Rattle.std.specs.Prelude.{◌≡◌, length};
ghost use Rattle.search.specs.declared.label.Label.{Label};
ghost use Rattle.search.specs.Links.{traced, Linked};

use crate::label::Label;
use costs::cost::Cost;

// Fills the list with the last arcs of the walk to the label at a place, in the order of the walk.
pub(crate) fn write_route<C: Cost>(labels: &[Label<C>], place: usize, route: &mut [u16])
    requires { (d : Label C) → Linked labels.now d (length route.old) place }
    ensures { (d : Label C) → route.new ≡ traced labels.now d (length route.old) place }
{
    let mut at = place;
    // by index, since no proof knows what a loop over `iter_mut` wrote
    for k in (0..route.len()).rev() {
        let label = labels[at];
        route[k] = label.arc;
        at = label.parent;
    }
}
