// What a street map tells. Its questions alter nothing.
ghost use Rattle.std.specs.Prelude.{◌≡◌, ℕ};
ghost use Rattle.streets.specs.Network.{View, Lawful};

use crate::arc::Arc;

// A map means a network: its points, and the list of arcs of each (`network view`, where the slots from 0 up give the list).
pub trait Map {
    ghost view: { Self → View };

    ghost lawful: { (m : Self) → Lawful (view m) };

    fn points(&self) -> usize
        ensures { result ≡ (view self.now).points };

    // How many slots a point has; none, for a point outside.
    fn slots(&self, point: usize) -> usize
        ensures { result ≡ (view self.now).slots point };

    // What a slot holds; nothing, for a slot outside.
    fn slot(&self, point: usize, index: usize) -> Option<Arc>
        ensures { result ≡ (view self.now).slot point index };
}

// A lent map is a map. Each method is passed on by hand, since no derive does it.
impl<M: Map> Map for &M {
    ghost view = { λ r. M.Map.view r.now };

    ghost lawful = { λ r. M.Map.lawful r.now };

    fn points(&self) -> usize {
        (**self).points()
    }

    fn slots(&self, point: usize) -> usize {
        (**self).slots(point)
    }

    fn slot(&self, point: usize, index: usize) -> Option<Arc> {
        (**self).slot(point, index)
    }
}
