// A layer over a map that leaves out the arcs that are shut.
ghost use Rattle.std.specs.Prelude.{◌≡◌, ℕ, Bool, true, false, List, replicate};
ghost use Rattle.streets.specs.Closing.{closed};
ghost use Rattle.streets.specs.Closings.{closed_lawful};
ghost use Rattle.streets.specs.Layers.{PutsMark};

use crate::arc::Arc;
use crate::limits::NUMBERS_END;
use crate::map::Map;
use crate::marks::Marks;
use crate::refusal::Refusal;

#[derive(Drop)]
pub struct ClosureLayer<M> {
    below: M,
    shut: Marks,
}

impl<M> ClosureLayer<M> {
    // Nothing is shut.
    pub fn new(below: M) -> ClosureLayer<M>
        ensures below { result.below ≡ below }
        ensures none { result.shut.table ≡ replicate 4096 false }
    {
        ClosureLayer {
            below,
            shut: Marks::none(),
        }
    }

    // A number above 4,095 is refused, and nothing changes.
    fn put(&mut self, arc: usize, mark: bool) -> Result<(), Refusal>
        ensures { PutsMark self.old self.new arc mark result }
    {
        if arc >= NUMBERS_END {
            return Err(Refusal::ArcOutside);
        }
        self.shut.put(arc, mark);
        Ok(())
    }

    // `shut` and `reopen` are calls of `put`, so that a call says `shut` and not `true`.
    pub fn shut(&mut self, arc: usize) -> Result<(), Refusal>
        ensures { PutsMark self.old self.new arc true result }
    {
        self.put(arc, true)
    }

    pub fn reopen(&mut self, arc: usize) -> Result<(), Refusal>
        ensures { PutsMark self.old self.new arc false result }
    {
        self.put(arc, false)
    }
}

impl<M: Map> Map for ClosureLayer<M> {
    ghost view = { λ l. closed l.shut.table (M.Map.view l.below) };

    ghost lawful = { λ l. closed_lawful l.shut.table _ (M.Map.lawful l.below) };

    fn points(&self) -> usize {
        self.below.points()
    }

    fn slots(&self, point: usize) -> usize {
        self.below.slots(point)
    }

    fn slot(&self, point: usize, index: usize) -> Option<Arc> {
        self.below
            .slot(point, index)
            .filter(|arc| !self.shut.has(usize::from(arc.number)))
    }
}
