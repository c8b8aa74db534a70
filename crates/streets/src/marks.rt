// One mark for each arc number.
ghost use Rattle.std.specs.Prelude.{◌≡◌, Bool, true, false, List, replicate, slice_set};
ghost use Rattle.streets.specs.Closing.{marked};

use crate::limits::NUMBERS_END;

// The closures of a map, and the numbers that a check of map bytes has met.
#[derive(Drop)]
pub struct Marks {
    // A plain table, since nothing that answers for a map uses the heap. Clauses name it, and no view of it: so they know how long it is.
    table: [bool; 4096],
}

impl Marks {
    pub fn none() -> Marks
        ensures { result.table ≡ replicate 4096 false }
    {
        Marks {
            table: [false; 4096],
        }
    }

    // Whether a number is marked; one above 4,095 never is.
    pub fn has(&self, number: usize) -> bool
        ensures { result ≡ marked self.now.table number }
    {
        self.table.get(number).copied().unwrap_or(false)
    }

    // Marks a number or takes its mark away; at one above 4,095 nothing changes.
    #[tactic(auto, using(std::proofs::lemmas::List::set_past))]
    pub fn put(&mut self, number: usize, mark: bool)
        ensures { self.new.table ≡ slice_set self.old.table number mark }
    {
        // `get_mut` was tried: its contract says nothing of what the slice holds afterwards.
        if number < NUMBERS_END {
            self.table[number] = mark;
        }
    }
}
