// The events of a walk: the departure, then for each arc its crossing and the arrival at its head.
ghost use Rattle.std.specs.Prelude.{◌≡◌};
ghost use Rattle.rule_book.specs.Events.{meets, departs};

use rule_exprs::expr::Place;

#[derive(Clone, Copy)]
pub enum Event {
    Depart(usize),
    Cross(u16),
    Arrive(usize),
}

impl Event {
    // Whether it is at a place's point, or crosses its arc.
    pub fn meets(self, place: Place) -> bool
        ensures { result ≡ meets place self }
    {
        match (place, self) {
            (Place::At(v), Event::Depart(p) | Event::Arrive(p)) => usize::from(v) == p,
            (Place::Use(v), Event::Cross(n)) => v == n,
            _ => false,
        }
    }

    // Whether it is the departure from a point.
    pub fn departs(self, point: u16) -> bool
        ensures { result ≡ departs point self }
    {
        matches!(self, Event::Depart(p) if p == usize::from(point))
    }
}
