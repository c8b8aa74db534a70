// Why a call turns its input down.
ghost use Rattle.std.specs.Prelude.{◌≡◌};
ghost use Rattle.streets.specs.Refusals.{number_of, place_of, settled_of};

#[derive(Clone, Copy, PartialEq, Eq, Debug)]
pub enum Refusal {
    // a start or a goal that is no point of the map
    PointOutside,
    // an arc number above 4,095
    ArcOutside,
    // a pool without a label, or with more than 65,536
    PoolSize,
    // a route list with fewer places than the pool has labels
    RouteShort,
    // map bytes: fewer than 4, or not as many as the counts ask for
    FileLength,
    // map bytes: no point, more than 1,024 points, or more than 4,096 arcs
    FileCounts,
    // map bytes: the first point whose offset is not the end of the one before; the number of points where only the last end is wrong
    PairOutOfLine(usize),
    // map bytes: the first record with head, seconds, climb or toll outside its range
    RecordOutside(usize),
    // map bytes: the first record whose number is above 4,095 or stands in a record before it
    NumberTaken(usize),
    // a policy whose words would have more bits than a word has
    TooWide,
    // a search that needs a label beyond its pool, with the number of labels settled
    PoolExhausted(usize),
    // a search that no permitted walk answers, with the number of labels settled
    NoRoute(usize),
}

impl Refusal {
    // The number by which a planner knows this refusal; the program itself goes by the case.
    pub fn number(&self) -> u8
        ensures { result ≡ number_of self.now }
    {
        match self {
            Refusal::PointOutside => 3,
            Refusal::ArcOutside => 4,
            Refusal::PoolSize => 5,
            Refusal::RouteShort => 6,
            Refusal::FileLength => 11,
            Refusal::FileCounts => 12,
            Refusal::PairOutOfLine(_) => 13,
            Refusal::RecordOutside(_) => 14,
            Refusal::NumberTaken(_) => 15,
            Refusal::TooWide => 34,
            Refusal::PoolExhausted(_) => 35,
            Refusal::NoRoute(_) => 36,
        }
    }

    // Where in the input it was found, for a refusal that has a place. The definition lists every case, so none is forgotten under `_`.
    pub fn place(&self) -> Option<usize>
        ensures { result ≡ place_of self.now }
    {
        match self {
            Refusal::FileLength | Refusal::FileCounts => Some(0),
            Refusal::PairOutOfLine(at) | Refusal::RecordOutside(at) | Refusal::NumberTaken(at) =>
                Some(*at),
            _ => None,
        }
    }

    // How many labels were settled, for a refusal by a search that had begun. Here too the definition lists every case.
    pub fn settled(&self) -> Option<usize>
        ensures { result ≡ settled_of self.now }
    {
        match self {
            Refusal::PoolExhausted(settled) | Refusal::NoRoute(settled) => Some(*settled),
            _ => None,
        }
    }
}
