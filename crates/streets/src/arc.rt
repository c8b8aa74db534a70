// An arc of a street map, and what it takes to go along it.

// Seconds are 0 to 3,600, climb 0 to 400 per mille, toll 0 to 10,000 cents.
#[derive(Clone, Copy, PartialEq, Eq, Debug)]
pub struct Weight {
    pub seconds: u16,
    pub climb: u16,
    pub toll: u16,
}

// An arc has a number (0 to 4,095) that no other arc of its map has, and leads to its head, a point of the map.
#[derive(Clone, Copy, PartialEq, Eq, Debug)]
pub struct Arc {
    pub number: u16,
    pub head: u16,
    pub weight: Weight,
}
