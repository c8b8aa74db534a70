// The numbers of a yard grid.

// As written: whether there is such a grid is for the shift to say.
#[derive(Clone, Copy, Debug, PartialEq, Eq)]
pub struct Yard {
    pub rows: u64,
    pub columns: u64,
    pub seconds: u64,
    pub climb: u64,
}
