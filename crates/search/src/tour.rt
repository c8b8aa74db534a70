// A tour that was found.

// Its arcs are the first `count` of the route list; a number, and no slice of them, since the list is lent and stays with the caller.
#[derive(Clone, Copy)]
pub struct Tour<C> {
    pub cost: C,
    pub count: usize,
    pub settled: usize,
}
