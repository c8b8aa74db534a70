// A step of a walk, as far as a policy is told: the number of the arc that is crossed, and the point that it leads to.
#[derive(Clone, Copy)]
pub struct Step {
    pub number: u16,
    pub head: usize,
}
