// An expression of a rule, as a tree.

// What a walk can mark: being at a point, or using an arc.
#[derive(Clone, Copy, Debug, PartialEq, Eq)]
pub enum Place {
    At(u16),
    Use(u16),
}

#[derive(Drop)]
pub enum Expr {
    Place(Place),
    From(u16),
    To(u16),
    Not(Box<Expr>),
    And(Vec<Expr>),
    Or(Vec<Expr>),
    Seq(Vec<Place>),
}
