// What a search is asked.

// The map and the policy are lent, and stay with the caller.
#[derive(Drop)]
pub(crate) struct Query<'a, M, P> {
    pub(crate) map: &'a M,
    pub(crate) policy: &'a P,
    pub(crate) start: usize,
    pub(crate) goal: usize,
}
