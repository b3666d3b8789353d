// What a walk finds.
/// What a walk found of a tree.
#[derive(Drop)]
pub struct Walked<L, N> {
    /// What its items say, from left to right.
    pub parts: L,
    /// What is kept of its nodes, each before those below it.
    pub nodes: N,
}
