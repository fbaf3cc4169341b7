/// An arc of a graph, from one node to another.
#[derive(Clone, Copy)]
pub struct Arc {
    /// The node that it leaves.
    pub from: u32,
    /// The node that it enters.
    pub to: u32,
    /// Its length, which may be negative.
    pub length: i64,
}

/// What `longest` finds.
#[derive(Drop)]
pub enum Longest {
    /// For each node, the greatest length of a walk that ends there.
    Lengths(Vec<i64>),
    /// The numbers of the arcs of a closed walk of positive length, in order.
    Cycle(Vec<u32>),
}
