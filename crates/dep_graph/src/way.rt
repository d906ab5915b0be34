/// The two ways to go on from a node.
#[derive(Clone, Copy, Debug)]
pub(crate) enum Way {
    /// To the nodes that it uses.
    Uses,
    /// To the nodes that use it.
    Users,
}
