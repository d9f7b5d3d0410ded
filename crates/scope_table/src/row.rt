use mir_base::NodeId;

/// A node and its scopes, each named by the node whose scope it is.
#[derive(Clone, Copy)]
pub struct ScopeRow {
    pub node: NodeId,
    /// Its temporary scope.
    pub temporary: NodeId,
    /// The scope in which its destination is pending, if it has one that is.
    pub destination: Option<NodeId>,
    /// The scope of the entry that it makes, if it makes one.
    pub entry: Option<NodeId>,
}

/// What a node makes for what is around it.
#[derive(Clone, Copy)]
pub struct MadeAround {
    pub destination: Option<NodeId>,
    pub entry: Option<NodeId>,
}

/// The nearest temporary scope, and the innermost scope.
#[derive(Clone, Copy)]
pub struct Within {
    pub temporary: NodeId,
    pub innermost: NodeId,
}
