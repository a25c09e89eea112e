use mesh_model::LoopList;

/// What became of loops since they were looked at last, each list by originator, then by the least
/// node.
#[derive(Debug, Drop)]
pub struct LoopReport {
    /// The loops that are no more.
    pub gone: LoopList,
    /// The loops that were none before.
    pub fresh: LoopList,
}
