//! Blocks of sessions.
use tcc_graph::LargeGraph;

/// A block of the sessions of a history.
#[derive(Clone, Copy)]
pub(crate) struct ClockBlock<'a> {
    pub graph: &'a LargeGraph,
    /// The index of each transaction's session.
    pub owners: &'a [u32],
    /// The first session of the block.
    pub from: u32,
}
