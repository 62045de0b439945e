//! What an answer for a large snapshot has.
use crate::Decision;
use tcc_graph::LargeGraph;

/// The graph of a large snapshot, which has the labels of its transactions, and what is decided about it.
#[derive(Drop)]
pub struct LargeAnswer {
    /// The graph of its history.
    pub graph: LargeGraph,
    /// What is decided about the history.
    pub decision: Decision,
}
