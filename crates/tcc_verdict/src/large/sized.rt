//! The graph of a history, by whether its snapshot is within the small limits.
ghost use Rattle.std.specs.Prelude.{◌≡◌};
ghost use Rattle.tcc_verdict.specs.private.LargeStages.{history_in};

use tcc_graph::{Graph, LargeGraph};

/// The graph of a history.
#[derive(Drop)]
pub(crate) enum SizedGraph {
    /// The snapshot is within the small limits.
    Small(Graph),
    /// It is above them.
    Large(LargeGraph),
}

impl SizedGraph {
    /// The graph, as one of the large limits.
    pub(crate) fn large(&self) -> &LargeGraph
        ensures { result.now ≡ history_in self.now }
    {
        match self {
            SizedGraph::Small(graph) => graph,
            SizedGraph::Large(graph) => graph,
        }
    }
}
