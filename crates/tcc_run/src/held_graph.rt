//! Graphs on the heap. An answer that holds one is moved from checkpoint to checkpoint, and so takes one word for it.
ghost use Rattle.std.specs.Prelude.{◌≡◌, IfOk};

use std::alloc::Global;
use std::marker::Model;
use tcc_graph::{Graph, LargeGraph};
use tcc_txn::NoMemory;

/// A graph, which contracts see as its history.
#[derive(Drop)]
pub(crate) struct HeldGraph {
    graph: Box<LargeGraph>,
}

impl Model for HeldGraph {
    ghost use Rattle.tcc_reads.specs.History.{History};

    ghost Value = { History };

    ghost view = { λ h. h.graph.value };
}

impl HeldGraph {
    /// The graph, on the heap.
    pub(crate) fn new(alloc: Global, graph: LargeGraph) -> Result<HeldGraph, NoMemory>
        ensures { IfOk result (λ held. held ≡ graph) }
    {
        let graph = Box::new(alloc, graph)?;
        Ok(HeldGraph { graph })
    }

    /// The graph.
    pub(crate) fn get(&self) -> &LargeGraph
        ensures { result.now ≡ self.now }
    {
        &self.graph
    }
}

/// A graph within the small limits, which contracts see as its history.
#[derive(Drop)]
pub(crate) struct HeldSmallGraph {
    graph: Box<Graph>,
}

impl Model for HeldSmallGraph {
    ghost use Rattle.tcc_reads.specs.History.{History};

    ghost Value = { History };

    ghost view = { λ h. h.graph.value };
}

impl HeldSmallGraph {
    /// The graph, on the heap.
    pub(crate) fn new(alloc: Global, graph: Graph) -> Result<HeldSmallGraph, NoMemory>
        ensures { IfOk result (λ held. held ≡ graph) }
    {
        let graph = Box::new(alloc, graph)?;
        Ok(HeldSmallGraph { graph })
    }

    /// The graph, as one of any size.
    pub(crate) fn get(&self) -> &LargeGraph
        ensures { result.now ≡ self.now }
    {
        &self.graph
    }
}
