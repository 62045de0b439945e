//! The names of a history's transactions.
ghost use Rattle.std.specs.Prelude.{◌≡◌, IfOk, map, string_bytes};
ghost use Rattle.tcc_graph.specs.Labels.{labels_of, label_at};

use crate::graph::Graph;
use crate::large_graph::LargeGraph;
use std::alloc::Global;
use std::marker::Model;
use tcc_txn::NoMemory;

/// The names of all transactions, by number.
#[derive(Drop)]
pub struct Labels {
    labels: Vec<String>,
}

impl Model for Labels {
    ghost use Rattle.std.specs.Prelude.{ℕ, List, map, string_bytes};

    ghost Value = { List (List ℕ) };

    ghost view = { λ l. map string_bytes l.labels.items };
}

impl Labels {
    /// The names of the transactions of a graph.
    pub fn of(alloc: Global, graph: &Graph) -> Result<Labels, NoMemory>
        ensures { IfOk result (λ labels. labels ≡ labels_of graph.now) }
    {
        Labels::of_large(alloc, graph)
    }

    /// The names of the transactions of a graph within the large limits.
    pub fn of_large(alloc: Global, graph: &LargeGraph) -> Result<Labels, NoMemory>
        ensures { IfOk result (λ labels. labels ≡ labels_of graph.now) }
    {
        let mut labels = Vec::new(alloc);
        for number in 0..graph.count() {
            labels.push(graph.label(alloc, number)?)?;
        }
        Ok(Labels { labels })
    }

    /// The names, by number.
    pub fn names(&self) -> &[String]
        ensures { map string_bytes result.now ≡ self.now }
    {
        &self.labels
    }

    /// The name of a transaction; past the last one the empty string.
    pub fn at(&self, number: u32) -> &str
        ensures { result.now ≡ label_at self.now number }
    {
        match self.labels.get(number as usize) {
            Some(label) => label.as_str(),
            None => "",
        }
    }
}
