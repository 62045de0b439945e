//! The transactions right before each one: in its session, and what it reads from.
ghost use Rattle.std.specs.Prelude.{◌≡◌, ◌<◌, ◌≤◌, ◌-◌, ◌++◌, ℕ, length, take, drop, slice_index, All, IfOk, OnOk};
ghost use Rattle.tcc_reads.specs.History.{count};
ghost use Rattle.tcc_clocks.specs.Parents.{ArePrevious, AreSteps, HasSourcesAt, parents, sources};

use std::alloc::{AllocError, Global};
use tcc_graph::LargeGraph;

/// The transaction right before each one in its session, 0 for `init`.
pub fn previous_of_each(alloc: Global, graph: &LargeGraph) -> Result<Vec<u32>, AllocError>
    ensures { IfOk result (λ parents. ArePrevious graph.now parents.items) }
{
    let mut parents = Vec::new(alloc);
    parents.push(0)?;
    for c in 1..graph.count() {
        parents.push(graph.previous(c))?;
    }
    Ok(parents)
}

/// Adds the transactions that this one reads from.
fn add_sources(found: &mut Vec<u32>, graph: &LargeGraph, c: u32) -> Result<(), AllocError>
    requires { c < count graph.now }
    ensures found { OnOk result (found.new.items ≡ found.old.items ++ sources graph.now c) }
    ensures sources { OnOk result (HasSourcesAt graph.now c) }
{
    for read in graph.reads_at(c) {
        found.push(read.1)?;
    }
    Ok(())
}

/// The transactions right before this one: in its session, and what it reads from.
pub fn parents_of(alloc: Global, graph: &LargeGraph, c: u32) -> Result<Vec<u32>, AllocError>
    requires { c < count graph.now }
    ensures found { IfOk result (λ found. found.items ≡ parents graph.now c) }
    ensures sources { IfOk result (λ _found. HasSourcesAt graph.now c) }
{
    let mut parents = Vec::new(alloc);
    if c > 0 {
        parents.push(graph.previous(c))?;
    }
    add_sources(&mut parents, graph, c)?;
    Ok(parents)
}

/// Puts the transactions right before this one into a list that is reused, by what is right before each in its session.
pub fn find_parents(
    found: &mut Vec<u32>,
    graph: &LargeGraph,
    parent_of: &[u32],
    c: u32,
) -> Result<(), AllocError>
    requires below { c < count graph.now }
    requires parents { ArePrevious graph.now parent_of.now }
    ensures found { OnOk result (found.new.items ≡ parents graph.now c) }
    ensures sources { OnOk result (HasSourcesAt graph.now c) }
{
    found.clear();
    if c > 0 {
        found.push(parent_of[c as usize])?;
    }
    add_sources(found, graph, c)
}

/// The transactions right before each one of an order, in one list, with the span of each position of the order.
#[derive(Drop)]
pub struct Steps {
    pub spans: Vec<(usize, usize)>,
    pub numbers: Vec<u32>,
}

/// The transactions right before each one of an order.
pub fn steps_along(
    alloc: Global,
    graph: &LargeGraph,
    parent_of: &[u32],
    order: &[u32],
) -> Result<Steps, AllocError>
    requires below { All (λ c. c < count graph.now) order.now }
    requires parents { ArePrevious graph.now parent_of.now }
    ensures { IfOk result (λ steps. AreSteps graph.now order.now steps.spans.items steps.numbers.items (length order.now)) }
{
    let mut spans = Vec::new(alloc);
    let mut numbers = Vec::new(alloc);
    let mut found = Vec::new(alloc);
    for number in order {
        find_parents(&mut found, graph, parent_of, *number)?;
        let start = numbers.len();
        numbers.extend_from_slice(&found)?;
        spans.push((start, numbers.len()))?;
    }
    Ok(Steps { spans, numbers })
}

/// The numbers from one index to before the other.
pub fn between(numbers: &[u32], span: (usize, usize)) -> &[u32]
    requires { span.1 ≤ length numbers.now }
    ensures { result.now ≡ take (span.1 - span.0) (drop span.0 numbers.now) }
{
    if span.0 < span.1 {
        &numbers[span.0..span.1]
    } else {
        &[]
    }
}
