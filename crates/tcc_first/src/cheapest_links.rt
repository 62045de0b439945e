//! The first link of one step, or of two, from one transaction to another, by the rule of ties: by kind, key, reader and walk.
ghost use Rattle.std.specs.Prelude.{◌≡◌, ◌≢◌, ◌<◌, ◌⊎◌, ◌↔◌, ℕ, length, Some, IsTrue, IfOk};
ghost use Rattle.tcc_reads.specs.History.{count};
ghost use Rattle.tcc_graph.specs.{Relations.IsReadsPair, Relations.IsCausalPair, Relations.reads_from, Keys.keys, Keys.key_at, Levels.judged, declared.level.Level.Level};
ghost use Rattle.tcc_derive.specs.{Names.IsFirstName, private.LeadingBack.IsFirstStep};
ghost use Rattle.tcc_least.specs.private.Places.{IsFoundUpTo};
ghost use Rattle.tcc_first.specs.private.{Ways.IsTwoStep, Picks.IsContradictedByPair, Picks.IsFirstContradicted, Picks.IsFirstOfCost};

use crate::ranges::has_number;
use std::alloc::Global;
use tcc_graph::{LargeGraph, Link, Step, Walk};
use tcc_txn::{Name, NoMemory};

/// The first of the keys that one transaction reads from the other.
fn first_key(graph: &LargeGraph, from: u32, to: u32) -> Name
    requires from { from < count graph.now }
    requires to { to < count graph.now }
    requires some { 0 < length (reads_from graph.now from to) }
    ensures { IsFirstName (reads_from graph.now from to) result }
{
    let key_indices = graph.reads_from_at(from, to);
    let mut least = key_indices[0];
    for key_index in key_indices {
        if *key_index < least {
            least = *key_index;
        }
    }
    graph.keys()[least as usize]
}

/// The first step from one transaction to the other.
pub(crate) fn first_step(graph: &LargeGraph, from: u32, to: u32) -> Step
    requires from { from < count graph.now }
    requires to { to < count graph.now }
    requires pair { IsCausalPair graph.now from to }
    ensures { IsFirstStep graph.now from to result }
{
    if graph.session(from, to) {
        return Step::Session { from, to };
    }
    let key = first_key(graph, from, to);
    Step::Reads { from, to, key }
}

/// The lesser of the first reading so far and another one, by key and by reader.
pub(crate) fn lesser(first: Option<(u32, u32)>, key_index: u32, reader: u32) -> Option<(u32, u32)>
    ensures either { (result ≡ first) ⊎ (result ≡ Some (key_index, reader)) }
    ensures kept { (k : ℕ) (c : ℕ) → IsFoundUpTo first k c → IsFoundUpTo result k c }
    ensures here { IsFoundUpTo result key_index reader }
{
    let Some((key, other)) = first else {
        return Some((key_index, reader));
    };
    if key_index < key {
        return Some((key_index, reader));
    }
    if key_index == key && reader < other {
        return Some((key_index, reader));
    }
    first
}

/// Whether a transaction writes the key at an index, which the reader reads from another one, and a pair leads to the reader.
fn is_contradicted(graph: &LargeGraph, from: u32, source: u32, reader: u32, key_index: u32) -> bool
    requires from { from < count graph.now }
    requires reader { reader < count graph.now }
    requires key { key_index < length (keys graph.now) }
    requires read { IsReadsPair graph.now source reader (key_at graph.now key_index) }
    requires other { from ≢ source }
    ensures { IsTrue result ↔ IsContradictedByPair graph.now from source (key_at graph.now key_index) reader }
{
    has_number(graph.writers_at(key_index), from) && graph.causal(from, reader)
}

/// The first reading from one transaction, by key and by reader, that the other contradicts by a pair.
fn first_contradicted(graph: &LargeGraph, from: u32, source: u32) -> (Name, u32)
    requires from { from < count graph.now }
    requires source { source < count graph.now }
    requires some { IsTwoStep graph.now from source }
    ensures first { IsFirstContradicted graph.now from source result.0 result.1 }
    ensures reader { IsCausalPair graph.now from result.1 }
    ensures below { result.1 < count graph.now }
{
    let (readers, key_indices) = graph.readings_at(source);
    let mut first = None;
    for index in 0..readers.len() {
        if is_contradicted(graph, from, source, readers[index], key_indices[index]) {
            first = lesser(first, key_indices[index], readers[index]);
        }
    }
    let Some((key_index, reader)) = first else {
        unreachable!()
    };
    (graph.keys()[key_index as usize], reader)
}

/// The first link by a pair.
pub(crate) fn pair_link(graph: &LargeGraph, from: u32, to: u32) -> Link
    requires from { from < count graph.now }
    requires to { to < count graph.now }
    requires pair { IsCausalPair graph.now from to }
    ensures { (level : Level) → IsFirstOfCost (judged graph.now level) from to 1 result }
{
    Link::of(first_step(graph, from, to))
}

/// The first derived link of two steps.
fn two_step_link(alloc: Global, graph: &LargeGraph, from: u32, to: u32) -> Result<Link, NoMemory>
    requires from { from < count graph.now }
    requires to { to < count graph.now }
    requires some { IsTwoStep graph.now from to }
    ensures { IfOk result (λ link. (level : Level) → IsFirstOfCost (judged graph.now level) from to 2 link) }
{
    let (key, reader) = first_contradicted(graph, from, to);
    let mut steps = Vec::new(alloc);
    steps.push(first_step(graph, from, reader))?;
    Ok(Link::Derived {
        from,
        to,
        key,
        reader,
        walk: Walk::new(steps),
    })
}

/// The first link of `steps` steps, which are one or two.
pub(crate) fn first_link(
    alloc: Global,
    graph: &LargeGraph,
    from: u32,
    to: u32,
    steps: u32,
) -> Result<Link, NoMemory>
    requires from { from < count graph.now }
    requires to { to < count graph.now }
    requires some { ((steps ≡ 1) × IsCausalPair graph.now from to) ⊎ ((steps ≡ 2) × IsTwoStep graph.now from to) }
    ensures { IfOk result (λ link. (level : Level) → IsFirstOfCost (judged graph.now level) from to steps link) }
{
    if steps == 1 {
        Ok(pair_link(graph, from, to))
    } else {
        two_step_link(alloc, graph, from, to)
    }
}
