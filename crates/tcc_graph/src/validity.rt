//! Which steps, walks and links are those of a history.
ghost use Rattle.std.specs.Prelude.{◌≡◌, ◌↔◌, ◌<◌, length, map, All, IsTrue};
ghost use Rattle.tcc_graph.specs.{Relations.IsSessionPair, Relations.IsReadsPair, Keys.IsWriter, Keys.has_name, KeyIndices.name_of, Walks.IsStep, Walks.Leads, Levels.IsAllowed, Levels.judged, Links.IsReason, Links.IsLink};

use crate::{LargeGraph, Level, Link, Step};
use tcc_txn::Name;

/// Whether the key is at one of the indices.
fn has_key(keys: &[Name], key_indices: &[u32], key: &Name) -> bool
    requires { All (λ k. k < length keys.now) key_indices.now }
    ensures { result ≡ has_name (map (name_of keys.now) key_indices.now) key.now }
{
    for key_index in key_indices {
        if keys[*key_index as usize] == *key {
            return true;
        }
    }
    false
}

/// Whether `from` is before `to` in session order, whatever the numbers.
fn is_session(graph: &LargeGraph, from: u32, to: u32) -> bool
    ensures { IsTrue result ↔ IsSessionPair graph.now from to }
{
    from < graph.count() && to < graph.count() && graph.session(from, to)
}

/// Whether `to` reads the key from `from`, whatever the numbers.
fn is_read(graph: &LargeGraph, from: u32, to: u32, key: &Name) -> bool
    ensures { IsTrue result ↔ IsReadsPair graph.now from to key.now }
{
    from < graph.count()
        && to < graph.count()
        && has_key(graph.keys(), graph.reads_from_at(from, to), key)
}

/// Whether the transaction writes the key: `init` writes each, even one that nobody uses.
pub(crate) fn is_writer(graph: &LargeGraph, writer: u32, key: &Name) -> bool
    ensures { IsTrue result ↔ IsWriter graph.now writer key.now }
{
    writer < graph.count() && (writer == 0 || has_key(graph.keys(), graph.writes_at(writer), key))
}

/// Whether the step is a pair of the history.
fn is_step(graph: &LargeGraph, step: &Step) -> bool
    ensures { IsTrue result ↔ IsStep graph.now step.now }
{
    match step {
        Step::Session { from, to } => is_session(graph, *from, *to),
        Step::Reads { from, to, key } => is_read(graph, *from, *to, key),
    }
}

/// Whether the steps, each a pair of the history, lead from one transaction to the other.
fn leads(graph: &LargeGraph, from: u32, to: u32, steps: &[Step]) -> bool
    ensures { IsTrue result ↔ Leads graph.now from to steps.now }
{
    let mut at = from;
    for step in steps {
        if step.from() != at || !is_step(graph, step) {
            return false;
        }
        at = step.to();
    }
    at == to
}

/// Whether the level allows the walk.
fn is_allowed(level: Level, walk: &[Step]) -> bool
    ensures { IsTrue result ↔ IsAllowed level walk.now }
{
    match level {
        Level::Causal => true,
        Level::Atomic => walk.len() == 1,
    }
}

/// Whether `reader` reads the key from `to`, and `from`, another writer of it, reaches `reader` by the walk, which the
/// level allows.
fn is_reason(
    graph: &LargeGraph,
    level: Level,
    from: u32,
    to: u32,
    key: &Name,
    reader: u32,
    walk: &[Step],
) -> bool
    ensures { IsTrue result ↔ IsReason (judged graph.now level) from to key.now reader walk.now }
{
    from != to
        && is_read(graph, to, reader, key)
        && is_writer(graph, from, key)
        && is_allowed(level, walk)
        && !walk.is_empty()
        && leads(graph, from, reader, walk)
}

/// Whether the link is one of the history at the level.
pub(crate) fn is_link(graph: &LargeGraph, level: Level, link: &Link) -> bool
    ensures { IsTrue result ↔ IsLink (judged graph.now level) link.now }
{
    let (from, to) = (link.from(), link.to());
    match link {
        Link::Session { .. } => is_session(graph, from, to),
        Link::Reads { key, .. } => is_read(graph, from, to, key),
        Link::Derived {
            key,
            reader,
            walk,
            ..
        } => is_reason(graph, level, from, to, key, *reader, walk.as_slice()),
    }
}
