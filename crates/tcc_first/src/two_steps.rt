//! Derived links of two steps: a pair leads from a transaction to a reader of a key that it writes, and that reads another write. The
//! search goes through the keys of the one transaction, each with the readers of the other.
ghost use Rattle.std.specs.Prelude.{◌≡◌, ◌≢◌, ◌≤◌, ◌<◌, ◌↔◌, ℕ, List, length, IsTrue};
ghost use Rattle.tcc_reads.specs.History.{count};
ghost use Rattle.tcc_graph.specs.{Relations.IsSessionPair, Relations.IsReadsPair, Relations.IsCausalPair, Keys.keys, Keys.key_at};
ghost use Rattle.tcc_first.specs.private.Ways.{IsTwoStep, IsSessionTwoStep};

use crate::ranges::{first_above, has_number, has_within, readers_of};
use tcc_graph::LargeGraph;

/// Whether a pair leads from one transaction to a reader of the key at an index from the other. `later` is where the transactions that
/// follow the one in session order begin and end.
fn leads_to_reader(
    graph: &LargeGraph,
    from: u32,
    later: (u32, u32),
    source: u32,
    key_index: u32,
) -> bool
    requires from { from < count graph.now }
    requires later { (c : ℕ) → IsSessionPair graph.now from c ↔ ((later.0 ≤ c) × (c < later.1)) }
    requires source { source < count graph.now }
    requires key { key_index < length (keys graph.now) }
    ensures { IsTrue result ↔ ((c : ℕ) × IsReadsPair graph.now source c (key_at graph.now key_index) × IsCausalPair graph.now from c) }
{
    let (sources, all_readers) = graph.readings_of(key_index);
    let readers = readers_of(sources, all_readers, source);
    if has_within(readers, later.0, later.1) {
        return true;
    }
    for reader in graph.readings_at(from).0 {
        if has_number(readers, *reader) {
            return true;
        }
    }
    false
}

/// Whether a pair leads from `init` to a reader of the other transaction.
fn init_leads_to_reader(graph: &LargeGraph, source: u32) -> bool
    requires source { source < count graph.now }
    ensures { IsTrue result ↔ ((x : List ℕ) × (c : ℕ) × IsReadsPair graph.now source c x × IsCausalPair graph.now 0 c) }
{
    for reader in graph.readings_at(source).0 {
        if graph.causal(0, *reader) {
            return true;
        }
    }
    false
}

/// Whether a derived link of two steps leads from one transaction to the other. `init` writes every key.
pub(crate) fn is_two_step(graph: &LargeGraph, from: u32, to: u32) -> bool
    requires from { from < count graph.now }
    requires to { to < count graph.now }
    ensures { IsTrue result ↔ IsTwoStep graph.now from to }
{
    if from == to {
        return false;
    }
    if from == 0 {
        return init_leads_to_reader(graph, to);
    }
    let later = graph.later(from);
    for key_index in graph.writes_at(from) {
        if leads_to_reader(graph, from, later, to, *key_index) {
            return true;
        }
    }
    false
}

/// Whether a reader of the key at an index from the source follows a transaction in session order.
fn is_read_later(graph: &LargeGraph, from: u32, source: u32, key_index: u32) -> bool
    requires some { 0 < from }
    requires from { from < count graph.now }
    requires source { source < count graph.now }
    requires key { key_index < length (keys graph.now) }
    ensures { IsTrue result ↔ ((c : ℕ) × IsReadsPair graph.now source c (key_at graph.now key_index) × IsSessionPair graph.now from c) }
{
    graph.numbered();
    let (sources, all_readers) = graph.readings_of(key_index);
    let readers = readers_of(sources, all_readers, source);
    match first_above(readers, from) {
        Some(reader) => graph.session(from, reader),
        None => false,
    }
}

/// Whether a reader of the transaction follows `init` in session order.
fn is_read_after_init(graph: &LargeGraph, source: u32) -> bool
    requires source { source < count graph.now }
    ensures { IsTrue result ↔ ((x : List ℕ) × (c : ℕ) × IsReadsPair graph.now source c x × IsSessionPair graph.now 0 c) }
{
    for reader in graph.readings_at(source).0 {
        if graph.session(0, *reader) {
            return true;
        }
    }
    false
}

/// Whether a derived link of two steps leads from one transaction to the other whose reader follows the one in session order.
pub(crate) fn is_session_two_step(graph: &LargeGraph, from: u32, to: u32) -> bool
    requires from { from < count graph.now }
    requires to { to < count graph.now }
    ensures { IsTrue result ↔ IsSessionTwoStep graph.now from to }
{
    if from == to {
        return false;
    }
    if from == 0 {
        return is_read_after_init(graph, to);
    }
    for key_index in graph.writes_at(from) {
        if is_read_later(graph, from, to, *key_index) {
            return true;
        }
    }
    false
}
