//! Derived links of two steps into a transaction, for each of which a pair leads back from there. They are found by what is read from it
//! and has been overwritten since, and by its readers where the reader of the link follows in session order.
ghost use Rattle.std.specs.Prelude.{◌≡◌, ◌≤◌, ◌<◌, ◌↔◌, ℕ, List, length, IsTrue};
ghost use Rattle.tcc_reads.specs.History.{count};
ghost use Rattle.tcc_graph.specs.{Relations.IsSessionPair, Relations.IsReadsPair, Relations.IsCausalPair, Keys.IsWriter, Keys.keys, Keys.key_at};
ghost use Rattle.tcc_least.specs.Shapes.{IsRead, IsReturn};
ghost use Rattle.tcc_first.specs.private.Ways.{IsOverwritten, IsSessionTwoStep};

use crate::ranges::{has_number, last_below};
use crate::two_steps::is_session_two_step;
use tcc_graph::LargeGraph;

/// Whether a writer of the key at an index comes between two transactions in session order.
fn is_overwritten_between(graph: &LargeGraph, from: u32, to: u32, key_index: u32) -> bool
    requires from { from < count graph.now }
    requires to { to < count graph.now }
    requires key { key_index < length (keys graph.now) }
    requires read { IsReadsPair graph.now from to (key_at graph.now key_index) }
    ensures { IsTrue result
        ↔ ((b : ℕ) × IsWriter graph.now b (key_at graph.now key_index) × IsSessionPair graph.now from b × IsSessionPair graph.now b to) }
{
    graph.numbered();
    let Some(writer) = last_below(graph.writers_at(key_index), to) else {
        return false;
    };
    graph.session(from, writer) && graph.session(writer, to)
}

/// Whether a reader of the key at an index from a transaction also reads from a higher writer of the key, to which a pair leads from there.
fn reads_overwriting(graph: &LargeGraph, from: u32, reader: u32, key_index: u32) -> bool
    requires from { from < count graph.now }
    requires reader { reader < count graph.now }
    requires key { key_index < length (keys graph.now) }
    requires read { IsReadsPair graph.now from reader (key_at graph.now key_index) }
    ensures { IsTrue result
        ↔ ((b : ℕ) × IsWriter graph.now b (key_at graph.now key_index) × (from < b) × IsCausalPair graph.now from b × IsRead graph.now b reader) }
{
    let writers = graph.writers_at(key_index);
    for read in graph.reads_at(reader) {
        if from < read.1 && graph.causal(from, read.1) && has_number(writers, read.1) {
            return true;
        }
    }
    false
}

/// Whether what a reader reads of the key at an index from a transaction has been overwritten since.
fn is_overwritten(graph: &LargeGraph, from: u32, reader: u32, key_index: u32) -> bool
    requires from { from < count graph.now }
    requires reader { reader < count graph.now }
    requires key { key_index < length (keys graph.now) }
    requires read { IsReadsPair graph.now from reader (key_at graph.now key_index) }
    ensures { IsTrue result ↔ IsOverwritten graph.now from reader (key_at graph.now key_index) }
{
    is_overwritten_between(graph, from, reader, key_index)
        || reads_overwriting(graph, from, reader, key_index)
}

/// Whether something that is read from a transaction has been overwritten since.
fn has_overwritten(graph: &LargeGraph, from: u32) -> bool
    requires { from < count graph.now }
    ensures { IsTrue result ↔ ((x : List ℕ) × (c : ℕ) × IsReadsPair graph.now from c x × IsOverwritten graph.now from c x) }
{
    let (readers, key_indices) = graph.readings_at(from);
    for index in 0..readers.len() {
        if is_overwritten(graph, from, readers[index], key_indices[index]) {
            return true;
        }
    }
    false
}

/// Whether a derived link of two steps, whose reader follows in session order, leads into a transaction from a reader of it that isn't
/// below it.
fn has_reader_return(graph: &LargeGraph, from: u32) -> bool
    requires { from < count graph.now }
    ensures { IsTrue result ↔ ((b : ℕ) × IsRead graph.now from b × (from ≤ b) × IsSessionTwoStep graph.now b from) }
{
    for reader in graph.readings_at(from).0 {
        if from <= *reader && is_session_two_step(graph, *reader, from) {
            return true;
        }
    }
    false
}

/// Whether a pair leads from a transaction to another that isn't below it, and a derived link of two steps back.
pub(crate) fn has_return(graph: &LargeGraph, from: u32) -> bool
    requires { from < count graph.now }
    ensures { IsTrue result ↔ ((b : ℕ) × IsReturn graph.now b from × (from ≤ b)) }
{
    graph.numbered();
    has_overwritten(graph, from) || has_reader_return(graph, from)
}
