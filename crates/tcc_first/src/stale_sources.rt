//! Derived links of two steps from a transaction into a higher one that it reads from. Those whose reader follows the transaction in
//! session order are found by what it reads from, and those whose reader reads from it by its readers.
ghost use Rattle.std.specs.Prelude.{◌≡◌, ◌≤◌, ◌<◌, ◌↔◌, ℕ, List, length, IsTrue};
ghost use Rattle.tcc_reads.specs.History.{count};
ghost use Rattle.tcc_graph.specs.{Relations.IsReadsPair, Keys.IsWriter, Keys.keys, Keys.key_at};
ghost use Rattle.tcc_least.specs.Shapes.{IsRead};
ghost use Rattle.tcc_first.specs.private.Ways.{HasStaleSource, IsReadTwoStep, IsSessionTwoStep};

use crate::ranges::has_number;
use crate::two_steps::is_session_two_step;
use tcc_graph::LargeGraph;

/// Whether a transaction overwrites what is read, and reads from its source, which is above it.
fn overwrites_source(graph: &LargeGraph, start: u32, reader: u32, read: (u32, u32)) -> bool
    requires start { start < count graph.now }
    requires within { (read.0 < length (keys graph.now)) × (read.1 < count graph.now) }
    requires is { IsReadsPair graph.now read.1 reader (key_at graph.now read.0) }
    ensures { IsTrue result ↔ ((start < read.1) × IsWriter graph.now start (key_at graph.now read.0) × IsRead graph.now read.1 start) }
{
    graph.numbered();
    if read.1 <= start {
        return false;
    }
    has_number(graph.writers_at(read.0), start) && graph.causal(read.1, start)
}

/// Whether a reader reads what a transaction overwrites from a higher one that the transaction reads from too.
fn reads_overwritten(graph: &LargeGraph, start: u32, reader: u32) -> bool
    requires start { start < count graph.now }
    requires reader { reader < count graph.now }
    ensures { IsTrue result ↔ ((u : ℕ) × (x : List ℕ)
        × IsReadsPair graph.now u reader x × (start < u) × IsWriter graph.now start x × IsRead graph.now u start) }
{
    for read in graph.reads_at(reader) {
        if overwrites_source(graph, start, reader, *read) {
            return true;
        }
    }
    false
}

/// Whether the reader of such a link reads from the transaction.
fn has_stale_read(graph: &LargeGraph, start: u32) -> bool
    requires { start < count graph.now }
    ensures { IsTrue result ↔ ((u : ℕ) × IsRead graph.now u start × (start ≤ u) × IsReadTwoStep graph.now start u) }
{
    for reader in graph.readings_at(start).0 {
        if reads_overwritten(graph, start, *reader) {
            return true;
        }
    }
    false
}

/// Whether the reader of such a link follows the transaction in session order.
fn has_stale_session(graph: &LargeGraph, start: u32) -> bool
    requires { start < count graph.now }
    ensures { IsTrue result ↔ ((u : ℕ) × IsRead graph.now u start × (start ≤ u) × IsSessionTwoStep graph.now start u) }
{
    for read in graph.reads_at(start) {
        if start <= read.1 && is_session_two_step(graph, start, read.1) {
            return true;
        }
    }
    false
}

/// Whether a derived link of two steps leads from a transaction into one that it reads from and that isn't below it.
pub(crate) fn has_stale_source(graph: &LargeGraph, start: u32) -> bool
    requires { start < count graph.now }
    ensures { IsTrue result ↔ HasStaleSource graph.now start }
{
    has_stale_session(graph, start) || has_stale_read(graph, start)
}
