//! The transactions that have to come before one that comes before them in an order. A pass goes forward along it for each block of 64
//! sessions, after the pass back that finds to which of them something leads back. For each key and each session of the block it keeps the
//! last transaction that reaches a reader of the key from one of those passed. It is kept as the gap below `NONE`, since the table keeps
//! the least. Say there are N transactions, W writes, and R readings of those to which something leads back. Then this takes N + 64 R steps
//! a block, and W more in all.
ghost use Rattle.std.specs.Prelude.{◌≡◌, ◌<◌, ◌≤◌, ◌+◌, ◌⊎◌, ◌↔◌, ℕ, List, Bool, true, false, length, slice_index, slice_index_or, IsTrue, OnOk};
ghost use Rattle.tcc_reads.specs.History.{count};
ghost use Rattle.tcc_graph.specs.{Keys.keys, Tables.row_of};
ghost use Rattle.tcc_clocks.specs.{Clocks.AreClocks, declared.latest.TheConstants.WIDE};
ghost use Rattle.tcc_judge.specs.{declared.least.TheConstants.NONE, private.Blocks.IsReady, private.Contradicted.AreContradictedTo, private.Positions.ArePositions};
ghost use Rattle.tcc_judge.specs.private.Sources.{AreLoweredTo, AreLoweredWith, AreSourcesTo, IsGapBy, IsReaching, IsReachingIn, gap_of};

use crate::blocks::Block;
use crate::least::NONE;
use crate::next_writers::NextWriters;
use tcc_clocks::{SharedRows, WIDE};
use tcc_graph::LargeGraph;
use tcc_txn::NoMemory;

/// How far a number is below `NONE`.
fn gap_of(number: u32) -> u32
    ensures { result ≡ gap_of number }
{
    NONE - number
}

/// Lowers the gaps of a key to those of a clock.
fn lower_row(gaps: &mut NextWriters, key_index: u32, clock: &[u32]) -> Result<(), NoMemory>
    requires key { key_index < length gaps.old }
    requires wide { length (row_of gaps.old key_index) ≡ WIDE }
    requires clock { length clock.now ≡ WIDE }
    ensures { OnOk result (AreLoweredTo key_index clock.now WIDE gaps.old gaps.new) }
{
    for (session, number) in clock.iter().enumerate() {
        gaps.lower(key_index, session, gap_of(*number))?;
    }
    Ok(())
}

/// Lowers the gaps of each key that is read from a transaction to those of its readers.
fn lower_readings(
    graph: &LargeGraph,
    clocks: &SharedRows,
    a: u32,
    gaps: &mut NextWriters,
) -> Result<(), NoMemory>
    requires below { a < count graph.now }
    requires long { length clocks.now ≡ count graph.now }
    requires wide { (c : ℕ) → c < count graph.now → length (row_of clocks.now c) ≡ WIDE }
    requires keys { length gaps.old ≡ length (keys graph.now) }
    requires rows { (k : ℕ) → k < length (keys graph.now) → length (row_of gaps.old k) ≡ WIDE }
    ensures { OnOk result (AreLoweredWith (IsGapBy graph.now clocks.now a) gaps.old gaps.new) }
{
    let (readers, key_indices) = graph.readings_at(a);
    for (index, reader) in readers.iter().enumerate() {
        lower_row(gaps, key_indices[index], clocks.get(*reader))?;
    }
    Ok(())
}

/// Whether a transaction writes a key whose gap for its session is no greater than its own.
fn is_reaching(graph: &LargeGraph, gaps: &NextWriters, session: usize, b: u32) -> bool
    requires some { 0 < b }
    requires below { b < count graph.now }
    requires session { session < WIDE }
    requires keys { length gaps.now ≡ length (keys graph.now) }
    requires rows { (k : ℕ) → k < length (keys graph.now) → length (row_of gaps.now k) ≡ WIDE }
    ensures { IsTrue result ↔ IsReaching graph.now gaps.now session b }
{
    for key_index in graph.writes_at(b) {
        if gaps.get(*key_index)[session] <= gap_of(b) {
            return true;
        }
    }
    false
}

/// Marks a transaction, if it is of the block and reaches a reader of what it writes, by the gaps.
fn mark_at(graph: &LargeGraph, block: &Block, gaps: &NextWriters, b: u32, marks: &mut [bool])
    requires below { b < count graph.now }
    requires owners { length block.now.owners.items ≡ count graph.now }
    requires keys { length gaps.now ≡ length (keys graph.now) }
    requires rows { (k : ℕ) → k < length (keys graph.now) → length (row_of gaps.now k) ≡ WIDE }
    requires marks { length marks.old ≡ count graph.now }
    ensures same { length marks.new ≡ length marks.old }
    ensures each { (v : ℕ) → v < count graph.now → (slice_index_or marks.new v false ≡ true)
        ↔ ((slice_index_or marks.old v false ≡ true) ⊎ ((v ≡ b) × IsReachingIn graph.now block.now.owners.items block.now.from gaps.now b)) }
{
    let Some(session) = block.lane_of(b) else {
        return;
    };
    if is_reaching(graph, gaps, session, b) {
        marks[b as usize] = true;
    }
}

/// Marks the transactions of the block that have to come before one that comes before them, and isn't `init`. For each place the last one
/// that has to come before it and doesn't is given; 0 is none.
pub(crate) fn mark_sources(
    graph: &LargeGraph,
    block: &Block,
    order: &[u32],
    lasts: &[u32],
    gaps: &mut NextWriters,
    marks: &mut [bool],
) -> Result<(), NoMemory>
    requires ready { IsReady graph.now order.now block.now }
    requires clocks { AreClocks graph.now block.now.from block.now.clocks }
    requires lasts { length lasts.now ≡ length order.now }
    requires keys { length gaps.old ≡ length (keys graph.now) }
    requires so_far { AreSourcesTo graph.now order.now block.now.from marks.old }
    ensures keys { OnOk result (length gaps.new ≡ length gaps.old) }
    ensures same { length marks.new ≡ length marks.old }
    ensures marked { (positions : List ℕ) (stale : List Bool) → ArePositions (count graph.now) order.now positions
        → AreContradictedTo graph.now order.now positions (block.now.from + WIDE) lasts.now stale
        → OnOk result (AreSourcesTo graph.now order.now (block.now.from + WIDE) marks.new) }
{
    gaps.clear();
    for (place, number) in order.iter().enumerate() {
        mark_at(graph, block, gaps, *number, marks);
        if 0 < lasts[place] {
            lower_readings(graph, &block.clocks, *number, gaps)?;
        }
    }
    Ok(())
}
