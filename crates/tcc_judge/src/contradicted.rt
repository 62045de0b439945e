//! What an order of the causal pairs contradicts, at `Causal`, by the passes of `blocks`. For each place it keeps the last transaction that
//! has to come before it and doesn't, and for each key whether a transaction has to come before `init`. This takes the steps of these
//! passes, and for each reading that is contradicted one search by halving in each session. A pass forward then marks the transactions that
//! have to come before others (`sources`). A block none of whose transactions writes a key that is read from another one is passed over.
ghost use Rattle.std.specs.Prelude.{◌≡◌, ◌<◌, ◌≤◌, ◌+◌, ◌⊎◌, ◌↔◌, ℕ, List, length, slice_index, slice_index_or, true, false, Contains, IfOk, IsTrue, OnOk};
ghost use Rattle.std.specs.List.Sorted.{IsNonDecreasing};
ghost use Rattle.tcc_reads.specs.History.{History, count};
ghost use Rattle.tcc_graph.specs.{Keys.keys, Keys.key_at, Relations.IsReadsPair, Tables.row_of};
ghost use Rattle.tcc_clocks.specs.declared.latest.TheConstants.{WIDE};
ghost use Rattle.tcc_judge.specs.{declared.least.TheConstants.NONE, private.Decoding.IsOrdered, private.Positions.ArePositions, private.Positions.KeepsPairs};
ghost use Rattle.tcc_judge.specs.private.Blocks.{IsAt, IsWide};
ghost use Rattle.tcc_judge.specs.private.Sources.{AreSources};
ghost use Rattle.tcc_judge.specs.private.Contradicted.{AreContradicted, AreContradictedTo, IsBehindAt, IsBehindSome, IsBehindTo, IsGreatestOf};

use crate::axiom_violation::least_reaching;
use crate::blocks::Block;
use crate::least::NONE;
use crate::next_writers::NextWriters;
use crate::sources::mark_sources;
use std::alloc::Global;
use tcc_base::Progress;
use tcc_clocks::WIDE;
use tcc_graph::LargeGraph;
use tcc_txn::NoMemory;

/// What an order contradicts.
#[derive(Drop)]
pub(crate) struct ContradictedReads {
    /// For each place of the order the position of the last transaction that has to come before it and doesn't; 0 where there is none.
    pub(crate) lasts: Vec<u32>,
    /// For each key whether a reading of it from `init` is contradicted.
    pub(crate) stale: Vec<bool>,
    /// For each transaction whether it has to come before one that comes before it and isn't `init`.
    pub(crate) sources: Vec<bool>,
}

/// Whether a transaction of the block writes the key, is at a place or after it, and reaches the reader.
fn is_contradicted(block: &Block, key_index: u32, reader: u32) -> bool
    requires key { key_index < length block.now.next }
    requires reader { reader < length block.now.clocks }
    requires wide { length (row_of block.now.next key_index) ≡ length (row_of block.now.clocks reader) }
    ensures { (h : History) (order : List ℕ) (place : ℕ) → IsAt h order place block.now → key_index < length (keys h)
        → IsTrue result ↔ IsBehindSome h order block.now.from place (key_at h key_index) reader }
{
    least_reaching(block, key_index, reader) != NONE
}

/// The last of ascending numbers up to one, else 0.
fn last_up_to(numbers: &[u32], high: u32) -> u32
    requires { IsNonDecreasing numbers.now }
    ensures { IsGreatestOf (λ n. Contains numbers.now n × (n ≤ high)) result }
{
    let end = numbers.partition_point(|number| *number <= high);
    if end == 0 {
        return 0;
    }
    numbers[end - 1]
}

/// The position of the last such transaction; 0 where there is none.
fn contradicted_to(
    graph: &LargeGraph,
    block: &Block,
    positions: &[u32],
    key_index: u32,
    reader: u32,
) -> u32
    requires wide { IsWide graph.now block.now }
    requires long { length positions.now ≡ count graph.now }
    requires key { key_index < length (keys graph.now) }
    requires reader { reader < count graph.now }
    ensures { (order : List ℕ) (place a : ℕ) → IsAt graph.now order place block.now → ArePositions (count graph.now) order positions.now
        → IsReadsPair graph.now a reader (key_at graph.now key_index)
        → IsGreatestOf (IsBehindAt graph.now order positions.now block.now.from place (key_at graph.now key_index) reader) result }
{
    if !is_contradicted(block, key_index, reader) {
        return 0;
    }
    let clock = block.clocks.get(reader);
    let writers = graph.writers_at(key_index);
    let mut last = 0;
    for (session, number) in block.next.get(key_index).iter().enumerate() {
        if *number <= clock[session] {
            let writer = last_up_to(writers, clock[session]);
            last = positions[writer as usize].max(last);
        }
    }
    last
}

/// The position of the last transaction of the block that has to come before the one at a place, and comes after it; 0 where there is none.
fn last_contradicted(
    graph: &LargeGraph,
    block: &Block,
    positions: &[u32],
    order: &[u32],
    place: usize,
) -> u32
    requires inside { place < length order.now }
    requires at { IsAt graph.now order.now (place + 1) block.now }
    requires positions { ArePositions (count graph.now) order.now positions.now }
    ensures { IsGreatestOf (IsBehindTo graph.now order.now positions.now block.now.from (place + 1) (slice_index order.now place)) result }
{
    let (readers, key_indices) = graph.readings_at(order[place]);
    let mut last = 0;
    for (index, reader) in readers.iter().enumerate() {
        let to = contradicted_to(graph, block, positions, key_indices[index], *reader);
        last = to.max(last);
    }
    last
}

/// Marks the keys for which the block contradicts a reading from `init`, which comes first.
fn mark_stale(graph: &LargeGraph, block: &Block, stale: &mut [bool])
    requires wide { IsWide graph.now block.now }
    requires some { 0 < count graph.now }
    requires long { length stale.old ≡ length (keys graph.now) }
    ensures same { length stale.new ≡ length stale.old }
    ensures each { (order : List ℕ) → IsAt graph.now order 1 block.now
        → (k : ℕ) → k < length stale.old → (slice_index_or stale.new k false ≡ true)
        ↔ ((slice_index_or stale.old k false ≡ true)
        ⊎ ((c : ℕ) × IsReadsPair graph.now 0 c (key_at graph.now k) × IsBehindSome graph.now order block.now.from 1 (key_at graph.now k) c)) }
{
    let (readers, key_indices) = graph.readings_at(0);
    for (index, reader) in readers.iter().enumerate() {
        let key_index = key_indices[index];
        if is_contradicted(block, key_index, *reader) {
            stale[key_index as usize] = true;
        }
    }
}

/// Notes what the block contradicts.
fn note_block(
    graph: &LargeGraph,
    block: &mut Block,
    positions: &[u32],
    order: &[u32],
    lasts: &mut [u32],
    stale: &mut [bool],
) -> Result<(), NoMemory>
    requires at { IsAt graph.now order.now (length order.now) block.old }
    requires positions { ArePositions (count graph.now) order.now positions.now }
    requires so_far { AreContradictedTo graph.now order.now positions.now block.old.from lasts.old stale.old }
    ensures from { block.new.from ≡ block.old.from }
    ensures at { OnOk result (IsAt graph.now order.now 1 block.new) }
    ensures lasts_same { length lasts.new ≡ length lasts.old }
    ensures stale_same { length stale.new ≡ length stale.old }
    ensures noted { OnOk result (AreContradictedTo graph.now order.now positions.now (block.old.from + WIDE) lasts.new stale.new) }
{
    for place in (1..order.len()).rev() {
        let last = last_contradicted(graph, block, positions, order, place);
        lasts[place] = last.max(lasts[place]);
        block.go_back(graph, order, place)?;
    }
    mark_stale(graph, block, stale);
    Ok(())
}

/// What the order contradicts. Before each block `progress` is given the number of blocks done.
pub(crate) fn contradicted_along<P: Progress>(
    alloc: Global,
    graph: &LargeGraph,
    order: &[u32],
    positions: &[u32],
    progress: &P,
) -> Result<ContradictedReads, NoMemory>
    requires ordered { IsOrdered graph.now order.now }
    requires kept { KeepsPairs graph.now order.now positions.now }
    ensures found { IfOk result (λ found. AreContradicted graph.now order.now positions.now found.lasts.items found.stale.items) }
    ensures sources { IfOk result (λ found. AreSources graph.now order.now found.sources.items) }
{
    let mut block = Block::new(alloc, graph, order)?;
    let mut lasts = vec![in alloc; 0; order.len()]?;
    let mut stale = vec![in alloc; false; graph.keys().len()]?;
    let mut gaps = NextWriters::new(alloc, graph.keys().len())?;
    let mut sources = vec![in alloc; false; graph.count() as usize]?;
    let needed = block.needed(alloc, graph)?;
    let blocks = graph.sessions().len().div_ceil(WIDE);
    for number in 0..blocks {
        progress.done(number, blocks);
        if !needed[number] {
            continue;
        }
        block.begin(graph, order, number)?;
        note_block(graph, &mut block, positions, order, &mut lasts, &mut stale)?;
        mark_sources(graph, &block, order, &lasts, &mut gaps, &mut sources)?;
    }
    Ok(ContradictedReads {
        lasts,
        stale,
        sources,
    })
}
