//! The links from one transaction other than session pairs, by its row of lengths: how many steps each of them takes
//! before its last one.
ghost use Rattle.std.specs.Prelude.{ℕ, ◌≡◌, ◌<◌, ◌≤◌, ◌^◌, ◌↔◌, All, IfOk, length, replicate, slice_index};
ghost use Rattle.tcc_txn.specs.declared.limits.TheConstants.{MAX_COUNT};
ghost use Rattle.tcc_reads.specs.History.{count};
ghost use Rattle.tcc_graph.specs.{Keys.keys, Relations.IsCausalPair};
ghost use Rattle.tcc_check.specs.private.Readings.{AreReadings, KeysWeigh};
ghost use Rattle.tcc_check.specs.private.Weights.{IsLeastRow, IsLowered, unlinked};
ghost use Rattle.tcc_check.specs.private.WeightsFrom.{AreAllEnds, AreEnds, AreLightEnds, BetweenWeighs, ContradictsBy, InitContradictsBy, MarkWeighs, ReadWeighs, SourceWeighs, WeighsFrom};

use crate::groups::Groups;
use crate::readings::{least_of, lower_key};
use std::alloc::Global;
use tcc_graph::LargeGraph;
use tcc_txn::NoMemory;

/// The weight where there is no link; no number of a table is above it.
pub(crate) const UNLINKED: u32 = u32::MAX;

/// Lowers the weights of these readers to 0.
fn mark(weights: &mut [u32], readers: &[u32])
    requires { All (λ reader. reader < length weights.old) readers.now }
    ensures { IsLowered (MarkWeighs readers.now) weights.old weights.new }
{
    for reader in readers {
        weights[*reader as usize] = 0;
    }
}

/// A weight for each transaction, where nothing is linked.
fn bare_weights(alloc: Global, graph: &LargeGraph) -> Result<Vec<u32>, NoMemory>
    ensures { IfOk result (λ weights. weights.items ≡ replicate (count graph.now) unlinked) }
{
    Ok(vec![in alloc; UNLINKED; graph.count() as usize]?)
}

/// The weights of reads-from pairs from `start`, by their ends.
fn read_weights(alloc: Global, graph: &LargeGraph, start: u32) -> Result<Vec<u32>, NoMemory>
    requires { start < count graph.now }
    ensures long { IfOk result (λ weights. length weights.items ≡ count graph.now) }
    ensures least { IfOk result (λ weights. IsLeastRow (ReadWeighs graph.now start) weights.items) }
{
    let mut weights = bare_weights(alloc, graph)?;
    mark(&mut weights, graph.readings_at(start).0);
    Ok(weights)
}

/// Lowers the weights from `first` to before `end` to 0.
fn mark_between(weights: &mut [u32], first: u32, end: u32)
    requires order { first ≤ end }
    requires inside { end ≤ length weights.old }
    ensures { IsLowered (BetweenWeighs first end) weights.old weights.new }
{
    for number in first..end {
        weights[number as usize] = 0;
    }
}

/// The weights of causal pairs from `start`, by their ends.
pub(crate) fn pair_weights(
    alloc: Global,
    graph: &LargeGraph,
    start: u32,
) -> Result<Vec<u32>, NoMemory>
    requires { start < count graph.now }
    ensures long { IfOk result (λ weights. length weights.items ≡ count graph.now) }
    ensures none { IfOk result (λ weights. (c : ℕ) → c < count graph.now → (slice_index weights.items c ≡ 0) ↔ IsCausalPair graph.now start c) }
{
    let mut weights = read_weights(alloc, graph, start)?;
    let (first, end) = graph.later(start);
    mark_between(&mut weights, first, end);
    Ok(weights)
}

/// Lowers the weights of the sources of these keys, but that of `start`, to what the row has for their readers there.
fn lower_keys(
    weights: &mut [u32],
    graph: &LargeGraph,
    readings: &[Option<Groups>],
    written: &[u32],
    row: &[u32],
    start: u32,
)
    requires weights { length weights.old ≡ count graph.now }
    requires readings { AreReadings graph.now readings.now }
    requires written { All (λ key_index. key_index < length (keys graph.now)) written.now }
    requires row { length row.now ≡ count graph.now }
    ensures { IsLowered (KeysWeigh graph.now written.now row.now start) weights.old weights.new }
{
    let floor = least_of(row);
    for key_index in written {
        let there = &readings[*key_index as usize];
        lower_key(weights, graph, there, *key_index, row, floor, start);
    }
}

/// Lowers the weight of the source to what the row has for each of these readers.
fn lower_source(weights: &mut [u32], source: u32, readers: &[u32], row: &[u32])
    requires source { source < length weights.old }
    requires readers { All (λ reader. reader < length row.now) readers.now }
    ensures { IsLowered (SourceWeighs source readers.now row.now) weights.old weights.new }
{
    for reader in readers {
        let value = row[*reader as usize];
        weights[source as usize] = weights[source as usize].min(value);
    }
}

/// Does that for each source but `init`, which writes every key.
fn lower_sources(weights: &mut [u32], graph: &LargeGraph, row: &[u32])
    requires weights { length weights.old ≡ count graph.now }
    requires row { length row.now ≡ count graph.now }
    ensures { IsLowered (InitContradictsBy graph.now row.now) weights.old weights.new }
{
    for source in 1..graph.count() {
        lower_source(weights, source, graph.readings_at(source).0, row);
    }
}

/// Lowers the weights to what the row has for the readers that `start` may contradict.
fn lower_contradicted(
    weights: &mut [u32],
    graph: &LargeGraph,
    readings: &[Option<Groups>],
    row: &[u32],
    start: u32,
)
    requires weights { length weights.old ≡ count graph.now }
    requires readings { AreReadings graph.now readings.now }
    requires row { length row.now ≡ count graph.now }
    requires start { start < count graph.now }
    ensures { IsLowered (ContradictsBy graph.now row.now start) weights.old weights.new }
{
    if start == 0 {
        lower_sources(weights, graph, row);
    } else {
        let written = graph.writes_at(start);
        lower_keys(weights, graph, readings, written, row, start);
    }
}

/// The weights of what `start` contradicts, by its row.
pub(crate) fn contradicted_weights(
    alloc: Global,
    graph: &LargeGraph,
    readings: &[Option<Groups>],
    row: &[u32],
    start: u32,
) -> Result<Vec<u32>, NoMemory>
    requires readings { AreReadings graph.now readings.now }
    requires row { length row.now ≡ count graph.now }
    requires start { start < count graph.now }
    ensures long { IfOk result (λ weights. length weights.items ≡ count graph.now) }
    ensures least { IfOk result (λ weights. IsLeastRow (ContradictsBy graph.now row.now start) weights.items) }
{
    let mut weights = bare_weights(alloc, graph)?;
    lower_contradicted(&mut weights, graph, readings, row, start);
    Ok(weights)
}

/// The ends whose weights are less than `least` together with their last steps, the lighter first.
fn light_ends(alloc: Global, weights: &[u32], least: u32) -> Result<Groups, NoMemory>
    requires { length weights.now < 2 ^ 16 }
    ensures { IfOk result (AreLightEnds weights.now least) }
{
    let mut ends = Vec::new(alloc);
    for (end, weight) in weights.iter().enumerate() {
        if u64::from(*weight) + 1 < u64::from(least) {
            ends.push((end as u32, *weight))?;
        }
    }
    ends.sort_by_key(|end| end.1)?;
    Ok(Groups::new(alloc, &ends)?)
}

/// The links from `start`, by its row of lengths, that cost less than `least`.
pub(crate) fn link_ends(
    alloc: Global,
    graph: &LargeGraph,
    readings: &[Option<Groups>],
    row: &[u32],
    start: u32,
    least: u32,
) -> Result<Groups, NoMemory>
    requires few { count graph.now ≤ MAX_COUNT }
    requires readings { AreReadings graph.now readings.now }
    requires row { length row.now ≡ count graph.now }
    requires start { start < count graph.now }
    ensures { IfOk result (AreEnds (WeighsFrom graph.now row.now start) (count graph.now) least) }
{
    let mut weights = read_weights(alloc, graph, start)?;
    lower_contradicted(&mut weights, graph, readings, row, start);
    let ends = light_ends(alloc, &weights, least)?;
    Ok(ends)
}

/// The reads-from pairs from `start`, where a single step is less than `least`.
fn read_ends_of(
    alloc: Global,
    graph: &LargeGraph,
    start: u32,
    least: u32,
) -> Result<Groups, NoMemory>
    requires few { count graph.now ≤ MAX_COUNT }
    requires start { start < count graph.now }
    ensures { IfOk result (AreEnds (ReadWeighs graph.now start) (count graph.now) least) }
{
    let weights = read_weights(alloc, graph, start)?;
    let ends = light_ends(alloc, &weights, least)?;
    Ok(ends)
}

/// Those from each transaction.
pub(crate) fn read_ends(
    alloc: Global,
    graph: &LargeGraph,
    least: u32,
) -> Result<Vec<Groups>, NoMemory>
    requires { count graph.now ≤ MAX_COUNT }
    ensures { IfOk result (λ ends. AreAllEnds (ReadWeighs graph.now) (count graph.now) least ends.items) }
{
    let mut ends = Vec::new(alloc);
    for start in 0..graph.count() {
        ends.push(read_ends_of(alloc, graph, start, least)?)?;
    }
    Ok(ends)
}
