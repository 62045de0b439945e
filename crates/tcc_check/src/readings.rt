//! Who reads each key, in groups of one source, and what a row has for the readers of a source.
ghost use Rattle.std.specs.Prelude.{◌≡◌, ◌<◌, ◌≤◌, All, Contains, IfOk, IfSome, length, slice_index};
ghost use Rattle.std.specs.Prelude.{ℕ, ◌⊎◌};
ghost use Rattle.tcc_txn.specs.declared.limits.TheConstants.{MAX_COUNT};
ghost use Rattle.tcc_reads.specs.History.{count};
ghost use Rattle.tcc_graph.specs.Keys.{keys};
ghost use Rattle.tcc_check.specs.private.Readings.{AreReadings, AreReadingsAt, KeyWeighs, PairWeighs, ReadingWeighs};
ghost use Rattle.tcc_check.specs.private.Weights.{IsLowered, unlinked};

use crate::groups::Groups;
use crate::links_from::UNLINKED;
use std::alloc::Global;
use tcc_graph::LargeGraph;
use tcc_txn::NoMemory;

/// Where the sources of a key have fewer readers than this on average, the source is looked up for each reader.
const READERS_GROUPED: usize = 4;

/// Who reads a key, each with the source, where the sources have many readers.
fn readings_at(
    alloc: Global,
    graph: &LargeGraph,
    key_index: u32,
) -> Result<Option<Groups>, NoMemory>
    requires few { count graph.now ≤ MAX_COUNT }
    requires key_index { key_index < length (keys graph.now) }
    ensures { IfOk result (λ found. IfSome found (AreReadingsAt graph.now key_index)) }
{
    let (sources, readers) = graph.readings_of(key_index);
    let mut readings = Vec::new(alloc);
    for (index, reader) in readers.iter().enumerate() {
        readings.push((*reader, sources[index]))?;
    }
    let groups = Groups::new(alloc, &readings)?;
    if !groups.are_wide(READERS_GROUPED) {
        return Ok(None);
    }
    Ok(Some(groups))
}

/// Those of each key.
pub(crate) fn readings_of(
    alloc: Global,
    graph: &LargeGraph,
) -> Result<Vec<Option<Groups>>, NoMemory>
    requires { count graph.now ≤ MAX_COUNT }
    ensures { IfOk result (λ readings. AreReadings graph.now readings.items) }
{
    let mut readings = Vec::new(alloc);
    for key_index in 0..graph.keys().len() {
        let key_index = u32::try_from(key_index).map_err(|_| NoMemory)?;
        readings.push(readings_at(alloc, graph, key_index)?)?;
    }
    Ok(readings)
}

/// The least value of a row.
pub(crate) fn least_of(row: &[u32]) -> u32
    ensures { All (λ value. result ≤ value) row.now }
{
    let mut least = UNLINKED;
    for value in row {
        least = least.min(*value);
    }
    least
}

/// The least that the row has for one of these readers. None of its numbers is below the floor, so none is looked at after
/// one that is as low.
fn least_for(readers: &[u16], row: &[u32], floor: u32) -> u32
    requires readers { All (λ reader. reader < length row.now) readers.now }
    requires floor { All (λ value. floor ≤ value) row.now }
    ensures low { (c : ℕ) → Contains readers.now c → result ≤ slice_index row.now c }
    ensures from { (result ≡ unlinked) ⊎ ((c : ℕ) × Contains readers.now c × (result ≡ slice_index row.now c)) }
{
    let mut least = UNLINKED;
    for reader in readers {
        least = least.min(row[*reader as usize]);
        if least <= floor {
            return least;
        }
    }
    least
}

/// Lowers the weight of each source but `start` to the least that the row has for its readers.
fn lower_readings(weights: &mut [u32], readings: &Groups, row: &[u32], floor: u32, start: u32)
    requires sources { All (λ reading. reading.1 < length weights.old) readings.now }
    requires readers { All (λ reading. reading.0 < length row.now) readings.now }
    requires floor { All (λ value. floor ≤ value) row.now }
    ensures { IsLowered (ReadingWeighs readings.now row.now start) weights.old weights.new }
{
    let (mut left, groups) = readings.parts();
    for (source, count) in groups {
        let (readers, later) = left.split_at(*count as usize);
        if *source != start {
            let least = least_for(readers, row, floor);
            weights[*source as usize] = weights[*source as usize].min(least);
        }
        left = later;
    }
}

/// Lowers the weight of each of these sources but `start` to what the row has for the reader beside it.
fn lower_pairs(weights: &mut [u32], sources: &[u32], readers: &[u32], row: &[u32], start: u32)
    requires long { length sources.now ≡ length readers.now }
    requires sources { All (λ source. source < length weights.old) sources.now }
    requires readers { All (λ reader. reader < length row.now) readers.now }
    ensures { IsLowered (PairWeighs sources.now readers.now row.now start) weights.old weights.new }
{
    for (index, source) in sources.iter().enumerate() {
        if *source != start {
            let value = row[readers[index] as usize];
            weights[*source as usize] = weights[*source as usize].min(value);
        }
    }
}

/// Lowers the weights of the sources of a key, but that of `start`, to what the row has for their readers there.
pub(crate) fn lower_key(
    weights: &mut [u32],
    graph: &LargeGraph,
    readings: &Option<Groups>,
    key_index: u32,
    row: &[u32],
    floor: u32,
    start: u32,
)
    requires weights { length weights.old ≡ count graph.now }
    requires readings { IfSome readings.now (AreReadingsAt graph.now key_index) }
    requires key_index { key_index < length (keys graph.now) }
    requires row { length row.now ≡ count graph.now }
    requires floor { All (λ value. floor ≤ value) row.now }
    ensures { IsLowered (KeyWeighs graph.now row.now start key_index) weights.old weights.new }
{
    match readings {
        Some(readings) => lower_readings(weights, readings, row, floor, start),
        None => {
            let (sources, readers) = graph.readings_of(key_index);
            lower_pairs(weights, sources, readers, row, start);
        }
    }
}
