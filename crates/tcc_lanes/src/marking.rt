//! Marks where lanes are.
ghost use Rattle.std.specs.Prelude.{◌≡◌, ◌≤◌, ◌<◌, ◌↔◌, ◌⊎◌, ℕ, length, All, Contains, IfOk};
ghost use Rattle.tcc_reads.specs.History.{count};
ghost use Rattle.tcc_graph.specs.Keys.{keys};
ghost use Rattle.tcc_lanes.specs.private.Marks.{AreMarksOf, AreWriterMarks, IsAt};

use crate::words::{LANES, with_lane};
use std::alloc::Global;
use tcc_graph::LargeGraph;
use tcc_txn::NoMemory;

/// A word of marks for each index, unless memory ran out.
pub(crate) type Marking = Result<Vec<u64>, NoMemory>;

/// Marks a lane at one more index.
fn mark_at(marks: &mut [u64], index: u32, lane: usize)
    requires inside { index < length marks.old }
    requires lane { lane < LANES }
    ensures same { length marks.new ≡ length marks.old }
    ensures each { (v : ℕ) (i : ℕ) → v < length marks.old → i < LANES
        → IsAt marks.new v i ↔ (IsAt marks.old v i ⊎ ((v ≡ index) × (i ≡ lane))) }
{
    marks[index as usize] = with_lane(marks[index as usize], lane);
}

/// Marks a lane at each of these indices.
fn mark_each(marks: &mut [u64], indices: &[u32], lane: usize)
    requires inside { All (λ index. index < length marks.old) indices.now }
    requires lane { lane < LANES }
    ensures same { length marks.new ≡ length marks.old }
    ensures each { (v : ℕ) (i : ℕ) → v < length marks.old → i < LANES
        → IsAt marks.new v i ↔ (IsAt marks.old v i ⊎ (Contains indices.now v × (i ≡ lane))) }
{
    for index in indices {
        mark_at(marks, *index, lane);
    }
}

/// Each lane at its index alone.
pub(crate) fn marks_of(alloc: Global, count: usize, indices: &[u32]) -> Marking
    requires inside { All (λ index. index < count) indices.now }
    requires lanes { length indices.now ≤ LANES }
    ensures { IfOk result (λ marks. AreMarksOf count indices.now (length indices.now) marks.items) }
{
    let mut marks = vec![in alloc; 0; count]?;
    for (lane, index) in indices.iter().enumerate() {
        mark_at(&mut marks, *index, lane);
    }
    Ok(marks)
}

/// For each key the lanes whose transaction writes it.
pub(crate) fn writer_marks(alloc: Global, graph: &LargeGraph, writers: &[u32]) -> Marking
    requires inside { All (λ b. b < count graph.now) writers.now }
    requires some { All (λ b. 0 < b) writers.now }
    requires lanes { length writers.now ≤ LANES }
    ensures { IfOk result (λ marks. AreWriterMarks graph.now writers.now (length writers.now) marks.items) }
{
    let mut marks = vec![in alloc; 0; graph.keys().len()]?;
    for (lane, writer) in writers.iter().enumerate() {
        mark_each(&mut marks, graph.writes_at(*writer), lane);
    }
    Ok(marks)
}
