//! Which lanes have come to a reader of what their starts write, by the member from which it is read.
ghost use Rattle.std.specs.Prelude.{◌≡◌, ◌≤◌, ◌<◌, ◌^◌, ◌↔◌, ◌⊎◌, ℕ, length, All, AllPairs, IfOk};
ghost use Rattle.tcc_reads.specs.History.{count};
ghost use Rattle.tcc_graph.specs.Keys.{keys};
ghost use Rattle.tcc_lanes.specs.{declared.words.TheConstants.LANES, private.Marks.IsAt};
ghost use Rattle.tcc_lanes.specs.private.Pricing.{AreColumns, IsMetAt, IsMetIn};

use std::alloc::Global;
use tcc_graph::LargeGraph;
use tcc_txn::NoMemory;

/// The column of a transaction that is no member.
const NO_COLUMN: u32 = u32::MAX;

/// For each transaction the index of the member that it is; for any other an index past the last.
pub(crate) fn columns_of(
    alloc: Global,
    graph: &LargeGraph,
    members: &[u32],
) -> Result<Vec<u32>, NoMemory>
    requires inside { All (λ v. v < count graph.now) members.now }
    requires ascending { AllPairs (λ u v. u < v) members.now }
    ensures columns { IfOk result (λ columns. AreColumns graph.now members.now columns.items) }
    ensures few { IfOk result (λ _columns. length members.now < 2 ^ 32) }
{
    let mut columns = vec![in alloc; NO_COLUMN; graph.count() as usize]?;
    for (column, member) in members.iter().enumerate() {
        columns[*member as usize] = column as u32;
    }
    Ok(columns)
}

/// Adds the lanes of a word that the reads of a transaction show.
fn meet_at(
    graph: &LargeGraph,
    columns: &[u32],
    writers: &[u64],
    word: u64,
    reader: u32,
    found: &mut [u64],
)
    requires columns { length columns.now ≡ count graph.now }
    requires writers { length writers.now ≡ length (keys graph.now) }
    requires reader { reader < count graph.now }
    ensures same { length found.new ≡ length found.old }
    ensures each { (v : ℕ) (i : ℕ) → v < length found.old → i < LANES
        → IsAt found.new v i ↔ (IsAt found.old v i ⊎ IsMetAt graph.now columns.now writers.now word reader v i) }
{
    for read in graph.reads_at(reader) {
        let column = columns[read.1 as usize] as usize;
        if column < found.len() {
            found[column] |= word & writers[read.0 as usize];
        }
    }
}

/// Adds for each transaction the lanes that have come to it and that its reads show.
pub(crate) fn meet(
    graph: &LargeGraph,
    columns: &[u32],
    writers: &[u64],
    reached: &[u64],
    found: &mut [u64],
)
    requires columns { length columns.now ≡ count graph.now }
    requires writers { length writers.now ≡ length (keys graph.now) }
    requires reached { length reached.now ≡ count graph.now }
    ensures same { length found.new ≡ length found.old }
    ensures each { (v : ℕ) (i : ℕ) → v < length found.old → i < LANES
        → IsAt found.new v i ↔ (IsAt found.old v i ⊎ IsMetIn graph.now columns.now writers.now reached.now (count graph.now) v i) }
{
    for reader in 0..graph.count() {
        let word = reached[reader as usize];
        meet_at(graph, columns, writers, word, reader, found);
    }
}
