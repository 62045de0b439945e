//! What links among members cost: 1 where there is a pair, and else one step more than the shortest walk of a derived link. They are found
//! from 64 members at a time. For M members, N transactions and R reads this takes M / 64 rounds of sweeps of N + R, one sweep for each
//! length of walks that leads to anything new. It takes 256 M bytes at a time.
ghost use Rattle.std.specs.Prelude.{◌≡◌, ◌≢◌, ◌≤◌, ◌<◌, ◌+◌, ◌*◌, ◌^◌, ◌↔◌, ℕ, IsTrue, length, slice_index, All, IfOk};
ghost use Rattle.tcc_reads.specs.History.{IsBySession, count};
ghost use Rattle.tcc_graph.specs.Levels.{judged};
ghost use Rattle.tcc_clocks.specs.Parents.{ArePrevious};
ghost use Rattle.tcc_lanes.specs.{declared.words.TheConstants.LANES, declared.pricing.TheConstants.NONE, private.Marks.HasLane, private.Marks.IsAt};
ghost use Rattle.tcc_lanes.specs.private.Pricing.{AreColumns, AreMarked, ArePrices, IsLowered, cell};

use crate::frontier::walk_on;
use crate::hits::{columns_of, meet};
use crate::marking::{marks_of, writer_marks};
use crate::words::{LANES, has_lane};
use std::alloc::Global;
use tcc_graph::{LargeGraph, Level};
use tcc_txn::NoMemory;

/// The price where there is no link.
pub(crate) const NONE: u32 = u32::MAX;

/// What derived links from the starts of some lanes to the members cost.
#[derive(Drop)]
pub(crate) struct LanePrices {
    /// For each column the lanes that have a price there.
    pub(crate) lanes: Vec<u64>,
    /// The price of each lane in each column; `NONE` where it has none.
    pub(crate) table: Vec<u32>,
}

/// Lowers a value to a price.
fn lower_at(table: &mut [u32], at: usize, price: u32)
    requires { at < length table.old }
    ensures same { length table.new ≡ length table.old }
    ensures each { (k : ℕ) → k < length table.old → IsLowered (k ≡ at) price (slice_index table.old k) (slice_index table.new k) }
{
    table[at] = table[at].min(price);
}

/// Whether a word has the mark of a lane that starts at another transaction.
fn is_met(word: u64, lane: usize, from: u32, to: u32) -> bool
    requires { lane < LANES }
    ensures { IsTrue result ↔ (HasLane word lane × (from ≢ to)) }
{
    from != to && has_lane(word, lane)
}

/// Lowers the prices of one column for the lanes of a word, where these start elsewhere.
fn lower_column(table: &mut [u32], column: usize, starts: &[u32], word: u64, to: u32, price: u32)
    requires lanes { length starts.now ≤ LANES }
    requires inside { cell (column + 1) 0 ≤ length table.old }
    ensures same { length table.new ≡ length table.old }
    ensures each { (v : ℕ) (i : ℕ) → cell (v + 1) 0 ≤ length table.old → i < LANES
        → IsLowered ((v ≡ column) × (i < length starts.now) × HasLane word i × (slice_index starts.now i ≢ to)) price
        (slice_index table.old (cell v i)) (slice_index table.new (cell v i)) }
{
    if word == 0 {
        return;
    }
    for (lane, from) in starts.iter().enumerate() {
        if is_met(word, lane, *from, to) {
            lower_at(table, column * LANES + lane, price);
        }
    }
}

/// Lowers the prices of each column for the lanes of its word, where these start elsewhere.
fn lower(table: &mut [u32], members: &[u32], starts: &[u32], found: &[u64], price: u32)
    requires lanes { length starts.now ≤ LANES }
    requires found { length found.now ≡ length members.now }
    requires long { length table.old ≡ length members.now * LANES }
    ensures same { length table.new ≡ length table.old }
    ensures each { (v : ℕ) (i : ℕ) → v < length members.now → i < LANES
        → IsLowered ((i < length starts.now) × IsAt found.now v i × (slice_index starts.now i ≢ slice_index members.now v)) price
        (slice_index table.old (cell v i)) (slice_index table.new (cell v i)) }
{
    for (column, member) in members.iter().enumerate() {
        lower_column(table, column, starts, found[column], *member, price);
    }
}

/// What derived links from these starts to the members cost, by walks of at most `longest` steps.
pub(crate) fn prices_from(
    alloc: Global,
    graph: &LargeGraph,
    level: Level,
    parent_of: &[u32],
    columns: &[u32],
    members: &[u32],
    starts: &[u32],
    longest: u32,
) -> Result<LanePrices, NoMemory>
    requires numbered { IsBySession graph.now.entries }
    requires parents { ArePrevious graph.now parent_of.now }
    requires columns { AreColumns graph.now members.now columns.now }
    requires members { All (λ v. v < count graph.now) members.now }
    requires few { length members.now < 2 ^ 32 }
    requires lanes { length starts.now ≤ LANES }
    requires inside { All (λ u. u < count graph.now) starts.now }
    requires some { All (λ u. 0 < u) starts.now }
    requires short { longest < NONE }
    ensures prices { IfOk result (λ found. ArePrices (judged graph.now level) members.now starts.now longest found.table.items) }
    ensures marked { IfOk result (λ found. AreMarked members.now starts.now found.lanes.items found.table.items) }
{
    let count = graph.count() as usize;
    let begun = marks_of(alloc, count, starts)?;
    let writers = writer_marks(alloc, graph, starts)?;
    let mut reached = vec![in alloc; 0; count]?;
    let mut underway = vec![in alloc; 0; count]?;
    let mut found = vec![in alloc; 0; members.len()]?;
    let mut table = vec![in alloc; NONE; members.len() * LANES]?;
    for steps in 0..longest {
        if !walk_on(graph, level, parent_of, &begun, &mut reached, &mut underway) {
            return Ok(LanePrices {
                lanes: found,
                table,
            });
        }
        meet(graph, columns, &writers, &reached, &mut found);
        lower(&mut table, members, starts, &found, steps + 2);
    }
    Ok(LanePrices {
        lanes: found,
        table,
    })
}
