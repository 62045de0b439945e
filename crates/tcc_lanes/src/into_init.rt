//! Derived links into `init`, 64 keys at a time: the lane of a key begins at its writers, and is met where the key is read from `init`. For
//! K keys, N transactions and R reads this takes K / 64 rounds of sweeps of N + R, one sweep for each length of walks that leads to
//! anything new.
ghost use Rattle.std.specs.Prelude.{◌≡◌, ◌≤◌, ◌<◌, ◌↔◌, ℕ, length, All, IfOk, IsTrue, MatchOption};
ghost use Rattle.tcc_reads.specs.History.{IsBySession, count};
ghost use Rattle.tcc_graph.specs.{Keys.keys, Levels.judged};
ghost use Rattle.tcc_clocks.specs.Parents.{ArePrevious};
ghost use Rattle.tcc_lanes.specs.{declared.words.TheConstants.LANES, Among.HasCheaperIntoInit, Among.IsCheapest, Among.IsLowestIntoInit, private.Marks.HasLane};
ghost use Rattle.tcc_lanes.specs.private.IntoInit.{AreBegun, HasIntoInit, IsLowestInto, IsMetByInit, IsReadOfInit, IsWrittenBy};

use crate::frontier::walked;
use crate::marking::{Marking, marks_of};
use crate::tiles::tile_at;
use crate::words::{LANES, shares};
use std::alloc::Global;
use tcc_clocks::previous_of_each;
use tcc_graph::{LargeGraph, Level};
use tcc_txn::NoMemory;

/// The lanes whose keys a transaction writes.
fn lanes_written(graph: &LargeGraph, key_lanes: &[u64], v: u32) -> u64
    requires some { 0 < v }
    requires below { v < count graph.now }
    requires lanes { length key_lanes.now ≡ length (keys graph.now) }
    ensures { (i : ℕ) → i < LANES → HasLane result i ↔ IsWrittenBy graph.now key_lanes.now v i }
{
    let mut word = 0;
    for key_index in graph.writes_at(v) {
        word |= key_lanes[*key_index as usize];
    }
    word
}

/// Each lane at the writers of its key, of the transactions before the end.
fn begun_at_writers(alloc: Global, graph: &LargeGraph, key_lanes: &[u64], end: u32) -> Marking
    requires some { 0 < end }
    requires end { end ≤ count graph.now }
    requires lanes { length key_lanes.now ≡ length (keys graph.now) }
    ensures { IfOk result (λ begun. AreBegun graph.now key_lanes.now end begun.items) }
{
    let mut begun = vec![in alloc; 0; graph.count() as usize]?;
    for v in 1..end {
        begun[v as usize] = lanes_written(graph, key_lanes, v);
    }
    Ok(begun)
}

/// Whether a transaction reads the key of one of these lanes from `init`.
fn reads_initial(graph: &LargeGraph, key_lanes: &[u64], word: u64, reader: u32) -> bool
    requires reader { reader < count graph.now }
    requires lanes { length key_lanes.now ≡ length (keys graph.now) }
    ensures { IsTrue result ↔ IsReadOfInit graph.now key_lanes.now word reader }
{
    for read in graph.reads_at(reader) {
        if read.1 == 0 && shares(word, key_lanes[read.0 as usize]) {
            return true;
        }
    }
    false
}

/// Whether some transaction does so to which such a lane has come.
fn is_met(graph: &LargeGraph, key_lanes: &[u64], reached: &[u64]) -> bool
    requires reached { length reached.now ≡ count graph.now }
    requires lanes { length key_lanes.now ≡ length (keys graph.now) }
    ensures { IsTrue result ↔ IsMetByInit graph.now key_lanes.now reached.now }
{
    for reader in 0..graph.count() {
        if reads_initial(graph, key_lanes, reached[reader as usize], reader) {
            return true;
        }
    }
    false
}

/// Whether a derived link leads into `init` from a transaction before the end, by one of these keys and a walk of at most `most` steps.
fn has_into_init(
    alloc: Global,
    graph: &LargeGraph,
    level: Level,
    parent_of: &[u32],
    key_indices: &[u32],
    most: u32,
    end: u32,
) -> Result<bool, NoMemory>
    requires numbered { IsBySession graph.now.entries }
    requires parents { ArePrevious graph.now parent_of.now }
    requires lanes { length key_indices.now ≤ LANES }
    requires inside { All (λ k. k < length (keys graph.now)) key_indices.now }
    requires some { 0 < end }
    requires end { end ≤ count graph.now }
    ensures { IfOk result (λ found. IsTrue found ↔ HasIntoInit (judged graph.now level) most end key_indices.now) }
{
    let key_lanes = marks_of(alloc, graph.keys().len(), key_indices)?;
    let begun = begun_at_writers(alloc, graph, &key_lanes, end)?;
    let reached = walked(alloc, graph, level, parent_of, &begun, most)?;
    Ok(is_met(graph, &key_lanes, &reached))
}

/// Whether a derived link into `init`, by a reader of one of these keys, and a pair that leads on from there cost less than `most`. Each
/// key is given by its index.
#[tactic(auto, using(crate::proofs::TileLemmas::all_in_tile))]
pub fn has_cheaper_into_init(
    alloc: Global,
    graph: &LargeGraph,
    level: Level,
    key_indices: &[u32],
    most: u32,
) -> Result<bool, NoMemory>
    requires { All (λ k. k < length (keys graph.now)) key_indices.now }
    ensures { IfOk result (λ found. IsTrue found ↔ HasCheaperIntoInit (judged graph.now level) key_indices.now most) }
{
    // this call ensures that transactions are ordered by session and place
    graph.sessions();
    let parent_of = previous_of_each(alloc, graph)?;
    let longest = most.saturating_sub(3);
    for block in 0..key_indices.len().div_ceil(LANES) {
        let tile = tile_at(key_indices, block);
        if has_into_init(
            alloc,
            graph,
            level,
            &parent_of,
            tile,
            longest,
            graph.count(),
        )? {
            return Ok(true);
        }
    }
    Ok(false)
}

/// The least cost of a derived link into `init`, by a reader of one of these keys, with a pair that leads on from there, if it is less than
/// `most`. It takes what `has_cheaper_into_init` does; where there is one, that is repeated as often as `most` can be halved.
pub fn cheapest_into_init(
    alloc: Global,
    graph: &LargeGraph,
    level: Level,
    key_indices: &[u32],
    most: u32,
) -> Result<Option<u32>, NoMemory>
    requires { All (λ k. k < length (keys graph.now)) key_indices.now }
    ensures { IfOk result (IsCheapest (HasCheaperIntoInit (judged graph.now level) key_indices.now) most) }
{
    if !has_cheaper_into_init(alloc, graph, level, key_indices, most)? {
        return Ok(None);
    }
    let mut low = 0;
    let mut high = most;
    for _turn in 0..most {
        if high - low <= 1 {
            return Ok(Some(low));
        }
        let middle = low + (high - low) / 2;
        if has_cheaper_into_init(alloc, graph, level, key_indices, middle)? {
            high = middle;
        } else {
            low = middle;
        }
    }
    unreachable!()
}

/// The lowest transaction before the end from which a derived link leads into `init`, found by halving; the end where there is none. The
/// link is by one of these keys, and its walk has at most `most` steps.
fn lowest_in_tile(
    alloc: Global,
    graph: &LargeGraph,
    level: Level,
    parent_of: &[u32],
    key_indices: &[u32],
    most: u32,
    end: u32,
) -> Result<u32, NoMemory>
    requires numbered { IsBySession graph.now.entries }
    requires parents { ArePrevious graph.now parent_of.now }
    requires lanes { length key_indices.now ≤ LANES }
    requires inside { All (λ k. k < length (keys graph.now)) key_indices.now }
    requires some { 0 < end }
    requires end { end ≤ count graph.now }
    ensures { IfOk result (IsLowestInto (judged graph.now level) most end key_indices.now) }
{
    if !has_into_init(alloc, graph, level, parent_of, key_indices, most, end)? {
        return Ok(end);
    }
    let mut low = 1;
    let mut high = end;
    for _turn in 1..end {
        if high - low <= 1 {
            return Ok(low);
        }
        let middle = low + (high - low) / 2;
        if has_into_init(alloc, graph, level, parent_of, key_indices, most, middle)? {
            high = middle;
        } else {
            low = middle;
        }
    }
    unreachable!()
}

/// The lowest transaction from which a derived link leads into `init`, by a reader of one of these keys, and costs less than `most` with a
/// pair that leads on from there. It is none where there is no such link. It takes what `has_cheaper_into_init` does; each 64 keys by which
/// a lower one is found are searched again as often as N can be halved.
#[tactic(auto, using(crate::proofs::TileLemmas::all_in_tile))]
pub fn lowest_into_init(
    alloc: Global,
    graph: &LargeGraph,
    level: Level,
    key_indices: &[u32],
    most: u32,
) -> Result<Option<u32>, NoMemory>
    requires { All (λ k. k < length (keys graph.now)) key_indices.now }
    ensures { IfOk result (λ found. MatchOption found
        (HasCheaperIntoInit (judged graph.now level) key_indices.now most → ⊥)
        (IsLowestIntoInit (judged graph.now level) key_indices.now most)) }
{
    // this call ensures that transactions are ordered by session and place
    graph.sessions();
    let parent_of = previous_of_each(alloc, graph)?;
    let walk_most = most.saturating_sub(3);
    let mut end = graph.count();
    for block in 0..key_indices.len().div_ceil(LANES) {
        let tile = tile_at(key_indices, block);
        end = lowest_in_tile(alloc, graph, level, &parent_of, tile, walk_most, end)?;
    }
    if end == graph.count() {
        Ok(None)
    } else {
        Ok(Some(end))
    }
}
