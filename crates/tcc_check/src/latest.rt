//! The axiom, asked of few writers: those that come after what is read. Where the writers are many, only the last one of
//! each session that a reader's clock reaches is asked. Those before it come before it in the order too.
ghost use Rattle.std.specs.Prelude.{ℕ, ◌≡◌, ◌≢◌, ◌<◌, ◌≤◌, ◌^◌, ◌↔◌, List, All, Contains, length, slice_index, IfOk, IsTrue};
ghost use Rattle.tcc_reads.specs.History.{IsBySession, count, owner};
ghost use Rattle.tcc_graph.specs.{Keys.key_at, Keys.keys, declared.level.Level.TheVariants.Causal};
ghost use Rattle.tcc_cert.specs.OrderRules.{HasClocks, MayReach};
ghost use Rattle.tcc_check.specs.private.Latest.{is_within, IsCountWithin, IsLastWithin, AreOwned, AreRising, KeepsSessions, KeepsPairsBy, StandBefore, StandAllBefore, IsReadKept, AreReadsKept};

use crate::order::clock_gap;
use crate::single_pairs::are_reads_kept_by_pairs;
use std::alloc::Global;
use tcc_cert::Numbers;
use tcc_graph::{LargeGraph, Level};
use tcc_txn::NoMemory;

/// To look for the last writer of a session takes about as long as to ask this many writers.
const WRITERS_ASKED: usize = 16;

/// Whether a transaction is of an earlier session, or of this one and no later than the place, or `init`.
fn is_within(graph: &LargeGraph, session: u32, place: u32, number: u32) -> bool
    ensures { result ≡ is_within graph.now session place number }
{
    match graph.at(number) {
        None => true,
        Some((owner, own)) => owner < session || (owner == session && own <= place),
    }
}

/// How many of these come no later than the place of the session. They are the first of the list.
fn count_within(graph: &LargeGraph, writers: &[u32], session: u32, place: u32) -> usize
    requires numbered { IsBySession graph.now.entries }
    requires writers { AreRising graph.now writers.now }
    ensures { IsCountWithin graph.now writers.now session place result }
{
    writers.partition_point(|writer| is_within(graph, session, place, *writer))
}

/// The last of these that comes no later than the place of the session.
fn last_within(graph: &LargeGraph, writers: &[u32], session: u32, place: u32) -> Option<u32>
    requires numbered { IsBySession graph.now.entries }
    requires writers { AreRising graph.now writers.now }
    ensures { IsLastWithin graph.now writers.now session place result }
{
    let count = count_within(graph, writers, session, place);
    if count == 0 {
        return None;
    }
    Some(writers[count - 1])
}

/// Whether the last of these that comes no later than the place of the session, if it is of the session, isn't after the
/// source.
pub(crate) fn stands_before(
    graph: &LargeGraph,
    positions: &[u32],
    writers: &[u32],
    at: (u32, u32),
    source: u32,
) -> bool
    requires positions { KeepsSessions graph.now positions.now }
    requires writers { AreRising graph.now writers.now }
    requires source { source < count graph.now }
    ensures { IsTrue result → StandBefore graph.now positions.now writers.now at.0 at.1 source }
{
    let (session, place) = at;
    let Some(last) = last_within(graph, writers, session, place) else {
        return true;
    };
    match graph.at(last) {
        None => true,
        Some((owner, _)) => {
            owner < session
                || (owner == session && positions[last as usize] <= positions[source as usize])
        }
    }
}

/// Whether none of these that the clock reaches comes after the source.
fn stand_before(
    graph: &LargeGraph,
    positions: &[u32],
    clock: &[u32],
    writers: &[u32],
    source: u32,
) -> bool
    requires positions { KeepsSessions graph.now positions.now }
    requires writers { AreRising graph.now writers.now }
    requires source { source < count graph.now }
    requires few { length clock.now < 2 ^ 32 }
    ensures { IsTrue result → StandAllBefore graph.now positions.now clock.now writers.now source }
{
    for (session, place) in clock.iter().enumerate() {
        if !stands_before(graph, positions, writers, (session as u32, *place), source) {
            return false;
        }
    }
    true
}

/// Whether, by the clock of `c`, `b` may reach it.
fn may_reach(graph: &LargeGraph, clocks: &[Numbers], b: u32, c: u32) -> bool
    requires clocks { HasClocks Causal (count graph.now) (length graph.now.sessions) clocks.now }
    requires b { b < count graph.now }
    requires c { c < count graph.now }
    ensures { IsTrue result ↔ MayReach graph.now Causal clocks.now b c }
{
    clock_gap(graph, clocks, b, c) == 0
}

/// Whether none of these that may reach the source's reader comes after the source. Each of them is checked.
fn reached_before(
    graph: &LargeGraph,
    positions: &[u32],
    clocks: &[Numbers],
    writers: &[u32],
    source: u32,
    c: u32,
) -> bool
    requires long { length positions.now ≡ count graph.now }
    requires clocks { HasClocks Causal (count graph.now) (length graph.now.sessions) clocks.now }
    requires below { All (λ b. b < count graph.now) writers.now }
    requires source { source < count graph.now }
    requires reader { c < count graph.now }
    ensures { IsTrue result → ((b : ℕ) → Contains writers.now b → b ≢ source → MayReach graph.now Causal clocks.now b c
        → slice_index positions.now b < slice_index positions.now source) }
{
    for writer in writers {
        if *writer != source
            && positions[source as usize] <= positions[*writer as usize]
            && may_reach(graph, clocks, *writer, c)
        {
            return false;
        }
    }
    true
}

/// Whether the axiom is kept by a read of `c` at a key: no other writer of the key that the clock of `c` reaches comes
/// after the source. Each is checked, or, where they are many, the last of each session.
fn is_read_kept(
    graph: &LargeGraph,
    positions: &[u32],
    clocks: &[Numbers],
    key: u32,
    source: u32,
    c: u32,
) -> bool
    requires order { KeepsPairsBy graph.now Causal positions.now clocks.now }
    requires owners { AreOwned graph.now }
    requires key { key < length (keys graph.now) }
    requires source { source < count graph.now }
    requires reader { c < count graph.now }
    ensures { IsTrue result → IsReadKept graph.now Causal positions.now clocks.now (key_at graph.now key) source c }
{
    let writers = graph.writers_at(key);
    let clock = clocks[c as usize].as_slice();
    if writers.len() / WRITERS_ASKED <= clock.len() {
        reached_before(graph, positions, clocks, writers, source, c)
    } else {
        stand_before(graph, positions, clock, writers, source)
    }
}

/// Whether the axiom is kept by all reads of `c`, as its clock says.
fn are_reads_kept(graph: &LargeGraph, positions: &[u32], clocks: &[Numbers], c: u32) -> bool
    requires order { KeepsPairsBy graph.now Causal positions.now clocks.now }
    requires owners { AreOwned graph.now }
    requires reader { c < count graph.now }
    ensures { IsTrue result → AreReadsKept graph.now Causal positions.now clocks.now c }
{
    for (key, source) in graph.reads_at(c) {
        if !is_read_kept(graph, positions, clocks, *key, *source, c) {
            return false;
        }
    }
    true
}

/// Whether a transaction is of one of the sessions.
fn is_owned(graph: &LargeGraph, number: u32) -> bool
    ensures { IsTrue result → 0 < number → number < count graph.now → owner graph.now number < length graph.now.sessions }
{
    match graph.at(number) {
        None => false,
        Some((owner, _)) => (owner as usize) < graph.sessions().len(),
    }
}

/// Whether each but `init` is.
fn are_owned(graph: &LargeGraph) -> bool
    ensures { IsTrue result → AreOwned graph.now }
{
    for number in 1..graph.count() {
        if !is_owned(graph, number) {
            return false;
        }
    }
    true
}

/// Whether the axiom is kept by all reads of `c`, as its clock says, or, at `Atomic`, the pairs that lead to it.
fn is_reader_right(
    alloc: Global,
    graph: &LargeGraph,
    level: Level,
    positions: &[u32],
    clocks: &[Numbers],
    c: u32,
) -> Result<bool, NoMemory>
    requires order { KeepsPairsBy graph.now level positions.now clocks.now }
    requires owners { AreOwned graph.now }
    requires reader { c < count graph.now }
    ensures { IfOk result (λ kept. IsTrue kept → AreReadsKept graph.now level positions.now clocks.now c) }
{
    match level {
        Level::Causal => Ok(are_reads_kept(graph, positions, clocks, c)),
        Level::Atomic => are_reads_kept_by_pairs(alloc, graph, positions, c),
    }
}

/// Whether the last writers show that the axiom is kept. Where they don't, it may be broken, and each transaction has to be
/// checked.
pub(crate) fn keeps_axiom(
    alloc: Global,
    graph: &LargeGraph,
    level: Level,
    positions: &[u32],
    clocks: &[Numbers],
) -> Result<bool, NoMemory>
    requires { KeepsPairsBy graph.now level positions.now clocks.now }
    ensures { IfOk result (λ kept. IsTrue kept → (c : ℕ) → c < count graph.now → AreReadsKept graph.now level positions.now clocks.now c) }
{
    if !are_owned(graph) {
        return Ok(false);
    }
    for c in 0..graph.count() {
        if !is_reader_right(alloc, graph, level, positions, clocks, c)? {
            return Ok(false);
        }
    }
    Ok(true)
}
