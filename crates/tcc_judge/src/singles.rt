//! The first transaction that comes after another and has to come before it, at `Atomic`, where only single pairs matter. It asks for each
//! reading about the writers of its key in the reader's session, by halving, and about the reader's other sources. Say there are R reads,
//! each of a transaction with at most D of them, and at most W writers of a key. Then this takes some R D log W steps.
ghost use Rattle.std.specs.Prelude.{◌≡◌, ◌≤◌, ◌<◌, ◌↔◌, ℕ, length, slice_index, Contains, IfOk, IsTrue};
ghost use Rattle.std.specs.List.Sorted.{IsNonDecreasing};
ghost use Rattle.tcc_reads.specs.History.{IsBySession, count};
ghost use Rattle.tcc_graph.specs.{Levels.atomically, Relations.IsSessionPair};
ghost use Rattle.tcc_graph.specs.Keys.{keys, key_at, writers};
ghost use Rattle.tcc_judge.specs.{declared.least.TheConstants.NONE, Orders.BreaksAxiom, private.Least.IsFoundFirst, private.Least.IsLeastOf, private.Positions.KeepsPairs, private.Decoding.AreFirsts, private.Decoding.IsOrdered};
ghost use Rattle.tcc_judge.specs.private.Singles.{DoRise, IsBegin, IsInSession, IsSingle, IsSingleOf, IsSource, is_passed};

use crate::axiom_violation::first_with;
use crate::decoding::firsts_of;
use crate::least::NONE;
use std::alloc::Global;
use tcc_graph::LargeGraph;
use tcc_txn::NoMemory;

/// Where the session of a reader begins.
fn session_begin(graph: &LargeGraph, firsts: &[u32], reader: u32) -> u32
    requires numbered { IsBySession graph.now.entries }
    requires firsts { AreFirsts graph.now firsts.now }
    requires reader { reader < count graph.now }
    ensures { IsBegin graph.now reader result }
{
    // this call ensures that each transaction is of a session
    graph.sessions();
    match graph.at(reader) {
        Some((session, _place)) => firsts[session as usize],
        None => reader,
    }
}

/// Whether a writer is before a session, or in it, before the reader, and no later in the order than a position.
fn is_passed(positions: &[u32], begin: u32, reader: u32, position: u32, writer: u32) -> bool
    requires { reader ≤ length positions.now }
    ensures { result ≡ is_passed positions.now begin reader position writer }
{
    writer < begin || writer < reader && positions[writer as usize] <= position
}

/// The first of these writers in the reader's session, before it, that comes after a position.
fn first_in_session(
    positions: &[u32],
    writers: &[u32],
    begin: u32,
    reader: u32,
    position: u32,
) -> u32
    requires reader { reader ≤ length positions.now }
    requires writers { IsNonDecreasing writers.now }
    requires rise { DoRise positions.now begin reader }
    ensures { IsLeastOf (IsInSession positions.now writers.now begin reader position) result }
{
    let index = writers.partition_point(|writer| is_passed(
        positions, begin, reader, position, *writer,
    ));
    if index >= writers.len() {
        return NONE;
    }
    let writer = writers[index];
    if writer < reader { writer } else { NONE }
}

/// Whether a transaction is one of these, which ascend.
fn is_among(numbers: &[u32], number: u32) -> bool
    requires { IsNonDecreasing numbers.now }
    ensures { IsTrue result ↔ Contains numbers.now number }
{
    numbers.binary_search(&number).is_ok()
}

/// The least source of the reader that is one of these writers and comes after a position.
fn least_source(
    graph: &LargeGraph,
    positions: &[u32],
    writers: &[u32],
    position: u32,
    reader: u32,
) -> u32
    requires long { length positions.now ≡ count graph.now }
    requires writers { IsNonDecreasing writers.now }
    requires reader { reader < count graph.now }
    ensures { IsLeastOf (IsSource graph.now positions.now writers.now position reader) result }
{
    let mut least = NONE;
    for read in graph.reads_at(reader) {
        if position < positions[read.1 as usize] && is_among(writers, read.1) {
            least = read.1.min(least);
        }
    }
    least
}

/// The least writer of a key that comes after `a`, and from which a pair leads to `c`, whose session begins there.
fn least_writer(
    graph: &LargeGraph,
    positions: &[u32],
    key_index: u32,
    begin: u32,
    a: u32,
    c: u32,
) -> u32
    requires key { key_index < length (keys graph.now) }
    requires long { length positions.now ≡ count graph.now }
    requires onward { (u v : ℕ) → IsSessionPair graph.now u v → slice_index positions.now u < slice_index positions.now v }
    requires numbered { IsBySession graph.now.entries }
    requires begin { IsBegin graph.now c begin }
    requires a { a < count graph.now }
    requires c { c < count graph.now }
    ensures { IsLeastOf (IsSingle graph.now positions.now (writers graph.now (key_at graph.now key_index)) a c) result }
{
    let writers = graph.writers_at(key_index);
    let position = positions[a as usize];
    let source = least_source(graph, positions, writers, position, c);
    first_in_session(positions, writers, begin, c, position).min(source)
}

/// The least transaction that comes after `a`, and by one of its readings has to come before it.
fn least_single(graph: &LargeGraph, firsts: &[u32], positions: &[u32], a: u32) -> u32
    requires numbered { IsBySession graph.now.entries }
    requires firsts { AreFirsts graph.now firsts.now }
    requires long { length positions.now ≡ count graph.now }
    requires onward { (u v : ℕ) → IsSessionPair graph.now u v → slice_index positions.now u < slice_index positions.now v }
    requires a { a < count graph.now }
    ensures { IsLeastOf (IsSingleOf graph.now positions.now a) result }
{
    let (readers, key_indices) = graph.readings_at(a);
    let mut least = NONE;
    for (index, reader) in readers.iter().enumerate() {
        let begin = session_begin(graph, firsts, *reader);
        let writer = least_writer(graph, positions, key_indices[index], begin, a, *reader);
        least = writer.min(least);
    }
    least
}

/// The first pair of a transaction and one that it has to come before and doesn't, at `Atomic`.
pub(crate) fn first_single(
    alloc: Global,
    graph: &LargeGraph,
    order: &[u32],
    positions: &[u32],
) -> Result<Option<(u32, u32)>, NoMemory>
    requires ordered { IsOrdered graph.now order.now }
    requires kept { KeepsPairs graph.now order.now positions.now }
    ensures { IfOk result (IsFoundFirst (BreaksAxiom (atomically graph.now) order.now)) }
{
    let firsts = firsts_of(alloc, graph)?;
    let mut found = None;
    for a in 0..graph.count() {
        found = first_with(found, least_single(graph, &firsts, positions, a), a);
    }
    Ok(found)
}
