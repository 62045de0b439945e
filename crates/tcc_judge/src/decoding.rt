//! Run-length decoding: the order that runs encode, run by run. For N transactions, S sessions and R runs this takes N + S + R steps.
ghost use Rattle.std.specs.Prelude.{◌≡◌, ◌<◌, ◌≤◌, ◌+◌, ◌-◌, ◌++◌, ◌↔◌, [], List, length, slice_index, IfOk, IfSome, IsTrue, MatchOption, OnOk};
ghost use Rattle.std.specs.List.{range_with_len};
ghost use Rattle.tcc_reads.specs.History.{History, IsBySession, count};
ghost use Rattle.tcc_cert.specs.declared.large.Run.{Run};
ghost use Rattle.tcc_judge.specs.Runs.{AreWhole, first_of, order_of};
ghost use Rattle.tcc_judge.specs.private.Decoding.{AreFirsts, IsOrdered, IsTold, IsToldOn};

use std::alloc::Global;
use tcc_cert::Run;
use tcc_graph::LargeGraph;
use tcc_txn::NoMemory;

/// An order as far as its runs were read.
#[derive(Drop)]
pub(crate) struct Decoder {
    /// Where the transactions of each session begin, and after the last session the number of all transactions.
    pub(crate) firsts: Vec<u32>,
    /// The next transaction of each session.
    pub(crate) next: Vec<u32>,
    /// The order so far.
    pub(crate) order: Vec<u32>,
}

/// Where the session after this one begins, if this one begins at `n`.
fn end_of(graph: &LargeGraph, session: u32, n: u32) -> u32
    requires numbered { IsBySession graph.now.entries }
    requires some { 0 < n }
    requires within { n ≤ count graph.now }
    requires first { n ≡ first_of graph.now session }
    ensures first { result ≡ first_of graph.now (session + 1) }
    ensures some { 0 < result }
    ensures within { result ≤ count graph.now }
{
    if let Some((owner, _place)) = graph.at(n) {
        if owner == session {
            return graph.later(n).1;
        }
    }
    n
}

/// Where the transactions of each session begin.
pub(crate) fn firsts_of(alloc: Global, graph: &LargeGraph) -> Result<Vec<u32>, NoMemory>
    requires { IsBySession graph.now.entries }
    ensures { IfOk result (λ firsts. AreFirsts graph.now firsts.items) }
{
    // this call ensures that there is `init`
    graph.count();
    let mut firsts = Vec::new(alloc);
    let mut first = 1;
    for (session, _name) in graph.sessions().iter().enumerate() {
        firsts.push(first)?;
        first = end_of(graph, session as u32, first);
    }
    firsts.push(first)?;
    Ok(firsts)
}

/// A decoder that has read no run yet.
pub(crate) fn begin(alloc: Global, graph: &LargeGraph) -> Result<Decoder, NoMemory>
    requires { IsBySession graph.now.entries }
    ensures { IfOk result (λ decoder. IsTold graph.now [] decoder.firsts.items decoder.next.items decoder.order.items) }
{
    let firsts = firsts_of(alloc, graph)?;
    let mut next = Vec::new(alloc);
    next.extend_from_slice(&firsts)?;
    next.truncate(graph.sessions().len());
    let mut order = Vec::with_capacity(alloc, graph.count() as usize)?;
    order.push(0)?;
    Ok(Decoder {
        firsts,
        next,
        order,
    })
}

/// The number after the transactions of a run; none where the session has fewer transactions left.
fn end_of_run(decoder: &Decoder, run: Run) -> Option<u32>
    requires { length decoder.now.firsts.items ≡ length decoder.now.next.items + 1 }
    ensures { MatchOption result
        (run.session < length decoder.now.next.items
        → slice_index decoder.now.next.items run.session + run.count ≤ slice_index decoder.now.firsts.items (run.session + 1) → ⊥)
        (λ end. (run.session < length decoder.now.next.items) × (end ≡ slice_index decoder.now.next.items run.session + run.count)
        × (end ≤ slice_index decoder.now.firsts.items (run.session + 1))) }
{
    let session = run.session as usize;
    if session >= decoder.next.len() {
        return None;
    }
    let last = decoder.firsts[session + 1];
    let next = decoder.next[session];
    if next > last || run.count > last - next {
        return None;
    }
    Some(next + run.count)
}

/// Adds the numbers from one to before another.
pub(crate) fn push_all(numbers: &mut Vec<u32>, from: u32, end: u32) -> Result<(), NoMemory>
    requires { from ≤ end }
    ensures { OnOk result (numbers.new.items ≡ numbers.old.items ++ range_with_len from (end - from)) }
{
    for number in from..end {
        numbers.push(number)?;
    }
    Ok(())
}

/// Reads one more run; false where the session has fewer transactions left.
pub(crate) fn tell(decoder: &mut Decoder, run: Run) -> Result<bool, NoMemory>
    requires { length decoder.old.firsts.items ≡ length decoder.old.next.items + 1 }
    ensures { (h : History) (runs : List Run) → IsTold h runs decoder.old.firsts.items decoder.old.next.items decoder.old.order.items
        → IfOk result (IsToldOn h runs run decoder.new.firsts.items decoder.new.next.items decoder.new.order.items) }
{
    let Some(end) = end_of_run(decoder, run) else {
        return Ok(false);
    };
    let session = run.session as usize;
    push_all(&mut decoder.order, decoder.next[session], end)?;
    decoder.next[session] = end;
    Ok(true)
}

/// Whether the runs of each session reached its end.
pub(crate) fn is_whole(decoder: &Decoder) -> bool
    requires { length decoder.now.firsts.items ≡ length decoder.now.next.items + 1 }
    ensures { (h : History) (runs : List Run) → IsTold h runs decoder.now.firsts.items decoder.now.next.items decoder.now.order.items
        → IsTrue result ↔ AreWhole h runs }
{
    for (session, next) in decoder.next.iter().enumerate() {
        if decoder.firsts[session + 1] != *next {
            return false;
        }
    }
    true
}

/// The order that runs encode; none where they do not match the sizes of the sessions.
pub(crate) fn decode_runs(
    alloc: Global,
    graph: &LargeGraph,
    runs: &[Run],
) -> Result<Option<Vec<u32>>, NoMemory>
    ensures whole { IfOk result (λ found. MatchOption found
        (AreWhole graph.now runs.now → ⊥)
        (λ order. AreWhole graph.now runs.now × (order.items ≡ order_of graph.now runs.now))) }
    ensures ordered { IfOk result (λ found. IfSome found (λ order. IsOrdered graph.now order.items)) }
{
    // these calls ensure that each transaction is of a session, and that there is `init`
    graph.sessions();
    graph.count();
    let mut decoder = begin(alloc, graph)?;
    for run in runs {
        if !tell(&mut decoder, *run)? {
            return Ok(None);
        }
    }
    if !is_whole(&decoder) {
        return Ok(None);
    }
    Ok(Some(decoder.order))
}
