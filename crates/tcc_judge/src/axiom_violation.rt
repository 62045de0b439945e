//! The first transaction that comes after another and has to come before it, at `Causal`: by one pass back along the order for each block
//! of 64 sessions. A block none of whose transactions writes a key that is read from another one is passed over.
ghost use Rattle.std.specs.Prelude.{◌≡◌, ◌<◌, ◌+◌, length, slice_index, IfOk, OnOk};
ghost use Rattle.tcc_graph.specs.{Levels.causally, Tables.row_of};
ghost use Rattle.tcc_clocks.specs.Clocks.{LeadsOnward};
ghost use Rattle.tcc_judge.specs.{declared.least.TheConstants.NONE, Orders.BreaksAxiom, private.Decoding.IsOrdered, private.Least.IsFoundFirst, private.Least.IsLeastOf, private.Blocks.IsAt, private.Blocks.IsReady};
ghost use Rattle.tcc_judge.specs.private.Behind.{IsBehindOf, IsBrokenIn, IsWithin, earlier_of, first_with, is_earlier};

use crate::blocks::Block;
use crate::least::NONE;
use std::alloc::Global;
use tcc_base::Progress;
use tcc_clocks::WIDE;
use tcc_graph::LargeGraph;
use tcc_txn::NoMemory;

/// The least of the numbers of sessions that the clock has reached.
fn least_within(next: &[u32], clock: &[u32]) -> u32
    requires { length next.now ≡ length clock.now }
    ensures { IsLeastOf (IsWithin next.now clock.now (length next.now)) result }
{
    let mut least = NONE;
    for (session, number) in next.iter().enumerate() {
        // a minimum without a branch becomes vector code
        let candidate = if *number <= clock[session] {
            *number
        } else {
            NONE
        };
        least = candidate.min(least);
    }
    least
}

/// The least of the next writers of a key that a reader's clock has reached.
pub(crate) fn least_reaching(block: &Block, key_index: u32, reader: u32) -> u32
    requires key { key_index < length block.now.next }
    requires reader { reader < length block.now.clocks }
    requires wide { length (row_of block.now.next key_index) ≡ length (row_of block.now.clocks reader) }
    ensures { IsLeastOf (IsWithin (row_of block.now.next key_index) (row_of block.now.clocks reader) (length (row_of block.now.next key_index))) result }
{
    if block.next.is_nobodys(key_index) {
        return NONE;
    }
    least_within(block.next.get(key_index), block.clocks.get(reader))
}

/// The least transaction of the block that comes after the one at a place of the order, and by one of its readings has to come before it.
fn least_behind(graph: &LargeGraph, block: &Block, order: &[u32], place: usize) -> u32
    requires inside { place < length order.now }
    requires at { IsAt graph.now order.now (place + 1) block.now }
    ensures { IsLeastOf (IsBehindOf graph.now order.now block.now.from (place + 1) (slice_index order.now place)) result }
{
    let (readers, key_indices) = graph.readings_at(order[place]);
    let mut least = NONE;
    for (index, reader) in readers.iter().enumerate() {
        let reaching = least_reaching(block, key_indices[index], *reader);
        least = reaching.min(least);
    }
    least
}

/// Whether a pair is before another.
fn is_earlier(p: (u32, u32), q: (u32, u32)) -> bool
    ensures { result ≡ is_earlier p q }
{
    p.0 < q.0 || p.0 == q.0 && p.1 < q.1
}

/// The first of what was found and another pair.
fn earlier_of(found: Option<(u32, u32)>, at: (u32, u32)) -> (u32, u32)
    ensures { result ≡ earlier_of found at }
{
    match found {
        Some(found) => { if is_earlier(found, at) { found } else { at } }
        None => at,
    }
}

/// The first of what was found and the pair of `b` and `a`, if `b` is a transaction.
pub(crate) fn first_with(found: Option<(u32, u32)>, b: u32, a: u32) -> Option<(u32, u32)>
    ensures { result ≡ first_with found b a }
{
    if b == NONE {
        found
    } else {
        Some(earlier_of(found, (b, a)))
    }
}

/// The first pair of a transaction of the block and one that it has to come before and doesn't.
fn first_of_block(
    graph: &LargeGraph,
    block: &mut Block,
    order: &[u32],
) -> Result<Option<(u32, u32)>, NoMemory>
    requires { IsAt graph.now order.now (length order.now) block.old }
    ensures ready { OnOk result (IsReady graph.now order.now block.new) }
    ensures found { IfOk result (IsFoundFirst (IsBrokenIn graph.now order.now block.old.from)) }
{
    let mut found = None;
    for place in (0..order.len()).rev() {
        let b = least_behind(graph, block, order, place);
        found = first_with(found, b, order[place]);
        block.go_back(graph, order, place)?;
    }
    Ok(found)
}

/// The first pair of a transaction and one that it has to come before and doesn't, at `Causal`. Before each block `progress` is given the
/// number of blocks done.
pub(crate) fn first_behind<P: Progress>(
    alloc: Global,
    graph: &LargeGraph,
    order: &[u32],
    progress: &P,
) -> Result<Option<(u32, u32)>, NoMemory>
    requires ordered { IsOrdered graph.now order.now }
    requires onward { LeadsOnward graph.now order.now }
    ensures { IfOk result (IsFoundFirst (BreaksAxiom (causally graph.now) order.now)) }
{
    let mut block = Block::new(alloc, graph, order)?;
    let needed = block.needed(alloc, graph)?;
    let blocks = graph.sessions().len().div_ceil(WIDE);
    for number in 0..blocks {
        progress.done(number, blocks);
        if !needed[number] {
            continue;
        }
        block.begin(graph, order, number)?;
        if let Some(at) = first_of_block(graph, &mut block, order)? {
            return Ok(Some(at));
        }
    }
    Ok(None)
}
