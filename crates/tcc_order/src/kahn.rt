//! Kahn's algorithm (Kahn, Topological sorting of large networks, CACM 5, 1962), with the free transactions in a heap. It
//! gives the first order in which each transaction comes after all that holds it back. Each that was not placed is free, is to
//! be examined, or waits for one that holds it back. A waiting one is examined again once that one was placed. It then goes on
//! after it, so that each pair and link is examined twice at most. With N transactions and E pairs and links that takes O(E +
//! N log N).
ghost use Rattle.std.specs.Prelude.{◌≡◌, ◌<◌, ◌≤◌, ◌+◌, ◌⊎◌, ◌∷◌, ◌++◌, [], ℕ, true, false, length, slice_index, slice_index_or, Contains, IfOk, IfNone, IfSome, OnOk, MatchOption};
ghost use Rattle.tcc_txn.specs.declared.limits.TheConstants.{LARGE_COUNT};
ghost use Rattle.tcc_reads.specs.History.{count};
ghost use Rattle.tcc_graph.specs.Tables.{row_of};
ghost use Rattle.tcc_bits.specs.Bits.{is_marked, words_for};
ghost use Rattle.tcc_order.specs.private.{CausalLinks.HasNone, Placed.IsPlaced};
ghost use Rattle.tcc_order.specs.private.Held.{holds, AreInside, AreRoots, onward};
ghost use Rattle.tcc_order.specs.private.Precedences.{IsKnown, precedes};
ghost use Rattle.tcc_order.specs.private.Queued.{AreQueued, AreSure, IsAny};
ghost use Rattle.tcc_clocks.specs.Parents.{ArePrevious, sources};

use crate::chains::Chains;
use crate::ready::Ready;
use std::alloc::{AllocError, Global};
use tcc_bits::{is_marked, mark, words_for};
use tcc_graph::LargeGraph;
use tcc_reads::FlatRows;
use tcc_txn::NoMemory;

/// The order of all transactions; or, if none can be placed next, marks of those that were placed.
#[derive(Drop)]
pub(crate) enum Placed {
    Order(Vec<u32>),
    Stuck(Vec<u64>),
}

/// Transactions that are to be examined, those that are free, and those that wait for one that holds them back. `seen` says
/// for each after how many of its sources and kept links its examination goes on.
#[derive(Drop)]
struct ReadyQueue {
    woken: Vec<u32>,
    ready: Ready,
    waiting: Chains<u32>,
    seen: Vec<u32>,
}

/// The index, from this one on, of a transaction that is read from and was not placed.
fn missing_source(reads: &[(u32, u32)], placed: &[u64], from: usize) -> Option<usize>
    ensures { MatchOption result
        ((k : ℕ) → from ≤ k → k < length reads.now → is_marked placed.now (slice_index_or reads.now k (0, 0)).1 ≡ true)
        (λ k. (k < length reads.now) × (is_marked placed.now (slice_index_or reads.now k (0, 0)).1 ≡ false)) }
{
    for index in from..reads.len() {
        if !is_marked(placed, reads[index].1 as usize) {
            return Some(index);
        }
    }
    None
}

/// The index, from this one on, of a number that was not placed.
fn missing_of(numbers: &[u32], placed: &[u64], from: usize) -> Option<usize>
    ensures { MatchOption result
        ((k : ℕ) → from ≤ k → k < length numbers.now → is_marked placed.now (slice_index numbers.now k) ≡ true)
        (λ k. (k < length numbers.now) × (is_marked placed.now (slice_index numbers.now k) ≡ false)) }
{
    for index in from..numbers.len() {
        if !is_marked(placed, numbers[index] as usize) {
            return Some(index);
        }
    }
    None
}

/// The parent of a transaction, if it was not placed.
fn missing_parent(parents: &[u32], placed: &[u64], x: u32) -> Option<u32>
    requires { x < length parents.now }
    ensures { MatchOption result
        (0 < x → is_marked placed.now (slice_index parents.now x) ≡ true)
        (λ b. (0 < x) × (b ≡ slice_index parents.now x) × (is_marked placed.now b ≡ false)) }
{
    let parent = parents[x as usize];
    if x > 0 && !is_marked(placed, parent as usize) {
        Some(parent)
    } else {
        None
    }
}

/// What each transaction has to come after: its parent, its sources, and the links that are kept into it.
#[derive(Clone, Copy)]
struct Precedence<'a> {
    graph: &'a LargeGraph,
    /// For each transaction the one before it in its session.
    parents: &'a [u32],
    /// For each transaction the sources of the links that are kept into it.
    kept: &'a FlatRows<u32>,
}

impl Precedence<'_> {
    /// One of the sources of a transaction and of the links kept into it that was not placed, after the first `seen` of them,
    /// and how many come before it.
    fn missing_behind(&self, placed: &[u64], x: u32, seen: usize) -> Option<(u32, usize)>
        requires known { IsKnown self.now }
        requires below { x < count self.now.graph.now }
        ensures { MatchOption result
            (seen ≡ 0 → (b : ℕ) → Contains (sources self.now.graph.now x ++ row_of self.now.kept.now x) b → is_marked placed.now b ≡ true)
            (λ found. (precedes self.now found.0 x ≡ true) × (is_marked placed.now found.0 ≡ false)) }
    {
        let reads = self.graph.reads_at(x);
        if let Some(index) = missing_source(reads, placed, seen) {
            return Some((reads[index].1, index));
        }
        let row = self.kept.row(x as usize);
        let index = missing_of(row, placed, seen.saturating_sub(reads.len()))?;
        Some((row[index], reads.len().saturating_add(index)))
    }

    /// One that holds a transaction back and was not placed, and how far the search for it went. It tries the parent, then the
    /// sources and links after the first `seen` of them, and then all of these.
    fn missing(&self, placed: &[u64], x: u32, seen: usize) -> Option<(u32, usize)>
        requires known { IsKnown self.now }
        requires below { x < count self.now.graph.now }
        ensures { MatchOption result
            ((b : ℕ) → precedes self.now b x ≡ true → is_marked placed.now b ≡ true)
            (λ found. (precedes self.now found.0 x ≡ true) × (is_marked placed.now found.0 ≡ false)) }
    {
        if let Some(parent) = missing_parent(self.parents, placed, x) {
            return Some((parent, seen));
        }
        if seen > 0 {
            if let Some(found) = self.missing_behind(placed, x, seen) {
                return Some(found);
            }
        }
        self.missing_behind(placed, x, 0)
    }

    /// Examines each of those that were woken: it is free, or waits from now on for one that holds it back.
    fn look_at_woken(&self, placed: &[u64], queue: &mut ReadyQueue) -> Result<(), NoMemory>
        requires known { IsKnown self.now }
        requires seen { length queue.old.seen.items ≡ count self.now.graph.now }
        requires queued { AreQueued (precedes self.now) self.now.parents.now placed.now IsAny (queue.old.woken.items ++ queue.old.ready) queue.old.waiting }
        requires sure { AreSure (precedes self.now) placed.now queue.old.ready }
        ensures seen { length queue.new.seen.items ≡ count self.now.graph.now }
        ensures none { OnOk result (queue.new.woken.items ≡ []) }
        ensures queued { OnOk result (AreQueued (precedes self.now) self.now.parents.now placed.now IsAny queue.new.ready queue.new.waiting) }
        ensures sure { OnOk result (AreSure (precedes self.now) placed.now queue.new.ready) }
    {
        while let Some(number) = queue.woken.pop() {
            let seen = queue.seen[number as usize] as usize;
            match self.missing(placed, number, seen) {
                Some((other, place)) => {
                    // a place that has no room begins anew
                    queue.seen[number as usize] = u32::try_from(place).unwrap_or(0);
                    queue.waiting.push(other, number)?;
                }
                None => queue.ready.push(number)?,
            }
        }
        Ok(())
    }
}

/// Takes out the least of the numbers that are ready and were not placed.
fn first_ready(placed: &[u64], ready: &mut Ready) -> Option<u32>
    ensures none { IfNone result ((y : ℕ) → Contains ready.old y → is_marked placed.now y ≡ true) }
    ensures one { IfSome result (λ x. Contains ready.old x × (is_marked placed.now x ≡ false)) }
    ensures least { IfSome result (λ x. (y : ℕ) → Contains ready.old y → y < x → is_marked placed.now y ≡ true) }
    ensures rest { IfSome result (λ x. (y : ℕ) → Contains ready.old y → is_marked placed.now y ≡ false → (y ≡ x) ⊎ Contains ready.new y) }
    ensures still { IfSome result (λ x. (y : ℕ) → Contains ready.new y → Contains ready.old y) }
{
    while let Some(number) = ready.pop() {
        if !is_marked(placed, number as usize) {
            return Some(number);
        }
    }
    None
}

/// The number after this one, if this is its parent, or else this one.
fn onward(parents: &[u32], x: u32) -> u32
    requires few { length parents.now ≤ LARGE_COUNT }
    requires inside { x < length parents.now }
    ensures { result ≡ onward parents.now x }
{
    let next = x + 1;
    if x > 0 && (next as usize) < parents.len() && parents[next as usize] == x {
        next
    } else {
        x
    }
}

/// The numbers whose parent is 0.
fn roots(alloc: Global, parents: &[u32]) -> Result<Vec<u32>, AllocError>
    requires { length parents.now ≤ LARGE_COUNT }
    ensures { IfOk result (λ roots. AreRoots parents.now (length parents.now) roots.items) }
{
    let mut roots = Vec::new(alloc);
    for (number, parent) in parents.iter().enumerate() {
        if *parent == 0 {
            roots.push(number as u32)?;
        }
    }
    Ok(roots)
}

/// Wakes what waits for a transaction, and the one after it.
fn wake(
    woken: &mut Vec<u32>,
    waiting: &Chains<u32>,
    parents: &[u32],
    x: u32,
) -> Result<(), AllocError>
    requires few { length parents.now ≤ LARGE_COUNT }
    requires inside { x < length parents.now }
    requires long { length waiting.now ≡ length parents.now }
    ensures { OnOk result (woken.new.items ≡ (woken.old.items ++ row_of waiting.now x) ++ onward parents.now x ∷ []) }
{
    waiting.append_to(woken, x)?;
    woken.push(onward(parents, x))?;
    Ok(())
}

/// The queue before any transaction was placed.
fn first_queue(alloc: Global, parents: &[u32], count: u32) -> Result<ReadyQueue, NoMemory>
    requires { length parents.now ≤ LARGE_COUNT }
    ensures woken { IfOk result (λ queue. AreRoots parents.now (length parents.now) queue.woken.items) }
    ensures ready { IfOk result (λ queue. (x : ℕ) → Contains queue.ready x → ⊥) }
    ensures long { IfOk result (λ queue. length queue.waiting ≡ count) }
    ensures waiting { IfOk result (λ queue. HasNone queue.waiting) }
    ensures seen { IfOk result (λ queue. length queue.seen.items ≡ count) }
{
    let woken = roots(alloc, parents)?;
    let waiting = Chains::new(alloc, count)?;
    let seen = vec![in alloc; 0; count as usize]?;
    Ok(ReadyQueue {
        woken,
        ready: Ready::new(alloc),
        waiting,
        seen,
    })
}

/// The first order of the transactions in which each comes after its parents and after the sources of kept links. If these
/// make a cycle, it returns which were placed until none could be placed next.
pub(crate) fn first_placing(
    alloc: Global,
    graph: &LargeGraph,
    parents: &[u32],
    kept: &FlatRows<u32>,
) -> Result<Placed, NoMemory>
    requires parents { ArePrevious graph.now parents.now }
    requires long { length kept.now ≡ count graph.now }
    requires inside { AreInside graph.now kept.now }
    ensures { IfOk result (IsPlaced (holds graph.now kept.now) (count graph.now)) }
{
    let count = graph.count();
    let mut placed = vec![in alloc; 0; words_for(count as usize)]?;
    let mut queue = first_queue(alloc, parents, count)?;
    let mut order = Vec::new(alloc);
    let precedence = Precedence {
        graph,
        parents,
        kept,
    };
    for _ in 0..count {
        precedence.look_at_woken(&placed, &mut queue)?;
        let Some(next) = first_ready(&placed, &mut queue.ready) else {
            return Ok(Placed::Stuck(placed));
        };
        mark(&mut placed, next as usize);
        wake(&mut queue.woken, &queue.waiting, parents, next)?;
        order.push(next)?;
    }
    Ok(Placed::Order(order))
}
