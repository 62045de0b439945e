//! A cycle where Kahn's algorithm stops, found by going back from predecessor to predecessor: each transaction that is left is held back by
//! one that is left, until one comes again. This takes at most as many turns as there are transactions, and a breadth-first search for each
//! derived link of the cycle. That is O(D (N + R)) for D derived links, N transactions and R reads.
ghost use Rattle.std.specs.Prelude.{◌≡◌, ◌<◌, ◌≤◌, ◌⊎◌, ℕ, true, false, length, slice_index, All, Contains, IfOk, MatchOption};
ghost use Rattle.tcc_reads.specs.History.{count};
ghost use Rattle.tcc_graph.specs.{Levels.judged, Relations.IsSessionPair, Routes.AreCycle};
ghost use Rattle.tcc_bits.specs.Bits.{is_marked};
ghost use Rattle.tcc_order.specs.Placements.{IsLeft};
ghost use Rattle.tcc_large.specs.private.Retracing.{IsHeldBack, GoesRound, IsStuckAt, judged_at};

use crate::cells::Cells;
use crate::reasons::link_between;
use std::alloc::Global;
use tcc_bits::is_marked;
use tcc_clocks::parents_of;
use tcc_graph::{LargeGraph, Level, Link};
use tcc_order::Stuck;
use tcc_txn::NoMemory;

/// A history at a level, and where an order of it stops.
#[derive(Drop)]
pub(crate) struct StuckOrder<'a> {
    pub graph: &'a LargeGraph,
    pub level: Level,
    pub stuck: &'a Stuck,
}

/// The first of these numbers that is not marked.
fn first_left(numbers: &[u32], placed: &[u64]) -> Option<u32>
    ensures { MatchOption result
        (All (λ b. is_marked placed.now b ≡ true) numbers.now)
        (λ b. Contains numbers.now b × (is_marked placed.now b ≡ false)) }
{
    for number in numbers {
        if !is_marked(placed, *number as usize) {
            return Some(*number);
        }
    }
    None
}

/// The first of a session from which on all up to this one are left.
fn earliest_left(graph: &LargeGraph, placed: &[u64], number: u32) -> u32
    requires below { number < count graph.now }
    requires left { is_marked placed.now number ≡ false }
    ensures below { result ≤ number }
    ensures left { is_marked placed.now result ≡ false }
    ensures pair { (result ≡ number) ⊎ IsSessionPair graph.now result number }
{
    for more in 0..number {
        let before = number - more - 1;
        if is_marked(placed, before as usize) || !graph.session(before, number) {
            return before + 1;
        }
    }
    0
}

/// The links along such transactions.
fn links_round(
    alloc: Global,
    graph: &LargeGraph,
    level: Level,
    numbers: &[u32],
) -> Result<Vec<Link>, NoMemory>
    requires { GoesRound (judged graph.now level) numbers.now }
    ensures { IfOk result (λ links. AreCycle (judged graph.now level) links.items) }
{
    let mut links = Vec::new(alloc);
    for index in 0..numbers.len() - 1 {
        let (from, to) = (numbers[index + 1], numbers[index]);
        links.push(link_between(alloc, graph, level, from, to)?)?;
    }
    links.reverse();
    Ok(links)
}

impl StuckOrder<'_> {
    /// The first transaction that is left.
    fn first_of_all(&self) -> u32
        requires { IsStuckAt self.now }
        ensures { IsLeft (judged_at self.now) self.now.stuck.now.placed.items result }
    {
        for number in 0..self.graph.count() {
            if !is_marked(&self.stuck.placed, number as usize) {
                return number;
            }
        }
        unreachable!()
    }

    /// A transaction that is left and holds this one back: by a pair if one does, and in its session the first such one.
    fn one_before(&self, alloc: Global, number: u32) -> Result<u32, NoMemory>
        requires stuck { IsStuckAt self.now }
        requires left { IsLeft (judged_at self.now) self.now.stuck.now.placed.items number }
        ensures left { IfOk result (IsLeft (judged_at self.now) self.now.stuck.now.placed.items) }
        ensures held { IfOk result (λ before. IsHeldBack (judged_at self.now) before number) }
    {
        self.graph.numbered();
        let first = earliest_left(self.graph, &self.stuck.placed, number);
        if first != number {
            return Ok(first);
        }
        let parents = parents_of(alloc, self.graph, number)?;
        if let Some(parent) = first_left(&parents, &self.stuck.placed) {
            return Ok(parent);
        }
        let kept = self.stuck.kept.row(number as usize);
        let Some(before) = first_left(kept, &self.stuck.placed) else {
            unreachable!()
        };
        Ok(before)
    }

    /// Transactions each of which is held back by the next one, from one until it comes again.
    fn round(&self, alloc: Global) -> Result<Vec<u32>, NoMemory>
        requires { IsStuckAt self.now }
        ensures { IfOk result (λ numbers. GoesRound (judged_at self.now) numbers.items) }
    {
        let mut positions = Cells::new(alloc, self.graph.count() as usize, 0)?;
        let mut trail = Vec::new(alloc);
        let mut at = self.first_of_all();
        trail.push(at)?;
        for position in 0..self.graph.count() + 1 {
            let before = positions.get(at);
            if before > 0 {
                return Ok(trail.split_off(before as usize - 1)?);
            }
            positions.set(at, position + 1);
            at = self.one_before(alloc, at)?;
            trail.push(at)?;
        }
        unreachable!()
    }

    /// The links of a cycle.
    pub(crate) fn cycle(&self, alloc: Global) -> Result<Vec<Link>, NoMemory>
        requires { IsStuckAt self.now }
        ensures { IfOk result (λ links. AreCycle (judged_at self.now) links.items) }
    {
        let numbers = self.round(alloc)?;
        links_round(alloc, self.graph, self.level, &numbers)
    }
}
