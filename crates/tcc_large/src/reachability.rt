//! What a transaction reaches by pairs, as a breadth-first tree: each that was met has the position of the one that led there, by which the
//! walk to it is read off. Of each session only those are looked at that weren't met by a session pair before. So it takes O(N + R) for the
//! N transactions and R reads that it comes to.
ghost use Rattle.std.specs.Prelude.{◌≡◌, ◌<◌, ◌≤◌, ℕ, length, All, IfOk, MatchOption, OnOk, slice_index};
ghost use Rattle.tcc_reads.specs.History.{count};
ghost use Rattle.tcc_graph.specs.{Relations.IsCausalPair, Relations.IsSessionPair, Walks.IsWalk};
ghost use Rattle.tcc_large.specs.private.Reaching.{IsReach, IsMore, AreCovered, AreMet, AreMetBetween, AreSpread, number_at};

use crate::cells::Cells;
use std::alloc::{AllocError, Global};
use tcc_graph::{LargeGraph, Step, Walk};
use tcc_txn::NoMemory;

/// What was reached from a transaction.
#[derive(Drop)]
pub(crate) struct Reach {
    /// For each transaction its position in the queue; 0 where it wasn't reached.
    positions: Cells,
    /// For each number at which a session ends, the first from which on all before it were met; 0 where none was.
    covered: Cells,
    /// Where the search began, and then each transaction that was reached, with the position of the one that led there.
    queue: Vec<(u32, u32)>,
}

impl Reach {
    /// Before the search from a transaction.
    pub(crate) fn new(alloc: Global, graph: &LargeGraph, start: u32) -> Result<Reach, NoMemory>
        requires { start < count graph.now }
        ensures reach { IfOk result (λ reach. IsReach graph.now reach.positions reach.covered reach.queue.items) }
        ensures start { IfOk result (λ reach. number_at reach.queue.items 0 ≡ start) }
    {
        let count = graph.count() as usize;
        let positions = Cells::new(alloc, count, 0)?;
        let covered = Cells::new(alloc, count + 1, 0)?;
        let mut queue = Vec::new(alloc);
        queue.push((start, 0))?;
        Ok(Reach {
            positions,
            covered,
            queue,
        })
    }

    /// The transaction at a position of the queue, if it is that long.
    pub(crate) fn number(&self, position: u32) -> Option<u32>
        ensures { MatchOption result (length self.now.queue.items ≤ position)
            (λ number. (position < length self.now.queue.items) × (number ≡ number_at self.now.queue.items position)) }
    {
        match self.queue.get(position as usize) {
            Some(entry) => Some(entry.0),
            None => None,
        }
    }

    /// Takes in a transaction that wasn't reached before, if a pair leads to it from the one at a position.
    fn meet(&mut self, graph: &LargeGraph, position: u32, number: u32) -> Result<(), AllocError>
        requires position { position < length self.old.queue.items }
        requires number { number < count graph.now }
        requires reach { IsReach graph.now self.old.positions self.old.covered self.old.queue.items }
        ensures reach { OnOk result (IsReach graph.now self.new.positions self.new.covered self.new.queue.items) }
        ensures more { OnOk result (IsMore self.old.positions self.old.queue.items self.new.positions self.new.queue.items) }
        ensures met { OnOk result (IsCausalPair graph.now (number_at self.old.queue.items position) number → 0 < slice_index self.new.positions number) }
    {
        if self.positions.get(number) > 0 {
            return Ok(());
        }
        let from = self.queue[position as usize].0;
        if !graph.causal(from, number) {
            return Ok(());
        }
        self.positions.set(number, self.queue.len() as u32);
        self.queue.push((number, position))?;
        Ok(())
    }

    /// Takes in those of these transactions to which a pair leads from the one at a position.
    fn meet_each(
        &mut self,
        graph: &LargeGraph,
        position: u32,
        numbers: &[u32],
    ) -> Result<(), AllocError>
        requires position { position < length self.old.queue.items }
        requires numbers { All (λ v. v < count graph.now) numbers.now }
        requires reach { IsReach graph.now self.old.positions self.old.covered self.old.queue.items }
        ensures reach { OnOk result (IsReach graph.now self.new.positions self.new.covered self.new.queue.items) }
        ensures more { OnOk result (IsMore self.old.positions self.old.queue.items self.new.positions self.new.queue.items) }
        ensures met { OnOk result (AreMet graph.now self.new.positions (number_at self.old.queue.items position) numbers.now (length numbers.now)) }
    {
        for number in numbers {
            self.meet(graph, position, *number)?;
        }
        Ok(())
    }

    /// Meets the transactions from `low` to below `high`.
    fn meet_between(
        &mut self,
        graph: &LargeGraph,
        position: u32,
        low: u32,
        high: u32,
    ) -> Result<(), AllocError>
        requires position { position < length self.old.queue.items }
        requires order { low ≤ high }
        requires high { high ≤ count graph.now }
        requires reach { IsReach graph.now self.old.positions self.old.covered self.old.queue.items }
        ensures reach { OnOk result (IsReach graph.now self.new.positions self.new.covered self.new.queue.items) }
        ensures more { OnOk result (IsMore self.old.positions self.old.queue.items self.new.positions self.new.queue.items) }
        ensures met { OnOk result (AreMetBetween graph.now self.new.positions (number_at self.old.queue.items position) low high) }
    {
        for number in low..high {
            self.meet(graph, position, number)?;
        }
        Ok(())
    }

    /// Notes that all from `low` on were met, up to where their session ends.
    fn cover(&mut self, low: u32, end: u32)
        ensures positions { self.new.positions ≡ self.old.positions }
        ensures queue { self.new.queue.items ≡ self.old.queue.items }
        ensures covered { AreCovered self.old.positions self.old.covered
            → ((v : ℕ) → low ≤ v → v < end → 0 < slice_index self.old.positions v) → AreCovered self.old.positions self.new.covered }
    {
        self.covered.set(end, low);
    }

    /// A number, from `low` to where the session ends, from which on all were met.
    fn uncovered(&self, low: u32, end: u32) -> u32
        requires order { low ≤ end }
        requires covered { AreCovered self.now.positions self.now.covered }
        ensures low { low ≤ result }
        ensures end { result ≤ end }
        ensures met { (v : ℕ) → result ≤ v → v < end → 0 < slice_index self.now.positions v }
    {
        let covered = self.covered.get(end);
        if covered > 0 && covered < end {
            covered.max(low)
        } else {
            end
        }
    }

    /// Takes in the later ones of a session, from the transaction at a position on.
    fn spread_session(&mut self, graph: &LargeGraph, position: u32) -> Result<(), AllocError>
        requires position { position < length self.old.queue.items }
        requires reach { IsReach graph.now self.old.positions self.old.covered self.old.queue.items }
        ensures reach { OnOk result (IsReach graph.now self.new.positions self.new.covered self.new.queue.items) }
        ensures more { OnOk result (IsMore self.old.positions self.old.queue.items self.new.positions self.new.queue.items) }
        ensures met { OnOk result ((v : ℕ) → IsSessionPair graph.now (number_at self.old.queue.items position) v → 0 < slice_index self.new.positions v) }
    {
        let (low, high) = graph.later(self.queue[position as usize].0);
        let end = self.uncovered(low, high);
        self.meet_between(graph, position, low, end)?;
        self.cover(low, high);
        Ok(())
    }

    /// Takes in all to which a pair leads from the transaction at a position: the later ones of its session, and its readers.
    pub(crate) fn spread(&mut self, graph: &LargeGraph, position: u32) -> Result<(), AllocError>
        requires position { position < length self.old.queue.items }
        requires reach { IsReach graph.now self.old.positions self.old.covered self.old.queue.items }
        ensures reach { OnOk result (IsReach graph.now self.new.positions self.new.covered self.new.queue.items) }
        ensures more { OnOk result (IsMore self.old.positions self.old.queue.items self.new.positions self.new.queue.items) }
        ensures met { OnOk result ((v : ℕ) → IsCausalPair graph.now (number_at self.old.queue.items position) v → 0 < slice_index self.new.positions v) }
    {
        let from = self.queue[position as usize].0;
        self.spread_session(graph, position)?;
        let (readers, _key_indices) = graph.readings_at(from);
        self.meet_each(graph, position, readers)?;
        Ok(())
    }

    /// The walk from where the search began to the transaction at a later position.
    pub(crate) fn walk(
        &self,
        alloc: Global,
        graph: &LargeGraph,
        position: usize,
    ) -> Result<Walk, AllocError>
        requires reach { IsReach graph.now self.now.positions self.now.covered self.now.queue.items }
        requires some { 0 < position }
        requires inside { position < length self.now.queue.items }
        ensures { IfOk result (IsWalk graph.now (number_at self.now.queue.items 0) (number_at self.now.queue.items position)) }
    {
        let mut steps = Vec::new(alloc);
        let mut at = position;
        while at > 0 {
            let (number, before) = self.queue[at];
            let from = self.queue[before as usize].0;
            steps.push(graph.step(from, number))?;
            at = before as usize;
        }
        steps.reverse();
        Ok(Walk::new(steps))
    }
}
