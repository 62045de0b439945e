//! Breadth-first search (Moore, The shortest path through a maze, 1959) backwards, level by level: what was met, and where each leads on
//! to. Each transaction is taken in once, and of a session only those that weren't taken in before (`session_prefixes`). So a search takes
//! O(N + R + E) for the N transactions, R reads and E links that it comes to, and nothing for those that it doesn't.
use crate::cells::Cells;
use crate::finder::pairs::PairSpans;
use crate::finder::session_prefixes::SessionPrefixes;
use std::alloc::{AllocError, Global};
use tcc_txn::NoMemory;

/// What a search backwards has met, and where each transaction leads on to. It serves many searches, each with a turn of its own, and a
/// depth beyond which it doesn't go.
#[derive(Drop)]
pub(crate) struct ReverseSearch {
    turn: u32,
    met: Cells,
    next: Cells,
    prefixes: SessionPrefixes,
    queue: Vec<u32>,
    head: usize,
    level_end: usize,
    depth: usize,
    most: usize,
}

impl ReverseSearch {
    /// Before the first search.
    pub(crate) fn new(alloc: Global, pairs: &PairSpans<'_>) -> Result<ReverseSearch, NoMemory> {
        let count = pairs.count() as usize;
        Ok(ReverseSearch {
            turn: 0,
            met: Cells::new(alloc, count, 0)?,
            next: Cells::new(alloc, count, 0)?,
            prefixes: SessionPrefixes::new(alloc, pairs.session_count())?,
            queue: Vec::new(alloc),
            head: 0,
            level_end: 0,
            depth: 0,
            most: 0,
        })
    }

    /// Begins the next search, of at most this depth.
    pub(crate) fn begin(&mut self, most: usize) {
        self.turn = self.turn.saturating_add(1);
        self.queue.clear();
        self.head = 0;
        self.level_end = 0;
        self.depth = 0;
        self.most = most;
    }

    /// Takes in a transaction that leads on to the next one, and returns whether it wasn't met before.
    pub(crate) fn meet(&mut self, number: u32, next: u32) -> Result<bool, AllocError> {
        if self.is_met(number) {
            return Ok(false);
        }
        self.met.set(number, self.turn);
        self.next.set(number, next);
        self.queue.push(number)?;
        Ok(true)
    }

    /// Whether a transaction was met.
    pub(crate) fn is_met(&self, number: u32) -> bool {
        self.met.get(number) == self.turn
    }

    /// The next transaction to go on from, in the order in which they were met; none where those that lead to it would be too far.
    pub(crate) fn take(&mut self) -> Option<u32> {
        let number = self.queue.get(self.head).copied()?;
        if self.head >= self.level_end {
            self.level_end = self.queue.len();
            self.depth = self.depth.saturating_add(1);
        }
        if self.depth > self.most {
            return None;
        }
        self.head = self.head.saturating_add(1);
        Some(number)
    }

    /// Whether those that lead to the transaction that was taken last are at the greatest depth of the search.
    pub(crate) fn is_last(&self) -> bool {
        self.depth == self.most
    }

    /// Where a transaction leads on to; to itself where the search began.
    pub(crate) fn next(&self, number: u32) -> u32 {
        self.next.get(number)
    }

    /// The number from which on those before this one in its session weren't taken in yet; they count as taken in from now on.
    pub(crate) fn cover(&mut self, pairs: &PairSpans<'_>, number: u32) -> u32 {
        self.prefixes.take(pairs, number, self.turn)
    }
}
