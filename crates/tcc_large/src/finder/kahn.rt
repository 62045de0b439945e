//! Kahn's algorithm (Kahn, Topological sorting of large networks, CACM 5, 1962), group by group. It makes an order of transactions that
//! keeps all pairs, and links as far as possible. Each transaction counts the pairs and the links of its group that it waits for. One that
//! waits only for links comes next where nothing else can. Each pair and link is looked at twice: O(N + R + E) for N transactions, R reads
//! and E links.
use crate::cells::Cells;
use crate::finder::adjacency::Adjacency;
use std::alloc::{AllocError, Global};
use tcc_txn::NoMemory;

/// Such an order as far as it was made: how many pairs and links of its own group each transaction waits for, which are placed, which wait
/// for nothing, and which only for links.
#[derive(Drop)]
pub(crate) struct Kahn<'a> {
    adjacency: &'a Adjacency<'a>,
    groups: &'a Cells,
    pairs: Cells,
    links: Cells,
    placed: Cells,
    free: Vec<u32>,
    held: Vec<u32>,
    taken: usize,
}

impl<'a> Kahn<'a> {
    /// Nothing is placed yet, nor open. For each transaction the number of its group is given, 0 where it has none.
    pub(crate) fn new(
        alloc: Global,
        adjacency: &'a Adjacency<'a>,
        groups: &'a Cells,
    ) -> Result<Kahn<'a>, NoMemory> {
        let count = adjacency.pairs().count();
        let mut kahn = Kahn {
            adjacency,
            groups,
            pairs: Cells::new(alloc, count as usize, 0)?,
            links: Cells::new(alloc, count as usize, 0)?,
            placed: Cells::new(alloc, count as usize, 0)?,
            free: Vec::new(alloc),
            held: Vec::new(alloc),
            taken: 0,
        };
        for number in 1..count {
            kahn.count(number);
        }
        Ok(kahn)
    }

    /// Whether two transactions are in one group.
    fn are_together(&self, one: u32, other: u32) -> bool {
        self.groups.get(one) != 0 && self.groups.get(one) == self.groups.get(other)
    }

    /// Counts what a transaction waits for.
    fn count(&mut self, number: u32) {
        for from in self.adjacency.links_into(number) {
            if self.are_together(*from, number) {
                self.links.add_one(number);
            }
        }
        for (_key_index, source) in self.adjacency.pairs().reads(number) {
            if self.are_together(*source, number) {
                self.pairs.add_one(number);
            }
        }
        if let Some(previous) = self.adjacency.pairs().previous(number) {
            if self.are_together(previous, number) {
                self.pairs.add_one(number);
            }
        }
    }

    /// Takes in a transaction that waits for no pair, whether or not it waits for links.
    pub(crate) fn open(&mut self, number: u32) -> Result<(), AllocError> {
        if self.pairs.get(number) == 0 && self.placed.get(number) == 0 {
            if self.links.get(number) == 0 {
                self.free.push(number)?;
            } else {
                self.held.push(number)?;
            }
        }
        Ok(())
    }

    /// One that is open, and perhaps placed: one that waits for nothing, or else the first that waits only for links.
    fn one(&mut self) -> Option<u32> {
        if let Some(number) = self.free.pop() {
            return Some(number);
        }
        let number = self.held.get(self.taken).copied()?;
        self.taken = self.taken.saturating_add(1);
        Some(number)
    }

    /// The next one to be placed; none where all that was opened is placed.
    pub(crate) fn next(&mut self) -> Option<u32> {
        for _turn in 0..u64::MAX {
            let number = self.one()?;
            if !self.has(number) {
                return Some(number);
            }
        }
        None
    }

    /// Whether a transaction is placed.
    pub(crate) fn has(&self, number: u32) -> bool {
        self.placed.get(number) != 0
    }

    /// Puts a transaction next; what waits for it waits for one less.
    pub(crate) fn put(&mut self, number: u32) -> Result<(), AllocError> {
        self.placed.set(number, 1);
        for reader in self.adjacency.pairs().readings(number).0 {
            if self.are_together(number, *reader) && self.pairs.less_one(*reader) {
                self.open(*reader)?;
            }
        }
        for to in self.adjacency.links_from(number) {
            if self.are_together(number, *to) && self.links.less_one(*to) {
                self.open(*to)?;
            }
        }
        if let Some(next) = self.adjacency.pairs().next(number) {
            if self.are_together(number, next) && self.pairs.less_one(next) {
                self.open(next)?;
            }
        }
        Ok(())
    }
}
