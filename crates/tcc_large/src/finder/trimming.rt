//! Trimming (McLendon et al., Finding strongly connected components in distributed graphs, 2005): the part of a graph that is in a cycle,
//! or between two. What has no remaining neighbour on one side, and then on the other, is removed again and again. Each pair and link is
//! looked at twice for a side: O(N + R + E) for N transactions, R reads and E links.
use crate::cells::Cells;
use crate::finder::adjacency::{Adjacency, Direction};
use crate::finder::pairs::{Pair, PairSpans};
use std::alloc::{AllocError, Global};
use tcc_bits::is_marked;
use tcc_txn::NoMemory;

/// Transactions that are marked, with the pairs and links among them.
#[derive(Drop)]
pub(crate) struct Trimmed<'a> {
    adjacency: &'a Adjacency<'a>,
    marked: Cells,
}

impl<'a> Trimmed<'a> {
    /// Marks the transactions that an order left, except `init`, to which a marked one leads and which lead to a marked one.
    pub(crate) fn of(
        alloc: Global,
        adjacency: &'a Adjacency<'a>,
        placed: &[u64],
    ) -> Result<Trimmed<'a>, NoMemory> {
        let mut marked = Cells::new(alloc, adjacency.pairs().count() as usize, 0)?;
        for number in 1..adjacency.pairs().count() {
            if !is_marked(placed, number as usize) {
                marked.set(number, 1);
            }
        }
        let mut trimmed = Trimmed { adjacency, marked };
        trimmed.trim(alloc, Direction::Before)?;
        trimmed.trim(alloc, Direction::Behind)?;
        Ok(trimmed)
    }

    /// The pairs and links.
    pub(crate) fn adjacency(&self) -> &'a Adjacency<'a> {
        self.adjacency
    }

    /// The pairs.
    pub(crate) fn pairs(&self) -> &'a PairSpans<'a> {
        self.adjacency.pairs()
    }

    /// For each transaction 1 where it is marked, else 0.
    pub(crate) fn marks(&self) -> &Cells {
        &self.marked
    }

    /// Whether a transaction is marked.
    pub(crate) fn has(&self, number: u32) -> bool {
        self.marked.get(number) != 0
    }

    /// Unmarks what has no marked one on this side, again and again.
    fn trim(&mut self, alloc: Global, side: Direction) -> Result<(), NoMemory> {
        let mut neighbours = Vec::new(alloc);
        let mut degrees = self.degrees(alloc, side)?;
        let mut gone = self.without(alloc, &degrees)?;
        for head in 0..self.pairs().count() {
            let Some(number) = gone.get(head as usize).copied() else {
                break;
            };
            self.marked.set(number, 0);
            self.adjacency
                .find_neighbours(&mut neighbours, number, side.other())?;
            self.let_go(&mut degrees, &mut gone, &neighbours)?;
        }
        Ok(())
    }

    /// How many marked ones each marked one has on this side.
    fn degrees(&self, alloc: Global, side: Direction) -> Result<Cells, NoMemory> {
        let mut neighbours = Vec::new(alloc);
        let mut degrees = Cells::new(alloc, self.pairs().count() as usize, 0)?;
        for number in 1..self.pairs().count() {
            if self.has(number) {
                self.adjacency
                    .find_neighbours(&mut neighbours, number, side)?;
                degrees.set(number, self.count_marked(&neighbours));
            }
        }
        Ok(degrees)
    }

    /// How many of these are marked.
    fn count_marked(&self, numbers: &[u32]) -> u32 {
        let mut count = 0u32;
        for number in numbers {
            if self.has(*number) {
                count = count.saturating_add(1);
            }
        }
        count
    }

    /// The marked ones that have none.
    fn without(&self, alloc: Global, degrees: &Cells) -> Result<Vec<u32>, NoMemory> {
        let mut found = Vec::new(alloc);
        for number in 1..self.pairs().count() {
            if self.has(number) && degrees.get(number) == 0 {
                found.push(number)?;
            }
        }
        Ok(found)
    }

    /// Each of these, if it is marked, has one less; where that was the last, it is unmarked too.
    fn let_go(
        &self,
        degrees: &mut Cells,
        gone: &mut Vec<u32>,
        numbers: &[u32],
    ) -> Result<(), AllocError> {
        for number in numbers {
            if self.has(*number) && degrees.less_one(*number) {
                gone.push(*number)?;
            }
        }
        Ok(())
    }

    /// Marked ones that read from marked ones: source and reader of each read.
    pub(crate) fn reads(&self, alloc: Global) -> Result<Vec<(u32, u32)>, AllocError> {
        let mut found = Vec::new(alloc);
        for reader in 1..self.pairs().count() {
            if self.has(reader) {
                self.add_reads(&mut found, reader)?;
            }
        }
        Ok(found)
    }

    /// Adds those of one reader.
    fn add_reads(&self, found: &mut Vec<(u32, u32)>, reader: u32) -> Result<(), AllocError> {
        for (_key_index, source) in self.pairs().reads(reader) {
            if self.has(*source) {
                found.push((*source, reader))?;
            }
        }
        Ok(())
    }

    /// The links among marked ones against a pair of this kind.
    pub(crate) fn links_against(
        &self,
        alloc: Global,
        kind: Pair,
    ) -> Result<Vec<(u32, u32)>, AllocError> {
        let mut found = Vec::new(alloc);
        for from in 1..self.pairs().count() {
            if self.has(from) {
                self.add_links_against(&mut found, kind, from)?;
            }
        }
        Ok(found)
    }

    /// Adds those from one.
    fn add_links_against(
        &self,
        found: &mut Vec<(u32, u32)>,
        kind: Pair,
        from: u32,
    ) -> Result<(), AllocError> {
        for to in self.adjacency.links_from(from) {
            if self.has(*to) && self.pairs().is_pair(kind, *to, from) {
                found.push((from, *to))?;
            }
        }
        Ok(())
    }
}
