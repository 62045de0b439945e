//! Shortest ways by pairs and links among some transactions, by a breadth-first search backwards (`reverse_search`). A transaction that was
//! met leads on to the one from which it was met. This takes O(N + R + E) for N transactions, R reads and E links.
use crate::finder::pairs::PairSpans;
use crate::finder::reverse_search::ReverseSearch;
use crate::finder::trimming::Trimmed;
use crate::finder::work::{SearchError, Work};
use std::alloc::{AllocError, Global};
use tcc_txn::NoMemory;

/// Searches backwards among transactions that are marked.
#[derive(Drop)]
pub(crate) struct BreadthFirst {
    reverse: ReverseSearch,
}

impl BreadthFirst {
    /// Before the first search.
    pub(crate) fn new(alloc: Global, pairs: &PairSpans<'_>) -> Result<BreadthFirst, NoMemory> {
        let reverse = ReverseSearch::new(alloc, pairs)?;
        Ok(BreadthFirst { reverse })
    }

    /// The transactions of a shortest way from one to another among those that are marked, including both; none where there is none of at
    /// most `most` pairs and links.
    pub(crate) fn way(
        &mut self,
        alloc: Global,
        work: &mut Work,
        among: &Trimmed<'_>,
        ends: (u32, u32),
        most: usize,
    ) -> Result<Option<Vec<u32>>, SearchError> {
        self.reverse.begin(most);
        self.meet(among, ends.1, ends.1)?;
        for _turn in 0..among.pairs().count() {
            let Some(number) = self.reverse.take() else {
                break;
            };
            self.look(work, among, number)?;
            if self.reverse.is_met(ends.0) {
                return Ok(Some(self.trail(alloc, among.pairs().count(), ends.0)?));
            }
        }
        Ok(None)
    }

    /// Takes in a marked transaction that leads on to the next one, unless it was met before.
    fn meet(&mut self, among: &Trimmed<'_>, number: u32, next: u32) -> Result<(), AllocError> {
        if among.has(number) {
            self.reverse.meet(number, next)?;
        }
        Ok(())
    }

    /// Takes in all transactions that lead to another by one pair or link.
    fn look(
        &mut self,
        work: &mut Work,
        among: &Trimmed<'_>,
        number: u32,
    ) -> Result<(), SearchError> {
        let links = among.adjacency().links_into(number);
        let reads = among.pairs().reads(number);
        let low = self.reverse.cover(among.pairs(), number);
        work.take(links.len())?;
        work.take(reads.len())?;
        work.take(number.saturating_sub(low) as usize)?;
        for from in links {
            self.meet(among, *from, number)?;
        }
        for (_key_index, source) in reads {
            self.meet(among, *source, number)?;
        }
        for earlier in low..number {
            self.meet(among, earlier, number)?;
        }
        Ok(())
    }

    /// The way from a transaction on to where the search began, over at most `count` transactions.
    fn trail(&self, alloc: Global, count: u32, start: u32) -> Result<Vec<u32>, AllocError> {
        let mut trail = Vec::new(alloc);
        let mut number = start;
        for _turn in 0..count {
            trail.push(number)?;
            let next = self.reverse.next(number);
            if next == number {
                break;
            }
            number = next;
        }
        Ok(trail)
    }
}
