//! Shortest walks by pairs, from the nearest of some starts to some ends, by a breadth-first search backwards (`reverse_search`). For each
//! transaction that was met the pair by which it leads on is kept, so the steps are read off from the start on. This takes O(N + R) for N
//! transactions and R reads.
use crate::cells::Cells;
use crate::finder::pairs::{PairSpans, span};
use crate::finder::reverse_search::ReverseSearch;
use crate::finder::work::{SearchError, Work};
use std::alloc::{AllocError, Global};
use tcc_graph::Step;
use tcc_txn::NoMemory;

/// A step by a session pair; other steps have the index of a key here.
const BY_SESSION: u32 = u32::MAX;

/// Which walk is looked for.
#[derive(Clone, Copy)]
pub(crate) struct Sought<'a> {
    /// Where it may begin, in ascending order.
    pub starts: &'a [u32],
    /// Where it may end.
    pub ends: &'a [u32],
    /// How many steps it may have.
    pub most: usize,
}

/// Searches backwards by pairs, with the pair by which each transaction leads on.
#[derive(Drop)]
pub(crate) struct ShortestWalks {
    reverse: ReverseSearch,
    by: Cells,
}

impl ShortestWalks {
    /// Before the first search.
    pub(crate) fn new(alloc: Global, pairs: &PairSpans<'_>) -> Result<ShortestWalks, NoMemory> {
        Ok(ShortestWalks {
            reverse: ReverseSearch::new(alloc, pairs)?,
            by: Cells::new(alloc, pairs.count() as usize, 0)?,
        })
    }

    /// A shortest one of the walks that are looked for; none where there is none.
    pub(crate) fn walk(
        &mut self,
        alloc: Global,
        work: &mut Work,
        pairs: &PairSpans<'_>,
        sought: &Sought<'_>,
    ) -> Result<Option<Vec<Step>>, SearchError> {
        self.reverse.begin(sought.most);
        work.take(sought.ends.len())?;
        for end in sought.ends {
            self.meet(*end, *end, BY_SESSION)?;
        }
        for _turn in 0..pairs.count() {
            let Some(number) = self.reverse.take() else {
                break;
            };
            if let Some((start, by)) = self.search(work, pairs, sought.starts, number)? {
                return Ok(Some(self.steps(alloc, pairs, start, number, by)?));
            }
        }
        Ok(None)
    }

    /// Takes in a transaction that leads on to the next one, unless it was met before.
    fn meet(&mut self, number: u32, next: u32, by: u32) -> Result<(), AllocError> {
        if self.reverse.meet(number, next)? {
            self.by.set(number, by);
        }
        Ok(())
    }

    /// Looks at all transactions that lead to one by one step. It returns a wanted one and the step; or else it takes them in, unless these
    /// are the last.
    fn search(
        &mut self,
        work: &mut Work,
        pairs: &PairSpans<'_>,
        wanted: &[u32],
        number: u32,
    ) -> Result<Option<(u32, u32)>, SearchError> {
        if let Some(start) = self.search_session(work, pairs, wanted, number)? {
            return Ok(Some((start, BY_SESSION)));
        }
        let reads = pairs.reads(number);
        work.take(reads.len())?;
        for (key_index, source) in reads {
            if wanted.binary_search(source).is_ok() {
                return Ok(Some((*source, *key_index)));
            }
            if *source != 0 && !self.reverse.is_last() {
                self.meet(*source, number, *key_index)?;
            }
        }
        Ok(None)
    }

    /// Looks at those before a transaction in its session, as far as they weren't taken in for a later one. It returns a wanted one; or
    /// else it takes them in, unless these are the last.
    fn search_session(
        &mut self,
        work: &mut Work,
        pairs: &PairSpans<'_>,
        wanted: &[u32],
        number: u32,
    ) -> Result<Option<u32>, SearchError> {
        work.take(1)?;
        let low = self.reverse.cover(pairs, number);
        if let Some(start) = span(wanted, low, number).first() {
            return Ok(Some(*start));
        }
        if self.reverse.is_last() {
            return Ok(None);
        }
        work.take(number.saturating_sub(low) as usize)?;
        for earlier in low..number {
            self.meet(earlier, number, BY_SESSION)?;
        }
        Ok(None)
    }

    /// The steps from a start to this transaction, and from there on.
    fn steps(
        &self,
        alloc: Global,
        pairs: &PairSpans<'_>,
        start: u32,
        number: u32,
        by: u32,
    ) -> Result<Vec<Step>, AllocError> {
        let mut steps = Vec::new(alloc);
        let mut from = start;
        let mut to = number;
        let mut by = by;
        for _turn in 0..pairs.count() {
            steps.push(step(pairs, from, to, by))?;
            from = to;
            to = self.reverse.next(from);
            by = self.by.get(from);
            if to == from {
                break;
            }
        }
        Ok(steps)
    }
}

/// A step by a session pair, or by the key at an index.
fn step(pairs: &PairSpans<'_>, from: u32, to: u32, by: u32) -> Step {
    match pairs.key(by) {
        Some(key) => Step::Reads { from, to, key },
        None => Step::Session { from, to },
    }
}
