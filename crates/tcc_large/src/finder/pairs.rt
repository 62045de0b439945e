//! The pairs of a history: what its graph has for any number, and nothing for a number past the last; and where the numbers of each session
//! are.
use crate::cells::Cells;
use std::alloc::Global;
use tcc_graph::LargeGraph;
use tcc_txn::{Name, NoMemory};

/// The kind of a pair.
#[derive(Clone, Copy)]
pub(crate) enum Pair {
    Session,
    Read,
}

/// A graph, with the session of each number and the numbers of each session, and how many transactions and reads there are.
#[derive(Drop)]
pub(crate) struct PairSpans<'a> {
    graph: &'a LargeGraph,
    size: u64,
    owners: Cells,
    firsts: Cells,
    ends: Cells,
}

/// Of ascending numbers, those from `low` to below `high`.
pub(crate) fn span(numbers: &[u32], low: u32, high: u32) -> &[u32] {
    let start = numbers.partition_point(|number| *number < low);
    let end = numbers.partition_point(|number| *number < high);
    if start < end && end <= numbers.len() {
        &numbers[start..end]
    } else {
        &[]
    }
}

impl<'a> PairSpans<'a> {
    /// Those of a graph.
    pub(crate) fn of(alloc: Global, graph: &'a LargeGraph) -> Result<PairSpans<'a>, NoMemory> {
        let count = graph.sessions().len();
        let mut pairs = PairSpans {
            graph,
            size: 0,
            owners: Cells::new(alloc, graph.count() as usize, 0)?,
            firsts: Cells::new(alloc, count, 0)?,
            ends: Cells::new(alloc, count, 0)?,
        };
        for number in 1..graph.count() {
            if let Some((owner, _place)) = graph.at(number) {
                pairs.add(number, owner);
            }
        }
        Ok(pairs)
    }

    /// Notes the session of a number that is above all those noted before.
    fn add(&mut self, number: u32, owner: u32) {
        let reads = self.reads(number).len() as u64;
        self.size = self.size.saturating_add(reads).saturating_add(1);
        self.owners.set(number, owner);
        if self.ends.get(owner) == 0 {
            self.firsts.set(owner, number);
        }
        self.ends.set(owner, number.saturating_add(1));
    }

    /// How many transactions there are, `init` among them.
    pub(crate) fn count(&self) -> u32 {
        self.graph.count()
    }

    /// How many transactions and reads there are together.
    pub(crate) fn size(&self) -> u64 {
        self.size
    }

    /// How many sessions there are.
    pub(crate) fn session_count(&self) -> usize {
        self.graph.sessions().len()
    }

    /// The index of a number's session.
    pub(crate) fn owner(&self, number: u32) -> u32 {
        self.owners.get(number)
    }

    /// The first number of a session.
    pub(crate) fn first(&self, owner: u32) -> u32 {
        self.firsts.get(owner)
    }

    /// The number right before this one in its session.
    pub(crate) fn previous(&self, number: u32) -> Option<u32> {
        if number > self.first(self.owner(number)) {
            number.checked_sub(1)
        } else {
            None
        }
    }

    /// The number right after this one in its session.
    pub(crate) fn next(&self, number: u32) -> Option<u32> {
        let next = number.checked_add(1)?;
        if next < self.ends.get(self.owner(number)) {
            Some(next)
        } else {
            None
        }
    }

    /// Whether one transaction comes before the other in session order.
    pub(crate) fn is_session(&self, from: u32, to: u32) -> bool {
        from < self.graph.count() && to < self.graph.count() && self.graph.session(from, to)
    }

    /// Whether a pair of this kind leads from one transaction to another.
    pub(crate) fn is_pair(&self, kind: Pair, from: u32, to: u32) -> bool {
        match kind {
            Pair::Session => self.is_session(from, to),
            Pair::Read => !self.reads_from(from, to).is_empty(),
        }
    }

    /// The first of those after a transaction in session order, and one past the last.
    pub(crate) fn later(&self, number: u32) -> (u32, u32) {
        if number < self.graph.count() {
            self.graph.later(number)
        } else {
            (0, 0)
        }
    }

    /// The readers from a transaction, and beside each the index of the key.
    pub(crate) fn readings(&self, source: u32) -> (&'a [u32], &'a [u32]) {
        if source < self.graph.count() {
            self.graph.readings_at(source)
        } else {
            (&[], &[])
        }
    }

    /// The readers of the key at an index from a transaction.
    pub(crate) fn readers(&self, source: u32, key_index: u32) -> &'a [u32] {
        if (key_index as usize) >= self.graph.keys().len() {
            return &[];
        }
        let (sources, readers) = self.graph.readings_of(key_index);
        let start = sources.partition_point(|other| *other < source);
        let end = sources.partition_point(|other| *other <= source);
        if start < end && end <= readers.len() {
            &readers[start..end]
        } else {
            &[]
        }
    }

    /// The indices of the keys that a transaction reads, each with its source.
    pub(crate) fn reads(&self, reader: u32) -> &'a [(u32, u32)] {
        if reader < self.graph.count() {
            self.graph.reads_at(reader)
        } else {
            &[]
        }
    }

    /// The indices of the keys that a transaction writes.
    pub(crate) fn writes(&self, writer: u32) -> &'a [u32] {
        if writer < self.graph.count() {
            self.graph.writes_at(writer)
        } else {
            &[]
        }
    }

    /// The indices of the keys that one transaction reads from another.
    pub(crate) fn reads_from(&self, source: u32, reader: u32) -> &'a [u32] {
        if source < self.graph.count() && reader < self.graph.count() {
            self.graph.reads_from_at(source, reader)
        } else {
            &[]
        }
    }

    /// The writers of the key at an index.
    pub(crate) fn writers(&self, key_index: u32) -> &'a [u32] {
        if (key_index as usize) < self.graph.keys().len() {
            self.graph.writers_at(key_index)
        } else {
            &[]
        }
    }

    /// The key at an index.
    pub(crate) fn key(&self, key_index: u32) -> Option<Name> {
        self.graph.keys().get(key_index as usize).copied()
    }
}
