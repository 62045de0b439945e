//! The recorded operations that an answer speaks of, with their rows.
ghost use Rattle.std.specs.Prelude.{◌≡◌};
ghost use Rattle.tcc_full.specs.Records.{read_row, records_of, row_at, value_from, write_row};

use crate::rows::OperationRows;
use tcc_answer::Labels;
use tcc_graph::{LargeGraph, first_reading, last_write, source_value};
use tcc_txn::{Bounds, Name, SnapshotWithin};

/// A snapshot, its graph, the names of its transactions, and the rows of all operations.
#[derive(Drop)]
pub(crate) struct Lookup<'a, B: Bounds> {
    pub snapshot: &'a SnapshotWithin<B>,
    pub graph: &'a LargeGraph,
    pub labels: &'a Labels,
    pub rows: &'a OperationRows,
}

impl<B: Bounds> Lookup<'_, B> {
    /// The row of an operation of the transaction of a number, by its index.
    fn row(&self, n: u32, index: usize) -> Option<u32>
        ensures { result ≡ row_at (records_of self.now) n index }
    {
        let (session, place) = self.graph.at(n)?;
        let name = self.graph.sessions().get(session as usize)?;
        self.rows.row(name, place, index)
    }

    /// The row of a transaction's last write of a key; none for `init`.
    pub(crate) fn write_row(&self, n: u32, key: &Name) -> Option<u32>
        ensures { result ≡ write_row (records_of self.now) n key.now }
    {
        let index = last_write(self.snapshot, self.graph, n, key)?;
        self.row(n, index)
    }

    /// The value at a key that is read from a transaction: 0 from `init`, else its visible write.
    pub(crate) fn value_from(&self, n: u32, key: &Name) -> u64
        ensures { result ≡ value_from (records_of self.now) n key.now }
    {
        source_value(self.snapshot, self.graph, n, key)
    }

    /// The row of a transaction's first read of a key that reads from this source.
    pub(crate) fn read_row(&self, source: u32, reader: u32, key: &Name) -> Option<u32>
        ensures { result ≡ read_row (records_of self.now) source reader key.now }
    {
        let value = self.value_from(source, key);
        let index = first_reading(self.snapshot, self.graph, reader, key, value)?;
        self.row(reader, index)
    }
}
