//! At which rows the operations of transactions stand among the records of a text.
ghost use Rattle.std.specs.Prelude.{◌≡◌, ◌++◌, ◌∷◌, [], IfOk, OnOk, filter, length, map, option_map};
ghost use Rattle.csv.specs.Records.{fields_of};
ghost use Rattle.tcc_full.specs.Rows.{HasRowsOf, add_last, is_write, keep_writes, row_of};
ghost use Rattle.tcc_full.specs.private.Noting.{Changes, NotesRecord, is_word};

use csv::{ByteRecord, ReaderBuilder};
use std::alloc::Global;
use std::collections::BTreeMap;
use tcc_txn::{Name, NoMemory};

/// The row of an operation, and whether it is a write.
#[derive(Clone, Copy)]
struct OperationRow {
    row: u32,
    writes: bool,
}

/// Of each session the rows of the operations of each of its transactions, in their order.
#[derive(Drop)]
pub(crate) struct OperationRows {
    sessions: BTreeMap<Name, Vec<Vec<OperationRow>>>,
}

/// The last transaction has one operation more.
fn add_last(transactions: &mut Vec<Vec<OperationRow>>, one: OperationRow) -> Result<(), NoMemory>
    ensures { OnOk result (map (λ transaction. transaction.items) transactions.new.items
        ≡ add_last one (map (λ transaction. transaction.items) transactions.old.items)) }
{
    let Some(last) = transactions.len().checked_sub(1) else {
        return Ok(());
    };
    transactions[last].push(one)?;
    Ok(())
}

/// Leaves the writes among some operations.
fn retain_writes(operations: &mut Vec<OperationRow>)
    ensures { operations.new.items ≡ filter (λ one. one.writes) operations.old.items }
{
    operations.retain(|one| one.writes);
}

/// Leaves the writes of the last transaction.
fn keep_writes(transactions: &mut Vec<Vec<OperationRow>>)
    ensures { map (λ transaction. transaction.items) transactions.new.items
        ≡ keep_writes (map (λ transaction. transaction.items) transactions.old.items) }
{
    let Some(last) = transactions.len().checked_sub(1) else {
        return;
    };
    retain_writes(&mut transactions[last]);
}

/// One transaction more, without operations.
fn add_transaction(alloc: Global, transactions: &mut Vec<Vec<OperationRow>>) -> Result<(), NoMemory>
    ensures { OnOk result (map (λ transaction. transaction.items) transactions.new.items
        ≡ map (λ transaction. transaction.items) transactions.old.items ++ [] ∷ []) }
{
    transactions.push(Vec::new(alloc))?;
    Ok(())
}

/// Whether a record is of two fields, of which the second is this word.
fn is_word(fields: &ByteRecord, said: &[u8]) -> bool
    ensures { result ≡ is_word said.now (fields_of fields.now) }
{
    if fields.len() != 2 {
        return false;
    }
    match fields.get(1) {
        Some(word) => word == said,
        None => false,
    }
}

/// Whether an operation is a write.
fn is_write(fields: &ByteRecord) -> bool
    requires { length (fields_of fields.now) ≡ 4 }
    ensures { result ≡ is_write (fields_of fields.now) }
{
    match fields.get(1) {
        Some(word) => word == b"w".as_slice(),
        None => false,
    }
}

impl OperationRows {
    /// The session begins a transaction.
    fn begin(&mut self, alloc: Global, session: Name) -> Result<(), NoMemory>
        ensures { OnOk result (Changes session (λ transactions. transactions ++ [] ∷ []) self.old self.new) }
    {
        match self.sessions.get_mut(&session) {
            Some(transactions) => return add_transaction(alloc, transactions),
            None => {}
        }
        let mut transactions = Vec::new(alloc);
        add_transaction(alloc, &mut transactions)?;
        match self.sessions.insert(session, transactions) {
            Ok(_) => Ok(()),
            Err(_) => Err(NoMemory),
        }
    }

    /// The session has one operation more.
    fn operate(&mut self, session: &Name, one: OperationRow) -> Result<(), NoMemory>
        ensures { OnOk result (Changes session.now (add_last one) self.old self.new) }
    {
        match self.sessions.get_mut(session) {
            Some(transactions) => add_last(transactions, one),
            None => Ok(()),
        }
    }

    /// Nobody told how the session's transaction ended.
    fn leave(&mut self, session: &Name)
        ensures { Changes session.now keep_writes self.old self.new }
    {
        if let Some(transactions) = self.sessions.get_mut(session) {
            keep_writes(transactions);
        }
    }

    /// The record of this row.
    fn note(&mut self, alloc: Global, fields: &ByteRecord, row: u32) -> Result<(), NoMemory>
        ensures { OnOk result (NotesRecord (fields_of fields.now) row self.old self.new) }
    {
        let Some(session) = fields.get(0) else {
            return Ok(());
        };
        let Ok(session) = Name::read(session) else {
            return Ok(());
        };
        if fields.len() == 4 {
            let writes = is_write(fields);
            return self.operate(&session, OperationRow { row, writes });
        }
        if is_word(fields, b"begin") {
            return self.begin(alloc, session);
        }
        if is_word(fields, b"unknown") {
            self.leave(&session);
        }
        Ok(())
    }

    /// The row of an operation of the session's transaction at a place, by its index from 0.
    pub(crate) fn row(&self, session: &Name, place: u32, index: usize) -> Option<u32>
        ensures { result ≡ row_of self.now session.now place index }
    {
        let transactions = self.sessions.get(session)?;
        let rows = transactions.get((place as usize).saturating_sub(1))?;
        let one = rows.get(index)?;
        Some(one.row)
    }
}

/// The rows of all operations among the records of a text.
pub(crate) fn operation_rows(alloc: Global, text: &[u8]) -> Result<OperationRows, NoMemory>
    ensures { IfOk result (HasRowsOf text.now) }
{
    let mut reader = ReaderBuilder::new()
        .has_headers(false)
        .flexible(true)
        .from_reader(alloc, text);
    let mut fields = ByteRecord::new(alloc);
    let mut rows = OperationRows {
        sessions: BTreeMap::new(alloc),
    };
    for row in 1..u32::MAX {
        match reader.read_byte_record(&mut fields) {
            Ok(true) => rows.note(alloc, &fields, row)?,
            Ok(false) => return Ok(rows),
            // A text can be read, so memory is wanting.
            Err(_) => return Err(NoMemory),
        }
    }
    // No text has so many records.
    Err(NoMemory)
}
