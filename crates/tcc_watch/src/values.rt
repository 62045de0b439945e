//! The values that were written so far, each with the transaction that writes it visibly, and where external reads come from.
ghost use Rattle.std.specs.Prelude.{◌≡◌, true, ℕ, List, None, Some, is_some, IfOk, IfSome, OnErr, OnOk};
ghost use Rattle.std.specs.BTreeMap.{IsUnchanged, Updates};
ghost use Rattle.tcc_watch.specs.private.Values.{AddsSource, AreNoted, AreSources, AreUnwritten, is_unwritten, noted, Notes, NotesValue, number_shown, source_in, spot_cmp};

use crate::operations::{are_putting, visible_write};
use std::alloc::Global;
use std::collections::BTreeMap;
use std::marker::Model;
use tcc_txn::{Name, NoMemory, Op, SymbolTable};

/// For each key and value that was written, who writes it visibly, by number; none where no committed transaction does. A key is looked
/// up by its number.
#[derive(Drop)]
pub(crate) struct WrittenValues {
    keys: SymbolTable,
    numbers: BTreeMap<(u32, u64), Option<u32>>,
}

impl Model for WrittenValues {
    ghost use Rattle.tcc_watch.specs.private.Values.{AreValuesOf, ValueMap};

    ghost Value = { ValueMap };

    ghost view = { λ t. record { keys = t.keys; entries = t.numbers.entries } };

    ghost invariant = { λ t. AreValuesOf t.keys t.numbers.entries };
}

/// Notes of a value at the key of a number who writes it visibly.
fn note_at(
    numbers: &mut BTreeMap<(u32, u64), Option<u32>>,
    spot: (u32, u64),
    shown: Option<u32>,
) -> Result<(), NoMemory>
    ensures noted { OnOk result (Updates spot_cmp numbers.old numbers.new spot (Some shown)) }
    ensures kept { OnErr result (IsUnchanged numbers.old numbers.new) }
{
    match numbers.insert(spot, shown) {
        Ok(_) => Ok(()),
        Err(_) => Err(NoMemory),
    }
}

impl WrittenValues {
    /// Nothing was written.
    pub(crate) fn new(alloc: Global) -> WrittenValues
        ensures { (x : List ℕ) (v : ℕ) → noted result x v ≡ None }
    {
        WrittenValues {
            keys: SymbolTable::new(alloc),
            numbers: BTreeMap::new(alloc),
        }
    }

    /// What is noted of a value at a key; none where nobody wrote it.
    fn get(&self, key: &Name, value: u64) -> Option<Option<u32>>
        ensures { result ≡ noted self.now key.now value }
    {
        match self.keys.find(key) {
            Some(number) => self.numbers.get(&(number, value)).copied(),
            None => None,
        }
    }

    /// Whether a value was written at a key.
    pub(crate) fn contains_key(&self, key: &Name, value: u64) -> bool
        ensures { result ≡ is_some (noted self.now key.now value) }
    {
        self.get(key, value).is_some()
    }

    /// Notes of a value at a key who writes it visibly.
    fn put(&mut self, key: &Name, value: u64, shown: Option<u32>) -> Result<(), NoMemory>
        ensures { OnOk result (Notes self.old self.new key.now value shown) }
    {
        let number = self.keys.number(*key)?;
        note_at(&mut self.numbers, (number, value), shown)?;
        Ok(())
    }
}

/// From which transaction a value is read at a key, by its number, where that has come.
fn source_of(values: &WrittenValues, key: &Name, value: u64) -> Option<u32>
    ensures { result ≡ source_in values.now key.now value }
{
    if value == 0 {
        return Some(0);
    }
    match values.get(key, value) {
        Some(number) => number,
        None => None,
    }
}

/// Adds the source of what an operation after some others reads from another transaction; false where that hasn't come, or where the
/// operation doesn't read what its own transaction wrote.
fn add_source(
    values: &WrittenValues,
    before: &[Op],
    op: &Op,
    reads: &mut Vec<(Name, u32)>,
) -> Result<bool, NoMemory>
    ensures { IfOk result (λ b. b ≡ true → AddsSource values.now before.now op.now reads.old.items reads.new.items) }
{
    let Op::Get { key, value } = op else {
        return Ok(true);
    };
    match visible_write(before, key) {
        Some(own) => Ok(own == *value),
        None => match source_of(values, key, *value) {
            Some(number) => {
                reads.push((*key, number))?;
                Ok(true)
            }
            None => Ok(false),
        },
    }
}

/// Key and source of the external reads of some operations. None where a source hasn't come, or where a read after an own write doesn't
/// have its value.
pub(crate) fn sources(
    alloc: Global,
    values: &WrittenValues,
    ops: &[Op],
) -> Result<Option<Vec<(Name, u32)>>, NoMemory>
    ensures { IfOk result (λ found. IfSome found (λ reads. AreSources values.now ops.now reads.items)) }
{
    let mut reads = Vec::new(alloc);
    for index in 0..ops.len() {
        if !add_source(values, &ops[..index], &ops[index], &mut reads)? {
            return Ok(None);
        }
    }
    Ok(Some(reads))
}

/// Whether an operation after some others writes nothing that was written.
fn is_unwritten(values: &WrittenValues, before: &[Op], op: &Op) -> bool
    ensures { result ≡ is_unwritten values.now before.now op.now }
{
    match op {
        Op::Put { key, value } => {
            !values.contains_key(key, *value) && !are_putting(before, key, *value)
        }
        Op::Get { .. } => true,
    }
}

/// Whether operations write no value that was written, and none twice.
pub(crate) fn are_unwritten(values: &WrittenValues, ops: &[Op]) -> bool
    ensures { result ≡ true → AreUnwritten values.now ops.now }
{
    for index in 0..ops.len() {
        if !is_unwritten(values, &ops[..index], &ops[index]) {
            return false;
        }
    }
    true
}

/// A transaction's number, where its operations write a value visibly.
fn number_shown(ops: &[Op], number: Option<u32>, key: &Name, value: u64) -> Option<u32>
    ensures { result ≡ number_shown ops.now number key.now value }
{
    if visible_write(ops, key) == Some(value) {
        number
    } else {
        None
    }
}

/// Notes what an operation among others writes: that it comes from a number, where it is visible.
fn note_value(
    values: &mut WrittenValues,
    ops: &[Op],
    number: Option<u32>,
    op: &Op,
) -> Result<(), NoMemory>
    ensures { OnOk result (NotesValue ops.now number op.now values.old values.new) }
{
    let Op::Put { key, value } = op else {
        return Ok(());
    };
    let shown = number_shown(ops, number, key, *value);
    values.put(key, *value, shown)?;
    Ok(())
}

/// Notes what the operations of a transaction write, by its number, if it has one.
pub(crate) fn note_values(
    values: &mut WrittenValues,
    ops: &[Op],
    number: Option<u32>,
) -> Result<(), NoMemory>
    ensures { OnOk result (AreNoted ops.now number ops.now values.old values.new) }
{
    for op in ops {
        note_value(values, ops, number, op)?;
    }
    Ok(())
}
