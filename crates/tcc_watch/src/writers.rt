//! The writers of each key so far, session by session.
ghost use Rattle.std.specs.Prelude.{◌≡◌, ◌≢◌, ◌+◌, ◌≤◌, ℕ, List, [], length, slice_index_or, OnOk};
ghost use Rattle.tcc_reads.specs.History.{History};
ghost use Rattle.tcc_watch.specs.private.Writers.{HasNumber, HasNumberAt, NotesWrite, CanNote, AreKeyWriters, lists_in};

use crate::at::At;
use crate::linking::SessionWriters;
use std::alloc::Global;
use std::marker::Model;
use tcc_bits::Row;
use tcc_txn::{Name, NoMemory, SymbolTable};

/// The writers of one key but `init`.
#[derive(Drop)]
pub(crate) struct KeyWriters {
    lists: Vec<SessionWriters>,
}

impl Model for KeyWriters {
    ghost use Rattle.std.specs.Prelude.{List};
    ghost use Rattle.tcc_watch.specs.declared.linking.SessionWriters.{SessionWriters};

    ghost Value = { List SessionWriters };

    ghost view = { λ w. w.lists.items };
}

/// One more number, the last of its session.
fn add_number(
    alloc: Global,
    lists: &mut Vec<SessionWriters>,
    at: At,
    number: u32,
) -> Result<(), NoMemory>
    ensures { OnOk result (HasNumber lists.old.items lists.new.items at number) }
{
    for index in 0..lists.len() {
        if lists[index].session == at.session {
            return lists[index].add(number, at.place);
        }
    }
    let mut numbers = Row::new(Vec::new(alloc));
    numbers.push(number)?;
    lists.push(SessionWriters {
        session: at.session,
        numbers,
        last: at.place,
    })?;
    Ok(())
}

impl KeyWriters {
    /// No writers.
    fn new(alloc: Global) -> KeyWriters
        ensures { result ≡ [] }
    {
        KeyWriters {
            lists: Vec::new(alloc),
        }
    }

    /// The lists of the sessions.
    pub(crate) fn lists(&self) -> &[SessionWriters]
        ensures { result.now ≡ self.now }
    {
        &self.lists
    }

    /// One writer more, the last of its session.
    fn add(&mut self, alloc: Global, at: At, number: u32) -> Result<(), NoMemory>
        ensures { OnOk result (HasNumber self.old self.new at number) }
    {
        add_number(alloc, &mut self.lists, at, number)?;
        Ok(())
    }
}

/// The lists at an index; none past the end.
fn lists_at(writers: &[KeyWriters], index: u32) -> &[SessionWriters]
    ensures { result.now ≡ slice_index_or writers.now index [] }
{
    match writers.get(index as usize) {
        Some(lists) => lists.lists(),
        None => &[],
    }
}

/// Lists for `len` keys.
fn extend(alloc: Global, writers: &mut Vec<KeyWriters>, len: usize) -> Result<(), NoMemory>
    ensures long { OnOk result (len ≤ length writers.new.items) }
    ensures same { (k : ℕ) → slice_index_or writers.new.items k [] ≡ slice_index_or writers.old.items k [] }
{
    for _key in writers.len()..len {
        writers.push(KeyWriters::new(alloc))?;
    }
    Ok(())
}

/// One writer more at an index.
fn add_at(
    alloc: Global,
    writers: &mut Vec<KeyWriters>,
    index: u32,
    at: At,
    number: u32,
) -> Result<(), NoMemory>
    ensures here { OnOk result (HasNumberAt writers.old.items writers.new.items index at number) }
    ensures others { (k : ℕ) → k ≢ index → slice_index_or writers.new.items k [] ≡ slice_index_or writers.old.items k [] }
{
    extend(alloc, writers, index as usize + 1)?;
    writers[index as usize].add(alloc, at, number)?;
    Ok(())
}

/// The writers of each key but `init`, by the number of the key.
#[derive(Drop)]
pub(crate) struct WriterLists {
    keys: SymbolTable,
    writers: Vec<KeyWriters>,
}

impl Model for WriterLists {
    ghost use Rattle.tcc_watch.specs.private.Writers.{AreWritersOf, WriterMap};

    ghost Value = { WriterMap };

    ghost view = { λ w. record { keys = w.keys; writers = w.writers.items } };

    ghost invariant = { λ w. AreWritersOf w.keys w.writers.items };
}

impl WriterLists {
    /// No keys.
    pub(crate) fn new(alloc: Global) -> WriterLists
        ensures { (x : List ℕ) → lists_in result x ≡ [] }
    {
        WriterLists {
            keys: SymbolTable::new(alloc),
            writers: Vec::new(alloc),
        }
    }

    /// The writers of a key, session by session.
    pub(crate) fn lists(&self, key: &Name) -> &[SessionWriters]
        ensures { result.now ≡ lists_in self.now key.now }
    {
        match self.keys.find(key) {
            Some(number) => lists_at(&self.writers, number),
            None => &[],
        }
    }

    /// One writer more of a key.
    fn add(&mut self, alloc: Global, key: Name, at: At, number: u32) -> Result<(), NoMemory>
        ensures { OnOk result (NotesWrite self.old self.new at number key) }
    {
        let index = self.keys.number(key)?;
        add_at(alloc, &mut self.writers, index, at, number)?;
        Ok(())
    }
}

/// A transaction writes these keys.
pub(crate) fn note_writes(
    alloc: Global,
    writers: &mut WriterLists,
    at: At,
    number: u32,
    keys: &[Name],
) -> Result<(), NoMemory>
    ghost h: { History }
    requires { CanNote h writers.old at number keys.now }
    ensures { OnOk result (AreKeyWriters h (number + 1) writers.new) }
{
    for key in keys {
        writers.add(alloc, *key, at, number)?;
    }
    Ok(())
}
