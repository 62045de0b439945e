//! What the first transaction that waits in each session is known to wait for, so that it isn't looked at again before that has come. A
//! hint saves time, and nothing else depends on it: values that were written stay, so an old hint says nothing. So do the session that
//! came last, after which others are looked for, and the number of transactions that wait.

use crate::operations::visible_write;
use crate::values::WrittenValues;
use std::alloc::Global;
use tcc_txn::{Name, NoMemory, Op};

/// A value at a key for each session, where one is known to be waited for.
#[derive(Drop)]
pub(crate) struct Hints {
    missing: Vec<Option<(Name, u64)>>,
    latest: usize,
    waiting: usize,
}

/// The value that an operation after some others reads from another transaction, where nobody has written it.
fn missing_at(values: &WrittenValues, before: &[Op], op: &Op) -> Option<(Name, u64)> {
    let Op::Get { key, value } = op else {
        return None;
    };
    if *value == 0 || values.contains_key(key, *value) {
        return None;
    }
    match visible_write(before, key) {
        Some(_) => None,
        None => Some((*key, *value)),
    }
}

/// The first value that some operations read from another transaction, and that nobody has written.
pub(crate) fn missing(values: &WrittenValues, ops: &[Op]) -> Option<(Name, u64)> {
    for index in 0..ops.len() {
        if let Some(found) = missing_at(values, &ops[..index], &ops[index]) {
            return Some(found);
        }
    }
    None
}

impl Hints {
    /// No sessions.
    pub(crate) fn new(alloc: Global) -> Hints {
        Hints {
            missing: Vec::new(alloc),
            latest: 0,
            waiting: 0,
        }
    }

    /// The index of the session whose transaction came last.
    pub(crate) fn latest(&self) -> usize {
        self.latest
    }

    /// How many transactions wait.
    pub(crate) fn waiting(&self) -> usize {
        self.waiting
    }

    /// A transaction of the session at an index comes, and waits. Makes room for the session, if it is the next one.
    pub(crate) fn come(&mut self, index: usize) -> Result<(), NoMemory> {
        self.latest = index;
        self.waiting = self.waiting.saturating_add(1);
        if index == self.missing.len() {
            self.missing.push(None)?;
        }
        Ok(())
    }

    /// A transaction no longer waits.
    pub(crate) fn go(&mut self) {
        self.waiting = self.waiting.saturating_sub(1);
    }

    /// Notes what the first transaction of a session waits for.
    pub(crate) fn put(&mut self, index: usize, missing: Option<(Name, u64)>) {
        if let Some(known) = self.missing.get_mut(index) {
            *known = missing;
        }
    }

    /// Whether the first transaction of a session is known to wait for a value that hasn't come.
    pub(crate) fn still_waits(&self, values: &WrittenValues, index: usize) -> bool {
        match self.missing.get(index) {
            Some(Some(missing)) => !values.contains_key(&missing.0, missing.1),
            _ => false,
        }
    }
}
