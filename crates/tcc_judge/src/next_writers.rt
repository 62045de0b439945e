//! For each key and each session of a block the next writer after a place of an order, along the order backwards.
ghost use Rattle.std.specs.Prelude.{◌≡◌, ◌<◌, ℕ, List, true, length, set, All, IfOk, OnOk, replicate};
ghost use Rattle.tcc_graph.specs.Tables.{row_of};
ghost use Rattle.tcc_judge.specs.{declared.least.TheConstants.NONE, private.NextWriters.AreLowered, private.NextWriters.lowered};
ghost use Rattle.tcc_clocks.specs.declared.latest.TheConstants.{WIDE};

use crate::least::NONE;
use std::alloc::{AllocError, Global};
use std::marker::Model;
use tcc_clocks::{Clock, WIDE};
use tcc_txn::NoMemory;

/// A row for each key, of the least number noted for each session, which contracts see as a list of lists. One row, held once, is that of
/// all keys for which nothing was noted.
#[derive(Drop)]
pub(crate) struct NextWriters {
    rows: Vec<Clock>,
    which: Vec<u32>,
}

impl Model for NextWriters {
    ghost use Rattle.std.specs.Prelude.{◌<◌, ℕ, List, length, map, All};
    ghost use Rattle.tcc_judge.specs.private.NextWriters.{AreHeldOnce};
    ghost use Rattle.tcc_graph.specs.Tables.{row_of};

    ghost Value = { List (List ℕ) };

    ghost view = { λ t. map (row_of t.rows.items) t.which.items };

    ghost invariant = { λ t. AreHeldOnce t.rows.items t.which.items };
}

impl NextWriters {
    /// For `keys` keys, with nothing noted yet.
    pub(crate) fn new(alloc: Global, keys: usize) -> Result<NextWriters, AllocError>
        ensures { IfOk result (λ t. t ≡ replicate keys (replicate WIDE NONE)) }
    {
        let mut rows = Vec::new(alloc);
        rows.push([NONE; WIDE])?;
        let which = vec![in alloc; 0; keys]?;
        Ok(NextWriters { rows, which })
    }

    /// Forgets all rows, and keeps their memory.
    pub(crate) fn clear(&mut self)
        ensures { self.new ≡ replicate (length self.old) (replicate WIDE NONE) }
    {
        self.rows.truncate(1);
        self.which.fill(0);
    }

    /// The row of a key.
    pub(crate) fn get(&self, key_index: u32) -> &[u32]
        requires { key_index < length self.now }
        ensures { result.now ≡ row_of self.now key_index }
    {
        &self.rows[self.which[key_index as usize] as usize]
    }

    /// Whether nothing was noted for a key: its row has no number of a session.
    pub(crate) fn is_nobodys(&self, key_index: u32) -> bool
        requires { key_index < length self.now }
        ensures { result ≡ true → row_of self.now key_index ≡ replicate WIDE NONE }
    {
        self.which[key_index as usize] == 0
    }

    /// Lowers the number of a key and a session to this one.
    pub(crate) fn lower(
        &mut self,
        key_index: u32,
        session: usize,
        number: u32,
    ) -> Result<(), NoMemory>
        requires key { key_index < length self.old }
        requires session { session < WIDE }
        ensures { OnOk result (self.new ≡ set self.old key_index (lowered (row_of self.old key_index) session number)) }
    {
        let held = self.which[key_index as usize];
        if held != 0 {
            let row = &mut self.rows[held as usize];
            row[session] = number.min(row[session]);
            return Ok(());
        }
        let Ok(own) = u32::try_from(self.rows.len()) else {
            return Err(NoMemory);
        };
        let mut row = [NONE; WIDE];
        row[session] = number;
        self.rows.push(row)?;
        self.which[key_index as usize] = own;
        Ok(())
    }
}

/// Lowers the number of these keys and a session to this one.
pub(crate) fn lower_all(
    next: &mut NextWriters,
    key_indices: &[u32],
    session: usize,
    number: u32,
) -> Result<(), NoMemory>
    requires keys { All (λ key_index. key_index < length next.old) key_indices.now }
    requires wide { (k : ℕ) → k < length next.old → length (row_of next.old k) ≡ WIDE }
    requires session { session < WIDE }
    ensures { OnOk result (AreLowered key_indices.now session number next.old next.new) }
{
    for key_index in key_indices {
        next.lower(*key_index, session, number)?;
    }
    Ok(())
}
