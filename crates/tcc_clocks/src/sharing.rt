//! Rows of numbers, one for each transaction, of which equal ones may be held once. A transaction has the index of its row,
//! and new rows are only appended. So a table of N transactions has at most N + 1 rows of 64 numbers, and usually far fewer.
//! Whether two transactions share a row is one comparison of indices. Transactions that share a row have equal rows; those
//! that don't may have equal rows too.
ghost use Rattle.std.specs.Prelude.{◌≡◌, ◌<◌, ℕ, true, length, set, All, IfOk, IfSome, OnOk};
ghost use Rattle.tcc_graph.specs.Tables.{row_of};

use crate::latest::WIDE;
use std::alloc::{AllocError, Global};
use std::marker::Model;
use tcc_txn::NoMemory;

/// A row: a number for each session of a block.
pub type Clock = [u32; WIDE];

/// A row for each transaction, which contracts see as a list of lists.
#[derive(Drop)]
pub struct SharedRows {
    rows: Vec<Clock>,
    which: Vec<u32>,
}

impl Model for SharedRows {
    ghost use Rattle.std.specs.Prelude.{◌<◌, ℕ, List, length, map, All};
    ghost use Rattle.tcc_graph.specs.Tables.{row_of};

    ghost Value = { List (List ℕ) };

    ghost view = { λ t. map (row_of t.rows.items) t.which.items };

    ghost invariant = { λ t. (0 < length t.rows.items) × All (λ n. n < length t.rows.items) t.which.items };
}

impl SharedRows {
    /// This many rows of zeros.
    pub fn new(alloc: Global, count: u32) -> Result<SharedRows, AllocError>
        ensures { IfOk result (λ t. length t ≡ count) }
    {
        // room for a row of each, beside that of zeros: it is allocated once, and none of it is touched before it is needed
        let mut rows = Vec::with_capacity(alloc, count as usize + 1)?;
        rows.push([0; WIDE])?;
        let which = vec![in alloc; 0; count as usize]?;
        Ok(SharedRows { rows, which })
    }

    /// Makes all rows zeros, and keeps their memory.
    pub fn clear(&mut self)
        ensures { length self.new ≡ length self.old }
    {
        self.rows.truncate(1);
        self.which.fill(0);
    }

    /// The row of a transaction.
    pub fn get(&self, number: u32) -> &[u32]
        requires { number < length self.now }
        ensures { result.now ≡ row_of self.now number }
    {
        &self.rows[self.which[number as usize] as usize]
    }

    /// Whether two transactions are known to have one row.
    pub fn are_same(&self, one: u32, other: u32) -> bool
        requires one { one < length self.now }
        requires other { other < length self.now }
        ensures { result ≡ true → row_of self.now one ≡ row_of self.now other }
    {
        self.which[one as usize] == self.which[other as usize]
    }

    /// Whether a transaction has this row.
    fn is(&self, number: u32, row: &[u32]) -> bool
        requires { number < length self.now }
        ensures { result ≡ true → row_of self.now number ≡ row.now }
    {
        self.get(number) == row
    }

    /// Gives a transaction the row of another.
    pub fn share(&mut self, number: u32, other: u32)
        requires number { number < length self.old }
        requires other { other < length self.old }
        ensures { self.new ≡ set self.old number (row_of self.old other) }
    {
        self.which[number as usize] = self.which[other as usize];
    }

    /// Gives a transaction a row of its own.
    fn put(&mut self, number: u32, row: &Clock) -> Result<(), NoMemory>
        requires { number < length self.old }
        ensures { OnOk result (self.new ≡ set self.old number row.now) }
    {
        let Ok(held) = u32::try_from(self.rows.len()) else {
            return Err(NoMemory);
        };
        self.rows.push(*row)?;
        self.which[number as usize] = held;
        Ok(())
    }

    /// One of these transactions that has this row; if there are several, the one whose row was added first. So transactions
    /// whose pasts become alike come to share one row.
    fn first_like(&self, row: &[u32], others: &[u32]) -> Option<u32>
        requires { All (λ p. p < length self.now) others.now }
        ensures inside { IfSome result (λ other. other < length self.now) }
        ensures like { IfSome result (λ other. row_of self.now other ≡ row.now) }
    {
        let mut like = None;
        let mut first = u32::MAX;
        for other in others {
            let held = self.which[*other as usize];
            if held < first && self.is(*other, row) {
                like = Some(*other);
                first = held;
            }
        }
        like
    }

    /// Gives a transaction a row: that of one of these if it is the same.
    pub fn put_like(&mut self, number: u32, row: &Clock, others: &[u32]) -> Result<(), NoMemory>
        requires number { number < length self.old }
        requires others { All (λ p. p < length self.old) others.now }
        ensures { OnOk result (self.new ≡ set self.old number row.now) }
    {
        match self.first_like(row, others) {
            Some(other) => {
                self.share(number, other);
                Ok(())
            }
            None => self.put(number, row),
        }
    }
}
