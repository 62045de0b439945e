//! How far the values of each client have counted up. A value is `counter * clients + client`. So one comparison shows whether a value
//! that nobody is known to have written can still come. It holds 8 bytes for each client.
ghost use Rattle.std.specs.Prelude.{◌≡◌, ◌<◌, ◌↔◌, ◌++◌, ℕ, List, [], ◌∷◌, ◌%◌, false, length, All, IfOk, IsTrue, MatchResult};
ghost use Rattle.tcc_txn.specs.Transactions.{writes_zero};
ghost use Rattle.tcc_forget.specs.Counters.{AreHighest, CountUp, IsCounterFault, IsPassed, WritesPassed, values_written};

use std::alloc::Global;
use std::marker::Model;
use tcc_txn::{NoMemory, Op};
use thiserror::Error;

/// Why the values of a transaction aren't taken.
#[derive(Clone, Copy, Debug, PartialEq, Eq, Error)]
pub enum CounterFault {
    /// The first operation, counted from 1, that writes no higher value than its client had written before.
    #[error("operation {at} counts back")]
    CountsBack { at: usize },
    /// Out of memory.
    #[error("out of memory")]
    NoMemory,
}

/// The highest value of each client, or 0 where it has written none.
#[derive(Drop)]
pub struct Counters {
    highest: Vec<u64>,
}

impl Model for Counters {
    ghost use Rattle.std.specs.Prelude.{ℕ, List, length, ◌<◌};

    ghost Value = { List ℕ };

    ghost view = { λ c. c.highest.items };

    ghost invariant = { λ c. 0 < length c.highest.items };
}

impl Counters {
    /// None of so many clients has written anything.
    pub fn new(alloc: Global, clients: usize) -> Result<Counters, NoMemory>
        requires { 0 < clients }
        ensures long { IfOk result (λ counters. length counters ≡ clients) }
        ensures none { IfOk result (AreHighest []) }
    {
        Ok(Counters {
            highest: vec![in alloc; 0u64; clients]?,
        })
    }

    /// The client of a value.
    fn client(&self, value: u64) -> usize
        ensures { result ≡ value % length self.now }
    {
        (value % self.highest.len() as u64) as usize
    }

    /// Whether a value doesn't come any more: its client has written it, or a higher one. The initial value 0 is nobody's.
    pub fn has_passed(&self, value: u64) -> bool
        ensures { (written : List ℕ) → AreHighest written self.now → 0 < value → IsTrue result ↔ IsPassed (length self.now) written value }
    {
        value <= self.highest[self.client(value)]
    }

    /// Takes a value, which is its client's highest from now on; false, and all as it was, where its client has passed it.
    fn raise(&mut self, value: u64) -> bool
        ensures raised { (written : List ℕ) → AreHighest written self.old → 0 < value → IsTrue result
            → (IsPassed (length self.old) written value → ⊥) × AreHighest (written ++ value ∷ []) self.new }
        ensures passed { (written : List ℕ) → AreHighest written self.old → 0 < value → (IsTrue result → ⊥)
            → IsPassed (length self.old) written value }
        ensures long { length self.new ≡ length self.old }
        ensures kept { (IsTrue result → ⊥) → self.new ≡ self.old }
    {
        if self.has_passed(value) {
            return false;
        }
        let client = self.client(value);
        self.highest[client] = value;
        true
    }

    /// An equal one.
    fn copy(&self, alloc: Global) -> Result<Counters, NoMemory>
        ensures { IfOk result (λ copy. copy ≡ self.now) }
    {
        Ok(Counters {
            highest: self.highest.as_slice().to_vec(alloc)?,
        })
    }

    /// Takes what an operation writes; false, and all as it was, where its client has passed it.
    fn take_op(&mut self, op: &Op) -> bool
        ensures taken { (written : List ℕ) → AreHighest written self.old → writes_zero op.now ≡ false → IsTrue result
            → (WritesPassed (length self.old) written op.now → ⊥) × AreHighest (written ++ values_written (op.now ∷ [])) self.new }
        ensures back { (written : List ℕ) → AreHighest written self.old → writes_zero op.now ≡ false → (IsTrue result → ⊥)
            → WritesPassed (length self.old) written op.now }
        ensures long { length self.new ≡ length self.old }
    {
        match op {
            Op::Get { .. } => true,
            Op::Put { value, .. } => self.raise(*value),
        }
    }

    /// Takes the values that the operations of a transaction write, each higher than all of its client before. None of them writes 0, as
    /// in each `Txn`. Refused, all is as it was.
    pub fn take(&mut self, alloc: Global, ops: &[Op]) -> Result<(), CounterFault>
        ensures taken { (written : List ℕ) → AreHighest written self.old → All (λ op. writes_zero op ≡ false) ops.now → MatchResult result
            (λ taken. CountUp (length self.old) written ops.now × AreHighest (written ++ values_written ops.now) self.new)
            (λ fault. (self.new ≡ self.old) × IsCounterFault (length self.old) written ops.now fault) }
        ensures long { length self.new ≡ length self.old }
    {
        let Ok(mut next) = self.copy(alloc) else {
            return Err(CounterFault::NoMemory);
        };
        for (before, op) in ops.iter().enumerate() {
            if !next.take_op(op) {
                return Err(CounterFault::CountsBack { at: before + 1 });
            }
        }
        *self = next;
        Ok(())
    }
}
