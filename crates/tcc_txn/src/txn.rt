//! Finished transactions.
ghost use Rattle.std.specs.Prelude.{◌≡◌, ◌≤◌, ℕ, length, None, Some, IfOk, MatchResult, position};
ghost use Rattle.tcc_txn.specs.{Transactions.writes_zero, Transactions.txn_fault, declared.limits.TheConstants.MAX_OPERATIONS};

use crate::{MAX_OPERATIONS, NoMemory, Op, Recorded};
use std::alloc::Global;
use std::marker::Model;
use thiserror::Error;

/// Why some operations make no transaction.
#[derive(Clone, Copy, Debug, PartialEq, Eq, Error)]
pub enum TxnFault {
    /// The first operation that writes 0, counted from 1.
    #[error("operation {at} writes 0")]
    WriteOfZero { at: usize },
    /// There are more than `MAX_OPERATIONS` operations.
    #[error("there are too many operations")]
    TooManyOps,
}

/// A finished transaction: up to `MAX_OPERATIONS` operations, none of which writes 0, and how it ended.
#[derive(Drop)]
pub struct Txn {
    ops: Vec<Op>,
    committed: bool,
}

impl Model for Txn {
    ghost use Rattle.std.specs.Prelude.{◌≡◌, None};
    ghost use Rattle.tcc_txn.specs.Transactions.{Transaction, txn_fault};

    ghost Value = { Transaction };

    ghost view = { λ t. record { ops = t.ops.items; committed = t.committed } };

    ghost invariant = { λ t. txn_fault t.ops.items ≡ None };
}

/// The first operation that writes 0.
fn first_write_of_zero(ops: &[Op]) -> Option<usize>
    ensures { result ≡ position writes_zero ops.now }
{
    ops.iter()
        .position(|op| matches!(op, Op::Put { value: 0, .. }))
}

impl Txn {
    /// The transaction of these operations. If they make none, the error says why and returns them.
    pub fn new(ops: Vec<Op>, committed: bool) -> Result<Txn, (TxnFault, Vec<Op>)>
        ensures { MatchResult result
            (λ t. (txn_fault ops.items ≡ None) × (t.ops ≡ ops.items) × (t.committed ≡ committed))
            (λ e. (txn_fault ops.items ≡ Some e.0) × (e.1.items ≡ ops.items)) }
    {
        if let Some(before) = first_write_of_zero(&ops) {
            return Err((TxnFault::WriteOfZero { at: before + 1 }, ops));
        }
        if ops.len() > MAX_OPERATIONS {
            return Err((TxnFault::TooManyOps, ops));
        }
        Ok(Txn { ops, committed })
    }

    /// Its operations, in order.
    pub fn ops(&self) -> &[Op]
        ensures value { result.now ≡ self.now.ops }
        ensures few { length result.now ≤ MAX_OPERATIONS }
        ensures lawful { txn_fault result.now ≡ None }
    {
        &self.ops
    }

    /// Whether it was committed.
    pub fn committed(&self) -> bool
        ensures { result ≡ self.now.committed }
    {
        self.committed
    }

    /// This transaction, as a snapshot would hold it.
    pub fn recorded(&self) -> Recorded<'_>
        ensures { result ≡ self.now }
    {
        Recorded::of(self)
    }

    /// An equal transaction.
    pub fn copy(&self, alloc: Global) -> Result<Txn, NoMemory>
        ensures { IfOk result (λ copy. copy ≡ self.now) }
    {
        Ok(Txn {
            ops: self.ops.as_slice().to_vec(alloc)?,
            committed: self.committed,
        })
    }
}
