//! The operations of a transaction that is not finished.
ghost use Rattle.std.specs.Prelude.{◌≡◌, ◌≤◌, ◌<◌, ◌⊎◌, ◌++◌, ◌∷◌, [], false, true, length, OnOk, IfErr, ◌≢◌};
ghost use Rattle.tcc_rows.specs.private.Drafts.{AddsOp};
ghost use Rattle.tcc_rows.specs.Past.{writes_of};
ghost use Rattle.tcc_txn.specs.{Transactions.writes_zero, declared.limits.TheConstants.MAX_OPERATIONS};

use crate::RowFaultKind;
use std::alloc::Global;
use std::marker::Model;
use tcc_txn::{MAX_OPERATIONS, Op, Txn};

/// Up to `MAX_OPERATIONS` operations, none of which writes 0, and the numbers of their keys among the keys so far.
#[derive(Drop)]
pub(crate) struct Draft {
    ops: Vec<Op>,
    numbers: Vec<u32>,
}

impl Model for Draft {
    ghost use Rattle.std.specs.Prelude.{◌≡◌, List, None};
    ghost use Rattle.tcc_txn.specs.{Transactions.txn_fault, declared.op.Op.Op};

    ghost Value = { List Op };

    ghost view = { λ d. d.ops.items };

    ghost invariant = { λ d. txn_fault d.ops.items ≡ None };
}

impl Draft {
    /// No operations. The vector `room` is reused for the numbers of keys.
    pub(crate) fn new(alloc: Global, room: Vec<u32>) -> Draft
        ensures { result ≡ [] }
    {
        let mut numbers = room;
        numbers.clear();
        Draft {
            ops: Vec::new(alloc),
            numbers,
        }
    }

    /// One more operation.
    fn push(&mut self, op: Op) -> Result<(), RowFaultKind>
        requires { writes_zero op ≡ false }
        ensures room { OnOk result (length self.old < MAX_OPERATIONS) }
        ensures pushed { OnOk result (self.new ≡ self.old ++ op ∷ []) }
        ensures refused { IfErr result (λ k. ((k ≡ RowFaultKind.TooManyOps) × (MAX_OPERATIONS ≤ length self.old)) ⊎ (k ≡ RowFaultKind.NoMemory)) }
        ensures other { IfErr result (λ kind. kind ≢ RowFaultKind.Read) }
    {
        if self.ops.len() >= MAX_OPERATIONS {
            return Err(RowFaultKind::TooManyOps);
        }
        if self.ops.push(op).is_err() {
            return Err(RowFaultKind::NoMemory);
        }
        Ok(())
    }

    /// The number of the key of its last operation.
    fn note(&mut self, number: u32) -> Result<(), RowFaultKind>
        ensures kept { self.new ≡ self.old }
        ensures memory { IfErr result (λ kind. kind ≡ RowFaultKind.NoMemory) }
    {
        if self.numbers.push(number).is_err() {
            return Err(RowFaultKind::NoMemory);
        }
        Ok(())
    }

    /// The transaction of the operations, whose keys have these numbers.
    pub(crate) fn finish(self, committed: bool, numbers: &mut Vec<u32>) -> Txn
        ensures { result ≡ record { ops = self; committed = committed } }
    {
        *numbers = self.numbers;
        Txn::new(self.ops, committed).unwrap()
    }

    /// The transaction of the writes alone, as it is if it counts as committed.
    pub(crate) fn finish_writes(self) -> Txn
        ensures { result ≡ record { ops = writes_of self; committed = true } }
    {
        let mut ops = self.ops;
        keep_writes(&mut ops);
        Txn::new(ops, true).unwrap()
    }
}

/// Keeps the writes among the operations.
fn keep_writes(ops: &mut Vec<Op>)
    ensures { ops.new.items ≡ writes_of ops.old.items }
{
    ops.retain(|op| matches!(op, Op::Put { .. }));
}

/// One more operation of a transaction, if one is begun.
pub(crate) fn add_operation(begun: &mut Option<Draft>, op: Op) -> Result<(), RowFaultKind>
    requires { writes_zero op ≡ false }
    ensures added { AddsOp op begun.old result begun.new }
    ensures other { IfErr result (λ kind. kind ≢ RowFaultKind.Read) }
{
    match begun {
        Some(draft) => draft.push(op),
        None => Err(RowFaultKind::NotBegun),
    }
}

/// The key of the last operation of the transaction has the number.
pub(crate) fn note_number(begun: &mut Option<Draft>, number: u32) -> Result<(), RowFaultKind>
    ensures kept { begun.new ≡ begun.old }
    ensures memory { IfErr result (λ kind. kind ≡ RowFaultKind.NoMemory) }
{
    match begun {
        Some(draft) => draft.note(number),
        None => Ok(()),
    }
}
