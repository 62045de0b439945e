//! Transactions as a snapshot holds them.
ghost use Rattle.std.specs.Prelude.{◌≡◌, ◌≤◌, [], None, IfOk, OnErr, OnOk, length, map, slice_get, vec_capacity};
ghost use Rattle.tcc_txn.specs.{Transactions.txn_fault, private.Packing.AreNamed, private.Packing.op_in, declared.limits.TheConstants.MAX_OPERATIONS};

use crate::packed::PackedOp;
use crate::{Name, NoMemory, Op, Txn};
use std::alloc::Global;
use std::marker::Model;

/// A transaction by reference, or its operations with a table of the names of their keys.
#[derive(Drop)]
pub(crate) enum TxnStorage<'a> {
    Plain(&'a Txn),
    Packed {
        keys: &'a [Name],
        ops: &'a [PackedOp],
        committed: bool,
    },
}

/// A transaction as a snapshot holds it. Contracts see it as the transaction.
#[derive(Drop)]
pub struct Recorded<'a> {
    form: TxnStorage<'a>,
}

impl<'a> Model for Recorded<'a> {
    ghost use Rattle.tcc_txn.specs.{Transactions.Transaction, private.SnapshotStorage.transaction_code};

    ghost Value = { Transaction };

    ghost coded = { transaction_code };

    ghost use Rattle.tcc_txn.specs.private.Forms.{IsLawfulForm, transaction_of};

    ghost view = { λ r. transaction_of r.form };

    ghost invariant = { λ r. IsLawfulForm r.form };
}

/// Empties a vector and makes room for this many operations. Where memory runs out, it stays as it was.
fn clear_for(ops: &mut Vec<Op>, count: usize) -> Result<(), NoMemory>
    ensures empty { OnOk result (ops.new.items ≡ []) }
    ensures room { OnOk result (count ≤ vec_capacity ops.new) }
    ensures kept { OnErr result (ops.new.items ≡ ops.old.items) }
{
    ops.reserve(count.saturating_sub(ops.len()))?;
    ops.clear();
    Ok(())
}

/// Puts packed operations into an empty vector that has room for them.
fn put_packed(keys: &[Name], packed: &[PackedOp], ops: &mut Vec<Op>)
    requires named { AreNamed keys.now packed.now }
    requires empty { ops.old.items ≡ [] }
    requires room { length packed.now ≤ vec_capacity ops.old }
    ensures { ops.new.items ≡ map (op_in keys.now) packed.now }
{
    for op in packed {
        ops.push_reserved(op.named(keys));
    }
}

impl<'a> Recorded<'a> {
    /// The transaction, as a snapshot would hold it.
    pub(crate) fn of(txn: &'a Txn) -> Recorded<'a>
        ensures { result ≡ txn.now }
    {
        Recorded {
            form: TxnStorage::Plain(txn),
        }
    }

    /// The transaction of packed operations.
    pub(crate) fn packed(keys: &'a [Name], ops: &'a [PackedOp], committed: bool) -> Recorded<'a>
        requires named { AreNamed keys.now ops.now }
        requires lawful { txn_fault (map (op_in keys.now) ops.now) ≡ None }
        ensures { result ≡ record { ops = map (op_in keys.now) ops.now; committed = committed } }
    {
        Recorded {
            form: TxnStorage::Packed {
                keys,
                ops,
                committed,
            },
        }
    }

    /// Whether it was committed.
    pub fn committed(&self) -> bool
        ensures { result ≡ self.now.committed }
    {
        match &self.form {
            TxnStorage::Plain(txn) => txn.committed(),
            TxnStorage::Packed { committed, .. } => *committed,
        }
    }

    /// How many operations it has.
    pub fn len(&self) -> usize
        ensures value { result ≡ length self.now.ops }
        ensures few { result ≤ MAX_OPERATIONS }
    {
        match &self.form {
            TxnStorage::Plain(txn) => txn.ops().len(),
            TxnStorage::Packed { ops, .. } => ops.len(),
        }
    }

    /// The operation at an index, counted from 0.
    pub fn op(&self, index: usize) -> Option<Op>
        ensures { result ≡ slice_get self.now.ops index }
    {
        match &self.form {
            TxnStorage::Plain(txn) => txn.ops().get(index).copied(),
            TxnStorage::Packed { keys, ops, .. } => match ops.get(index) {
                Some(op) => Some(op.named(keys)),
                None => None,
            },
        }
    }

    /// Puts its operations in place of those in a vector. Where memory runs out, the vector stays as it was.
    pub fn fill(&self, ops: &mut Vec<Op>) -> Result<(), NoMemory>
        ensures value { OnOk result (ops.new.items ≡ self.now.ops) }
        ensures kept { OnErr result (ops.new.items ≡ ops.old.items) }
        ensures few { length self.now.ops ≤ MAX_OPERATIONS }
        ensures lawful { txn_fault self.now.ops ≡ None }
    {
        match &self.form {
            TxnStorage::Plain(txn) => {
                clear_for(ops, txn.ops().len())?;
                ops.extend_from_slice(txn.ops())?;
                Ok(())
            }
            TxnStorage::Packed {
                keys,
                ops: packed,
                ..
            } => {
                clear_for(ops, packed.len())?;
                put_packed(keys, packed, ops);
                Ok(())
            }
        }
    }

    /// An equal transaction of its own.
    pub fn to_txn(&self, alloc: Global) -> Result<Txn, NoMemory>
        ensures { IfOk result (λ txn. txn ≡ self.now) }
    {
        match &self.form {
            TxnStorage::Plain(txn) => txn.copy(alloc),
            TxnStorage::Packed {
                keys,
                ops: packed,
                committed,
            } => {
                let mut ops = Vec::with_capacity(alloc, packed.len())?;
                put_packed(keys, packed, &mut ops);
                Ok(Txn::new(ops, *committed).unwrap())
            }
        }
    }
}
