//! Transactions of unknown outcome, and which of their values were read. The values that they wrote and nobody has read are a
//! set. A read takes its value out of the set, and into another one of what was found. So each read of a committed transaction
//! costs a look-up once, however many seals follow, and none where nothing is pending. Where new transactions are pending, one
//! pass over what is finished finds what was read before.
ghost use Rattle.std.specs.Prelude.{◌≡◌, ◌||◌, ℕ, List, [], true, not, filter, None, IfOk, OnOk};
ghost use Rattle.std.specs.List.{list_any};
ghost use Rattle.tcc_rows.specs.Followed.{Follows, IsFollowed, holds, is_written, puts};
ghost use Rattle.tcc_rows.specs.Settling.{Pending, gets, is_read, is_read_by, seen_among, unseen_among};
ghost use Rattle.tcc_rows.specs.private.Unread.{Strikes, is_among};
ghost use Rattle.tcc_txn.specs.Finished.{with_transaction};
ghost use Rattle.tcc_txn.specs.Snapshots.{Sessions, finished_at};

use std::alloc::Global;
use std::collections::BTreeSet;
use std::mem;
use tcc_txn::{Bounds, Name, NoMemory, Op, Recorded, SnapshotWithin, Txn};

/// Values that pending transactions wrote, with their keys.
#[derive(Drop)]
pub(crate) struct PendingValues {
    /// Those that no committed transaction has read. Some may be of transactions that aren't pending any more.
    unread: BTreeSet<(Name, u64)>,
    /// Those that were found to be read since the last settling.
    found: BTreeSet<(Name, u64)>,
}

/// Adds what an operation writes.
fn note_write(written: &mut BTreeSet<(Name, u64)>, op: &Op) -> Result<(), NoMemory>
    ensures { OnOk result ((w : List ℕ × ℕ) → holds written.new w ≡ (puts w op.now || holds written.old w)) }
{
    if let Op::Put { key, value } = op {
        written.insert((*key, *value))?;
    }
    Ok(())
}

/// Adds what a transaction writes.
fn note_writes(written: &mut BTreeSet<(Name, u64)>, txn: &Txn) -> Result<(), NoMemory>
    ensures { OnOk result ((w : List ℕ × ℕ) → holds written.new w ≡ (list_any (puts w) txn.now.ops || holds written.old w)) }
{
    for op in txn.ops() {
        note_write(written, op)?;
    }
    Ok(())
}

/// What the transactions write.
fn written_by(alloc: Global, pending: &[(Name, Txn)]) -> Result<BTreeSet<(Name, u64)>, NoMemory>
    ensures { IfOk result (λ written. (w : List ℕ × ℕ) → holds written w ≡ is_written pending.now w) }
{
    let mut written = BTreeSet::new(alloc);
    for one in pending {
        note_writes(&mut written, &one.1)?;
    }
    Ok(written)
}

/// Strikes out what an operation reads.
fn strike_read(values: &mut PendingValues, op: &Op) -> Result<(), NoMemory>
    ensures { OnOk result (Strikes (λ w. gets w op.now) values.old values.new) }
{
    if let Op::Get { key, value } = op {
        if values.unread.remove(&(*key, *value)) {
            values.found.insert((*key, *value))?;
        }
    }
    Ok(())
}

/// Strikes out what the operations read.
fn strike_reads(values: &mut PendingValues, ops: &[Op]) -> Result<(), NoMemory>
    ensures { OnOk result (Strikes (λ w. list_any (gets w) ops.now) values.old values.new) }
{
    for op in ops {
        strike_read(values, op)?;
    }
    Ok(())
}

/// Strikes out what a transaction reads, if it was committed. The vector is filled with its operations.
fn strike_recorded(
    values: &mut PendingValues,
    txn: &Recorded<'_>,
    ops: &mut Vec<Op>,
) -> Result<(), NoMemory>
    ensures { OnOk result (Strikes (λ w. is_read_by w txn.now) values.old values.new) }
{
    if !txn.committed() {
        return Ok(());
    }
    txn.fill(ops)?;
    strike_reads(values, ops)
}

/// Strikes out what the transactions of the session at an index read.
fn strike_session<B: Bounds>(
    values: &mut PendingValues,
    snapshot: &SnapshotWithin<B>,
    i: u32,
    ops: &mut Vec<Op>,
) -> Result<(), NoMemory>
    ensures { OnOk result (Strikes (λ w. list_any (is_read_by w) (finished_at snapshot.now i)) values.old values.new) }
{
    for index in 0..snapshot.finished(i) {
        if let Some(txn) = snapshot.recorded(i, index) {
            strike_recorded(values, &txn, ops)?;
        }
    }
    Ok(())
}

/// Strikes out all that was read.
fn strike_all<B: Bounds>(
    alloc: Global,
    values: &mut PendingValues,
    snapshot: &SnapshotWithin<B>,
) -> Result<(), NoMemory>
    ensures { OnOk result (Strikes (is_read snapshot.now) values.old values.new) }
{
    let mut ops = Vec::new(alloc);
    for i in 0..snapshot.sessions() {
        strike_session(values, snapshot, i, &mut ops)?;
    }
    Ok(())
}

/// What the pending transactions wrote, by one pass over all that is finished.
fn values_of<B: Bounds>(
    alloc: Global,
    snapshot: &SnapshotWithin<B>,
    pending: &[(Name, Txn)],
) -> Result<PendingValues, NoMemory>
    ensures { IfOk result (λ values. Follows snapshot.now pending.now values) }
{
    let mut values = PendingValues {
        unread: written_by(alloc, pending)?,
        found: BTreeSet::new(alloc),
    };
    strike_all(alloc, &mut values, snapshot)?;
    Ok(values)
}

/// Takes what is kept of the values of the pending transactions, or makes it where nothing is kept.
pub(crate) fn take_values<B: Bounds>(
    alloc: Global,
    kept: &mut Option<PendingValues>,
    snapshot: &SnapshotWithin<B>,
    pending: &[(Name, Txn)],
) -> Result<PendingValues, NoMemory>
    ensures values { IsFollowed snapshot.now pending.now kept.old → IfOk result (λ values. Follows snapshot.now pending.now values) }
    ensures taken { kept.new ≡ None }
{
    match mem::replace(kept, None) {
        Some(values) => Ok(values),
        None => values_of(alloc, snapshot, pending),
    }
}

/// A session finishes a transaction: what it reads is struck out, if it was committed and values are kept.
pub(crate) fn strike_finished(kept: &mut Option<PendingValues>, txn: &Txn) -> Result<(), NoMemory>
    ensures { OnOk result ((s : Sessions) (session : List ℕ) (pending : Pending) → IsFollowed s pending kept.old
        → IsFollowed (with_transaction s session txn.now) pending kept.new) }
{
    if txn.committed() {
        if let Some(values) = kept {
            strike_reads(values, txn.ops())?;
        }
    }
    Ok(())
}

/// Whether an operation writes what was found.
fn is_found(found: &BTreeSet<(Name, u64)>, op: &Op) -> bool
    ensures { result ≡ is_among found.now op.now }
{
    match op {
        Op::Put { key, value } => found.contains(&(*key, *value)),
        Op::Get { .. } => false,
    }
}

/// Whether a transaction writes what was found.
fn has_found(found: &BTreeSet<(Name, u64)>, txn: &Txn) -> bool
    ensures { result ≡ list_any (is_among found.now) txn.now.ops }
{
    txn.ops().iter().any(|op| is_found(found, op))
}

/// Transactions of unknown outcome: those of which a value was read, and the others.
#[derive(Drop)]
pub(crate) struct SettledOutcomes {
    pub(crate) seen: Vec<(Name, Txn)>,
    pub(crate) unseen: Vec<(Name, Txn)>,
}

/// Separates those that wrote what was found from the others.
fn separate(
    alloc: Global,
    found: &BTreeSet<(Name, u64)>,
    pending: Vec<(Name, Txn)>,
) -> Result<SettledOutcomes, NoMemory>
    ensures { IfOk result (λ settled. (settled.seen.items ≡ filter (λ p. list_any (is_among found.now) p.1.ops) pending.items)
        × (settled.unseen.items ≡ filter (λ p. not (list_any (is_among found.now) p.1.ops)) pending.items)) }
{
    let mut settled = SettledOutcomes {
        seen: Vec::new(alloc),
        unseen: Vec::new(alloc),
    };
    for one in pending {
        if has_found(found, &one.1) {
            settled.seen.push(one)?;
        } else {
            settled.unseen.push(one)?;
        }
    }
    Ok(settled)
}

impl PendingValues {
    /// Whether no value was found to be read since the last settling.
    pub(crate) fn has_none_found(&self) -> bool
        ensures { result ≡ true → (s : Sessions) (pending : Pending) → Follows s pending self.now
            → (seen_among s pending ≡ []) × (unseen_among s pending ≡ pending) }
    {
        self.found.is_empty()
    }

    /// Separates those of which a value was read from the others, whose values are kept.
    pub(crate) fn settle(
        &mut self,
        alloc: Global,
        pending: Vec<(Name, Txn)>,
    ) -> Result<SettledOutcomes, NoMemory>
        ensures { IfOk result (λ settled. (s : Sessions) → Follows s pending.items self.old
            → (settled.seen.items ≡ seen_among s pending.items) × (settled.unseen.items ≡ unseen_among s pending.items)
            × Follows s (unseen_among s pending.items) self.new) }
    {
        let settled = separate(alloc, &self.found, pending)?;
        self.found.clear();
        Ok(settled)
    }
}
