//! What can be traced of a snapshot some of whose operations are faulty.
ghost use Rattle.std.specs.Prelude.{All, ◌≡◌, ◌≤◌, length, map, ◌||◌, ◌∷◌, ◌++◌, [], List, ℕ, IfOk, OnOk};
ghost use Rattle.std.specs.BTreeSet.{contains};
ghost use Rattle.std.specs.List.{list_any};
ghost use Rattle.tcc_txn.specs.{KeyNumbers.AreNumbers, Transactions.op_key};
ghost use Rattle.tcc_txn.specs.declared.limits.TheConstants.{MAX_OPERATIONS};
ghost use Rattle.tcc_reads.specs.{History.initial, Indexed.IsWithin, Indexed.entries_of, Sources.pair_cmp, Faults.read_faults, private.KeyIndices.keys_used, private.Numbers.IsPlace, private.Numbers.numbered, private.Verdicts.writers_in, private.Verdicts.entries_found, private.Tracings.entries_traced, private.Tracings.is_outside};
ghost use Rattle.tcc_reads.specs.Traced.{is_duplicate, is_rewrite, is_unique, traced_history};

use crate::judging::trace;
use crate::located::{LocatedTxn, Place};
use crate::numbering::{self, session_names, unpack_txn};
use crate::resolver::{Findings, examine, places, with_initial, with_transaction};
use crate::writers::{FirstWrites, first_writes};
use crate::{LargeResolved, ReadFault, ReadFaultKind, Transactions};
use std::alloc::{AllocError, Global};
use std::collections::BTreeSet;
use tcc_txn::{Bounds, Name, NoMemory, Op, SnapshotWithin};

/// What can be traced of a snapshot, and what can't.
#[derive(Drop)]
pub struct Traced {
    /// The history without the reads that can't be traced, which so give no pair. Such a read has a fault, or reads a value
    /// that was written twice, so that nobody knows its source.
    pub history: LargeResolved,
    /// All faulty operations, by session name in byte order, place and operation.
    pub faults: Vec<ReadFault>,
}

fn is_duplicate(kind: ReadFaultKind) -> bool
    ensures { result ≡ is_duplicate kind }
{
    match kind {
        ReadFaultKind::Duplicate => true,
        ReadFaultKind::BrokenInternal => false,
        ReadFaultKind::ThinAir => false,
        ReadFaultKind::Aborted => false,
        ReadFaultKind::Intermediate => false,
        ReadFaultKind::Future => false,
    }
}

/// Adds a fault, if it is that a value was written before.
fn note_rewrite(found: &mut BTreeSet<(Name, u64)>, fault: &ReadFault) -> Result<(), AllocError>
    ensures { OnOk result ((r : List ℕ × ℕ) → contains pair_cmp found.new r ≡ (is_rewrite r.0 r.1 fault.now || contains pair_cmp found.old r)) }
{
    if is_duplicate(fault.kind) {
        found.insert((fault.key, fault.value))?;
    }
    Ok(())
}

/// The values that were written again at their keys.
fn rewrites(alloc: Global, faults: &[ReadFault]) -> Result<BTreeSet<(Name, u64)>, AllocError>
    ensures { IfOk result (λ found. (r : List ℕ × ℕ) → contains pair_cmp found r ≡ list_any (is_rewrite r.0 r.1) faults.now) }
{
    let mut found = BTreeSet::new(alloc);
    for fault in faults {
        note_rewrite(&mut found, fault)?;
    }
    Ok(found)
}

/// These transactions, and one of these operations, by the indices of their keys, if it was committed, with the reads that can
/// be traced.
fn trace_one(
    alloc: Global,
    first: &FirstWrites,
    rewrites: &BTreeSet<(Name, u64)>,
    located: &LocatedTxn<'_>,
    ops: &[Op],
    indices: &[u32],
    transactions: Transactions,
) -> Result<Transactions, NoMemory>
    requires ops { ops.now ≡ located.now.stand.txn.ops }
    requires few { length ops.now ≤ MAX_OPERATIONS }
    requires indices { AreNumbers first.now.writers.keys indices.now (map op_key ops.now) }
    ensures transactions { IfOk result (λ more. entries_of first.now.writers.keys more ≡ entries_of first.now.writers.keys transactions
        ++ entries_traced (writers_in first.now.writers) (is_outside rewrites.now) (located.now ∷ [])) }
    ensures within { IfOk result (λ more. All (IsWithin (length first.now.writers.keys)) transactions → All (IsWithin (length first.now.writers.keys)) more) }
{
    if !located.txn.committed() {
        return Ok(transactions);
    }
    let reads = trace(alloc, &first.writers, rewrites, located, ops, indices)?;
    let keys = first.writers.keys();
    with_transaction(alloc, transactions, keys, located, ops, indices, reads)
}

/// The initial and the committed transactions, with the reads that can be traced.
fn trace_all<B: Bounds>(
    alloc: Global,
    first: &FirstWrites,
    rewrites: &BTreeSet<(Name, u64)>,
    snapshot: &SnapshotWithin<B>,
    places: &[Place],
) -> Result<Transactions, NoMemory>
    requires places { All (IsPlace snapshot.now) places.now }
    requires indices { AreNumbers first.now.writers.keys first.now.indices.items (keys_used (numbered snapshot.now places.now)) }
    ensures transactions { IfOk result (λ traced. entries_of first.now.writers.keys traced
        ≡ initial ∷ entries_traced (writers_in first.now.writers) (is_outside rewrites.now) (numbered snapshot.now places.now)) }
    ensures within { IfOk result (λ traced. All (IsWithin (length first.now.writers.keys)) traced) }
{
    let mut transactions = with_initial(alloc)?;
    let mut ops = Vec::new(alloc);
    let mut left = first.indices.as_slice();
    for place in places {
        let located = unpack_txn(snapshot, place, &mut ops)?;
        let (mine, later) = left.split_at(ops.len());
        transactions = trace_one(alloc, first, rewrites, &located, &ops, mine, transactions)?;
        left = later;
    }
    Ok(transactions)
}

/// Keeps of what was found only the reads that can be traced, and all faults.
fn keep_traced<B: Bounds>(
    alloc: Global,
    first: &FirstWrites,
    snapshot: &SnapshotWithin<B>,
    places: &[Place],
    found: &mut Findings,
) -> Result<(), NoMemory>
    requires places { All (IsPlace snapshot.now) places.now }
    requires indices { AreNumbers first.now.writers.keys first.now.indices.items (keys_used (numbered snapshot.now places.now)) }
    requires found { entries_of first.now.writers.keys found.old.transactions ≡ initial ∷ entries_found (writers_in first.now.writers) (numbered snapshot.now places.now) }
    requires within { All (IsWithin (length first.now.writers.keys)) found.old.transactions }
    ensures transactions { OnOk result (entries_of first.now.writers.keys found.new.transactions
        ≡ initial ∷ entries_traced (writers_in first.now.writers) (is_unique found.old.faults.items) (numbered snapshot.now places.now)) }
    ensures within { OnOk result (All (IsWithin (length first.now.writers.keys)) found.new.transactions) }
    ensures faults { found.new.faults.items ≡ found.old.faults.items }
{
    let rewrites = rewrites(alloc, &found.faults)?;
    if rewrites.is_empty() {
        return Ok(());
    }
    found.transactions = trace_all(alloc, first, &rewrites, snapshot, places)?;
    Ok(())
}

/// Finds the source of each external read of a snapshot's committed transactions that can be traced, and all faults.
pub fn resolve_traced<B: Bounds>(
    alloc: Global,
    snapshot: &SnapshotWithin<B>,
) -> Result<Traced, NoMemory>
    ensures history { IfOk result (λ traced. traced.history ≡ traced_history snapshot.now) }
    ensures faults { IfOk result (λ traced. traced.faults.items ≡ read_faults snapshot.now) }
{
    let sessions = session_names(alloc, snapshot)?;
    let stands = numbering::places(alloc, snapshot)?;
    let first = first_writes(alloc, snapshot, &stands)?;
    let mut found = examine(alloc, &first, snapshot, &stands)?;
    keep_traced(alloc, &first, snapshot, &stands, &mut found)?;
    let places = places(alloc, &found.transactions)?;
    let history = LargeResolved {
        sessions,
        keys: first.writers.into_keys().into_names(),
        places,
        transactions: found.transactions,
    };
    Ok(Traced {
        history,
        faults: found.faults,
    })
}
