//! The resolver.
ghost use Rattle.std.specs.Prelude.{All, ◌≡◌, ◌<◌, ◌≤◌, ◌+◌, ℕ, List, true, [], ◌∷◌, ◌++◌, drop, length, map, sum_by, filter_map, flat_map, IfOk, OnOk, MatchResult};
ghost use Rattle.tcc_txn.specs.{KeyNumbers.AreNumbers, KeyNumbers.name_at, Limits.most_sessions, Limits.most_transactions, Transactions.op_key, declared.limits.TheConstants.MAX_OPERATIONS};
ghost use Rattle.tcc_reads.specs.{Faults.read_faults, Refusals.IsRefusal, private.KeyIndices.keys_used, private.Numbers.IsPlace, private.Numbers.numbered};
ghost use Rattle.tcc_reads.specs.History.{initial, count};
ghost use Rattle.tcc_reads.specs.Indexed.{IsWithin, entry_of, entries_of, named};
ghost use Rattle.tcc_reads.specs.Sources.{name_cmp, pair_cmp, key_put, sorted_once, writes_of, history};
ghost use Rattle.tcc_reads.specs.private.Verdicts.{writers_in, AreOwn, AreOwnIn, faults_found, entries_found};

use crate::judging::judge;
use crate::keys::Keys;
use crate::located::{LocatedTxn, Place};
use crate::numbering::{self, session_names, unpack_txn};
use crate::sorting::sorted_once;
use crate::writers::{FirstWrites, fill_keys, first_writes};
use crate::{LargeResolved, ReadFault, ResolveFault, Resolved, Transactions};
use std::alloc::{AllocError, Global};
use tcc_txn::{Bounds, LargeSnapshot, NoMemory, Op, Snapshot, SnapshotWithin};

/// The indices of the keys that some operations write, in order, each once.
fn written_keys(
    alloc: Global,
    keys: &Keys,
    ops: &[Op],
    indices: &[u32],
) -> Result<Vec<u32>, NoMemory>
    requires { AreNumbers keys.now indices.now (map op_key ops.now) }
    ensures names { IfOk result (λ written. map (name_at keys.now) written.items ≡ sorted_once name_cmp (filter_map key_put ops.now)) }
    ensures within { IfOk result (λ written. All (λ k. k < length keys.now) written.items) }
{
    keys.are_sorted();
    let mut written = Vec::new(alloc);
    fill_keys(&mut written, keys, ops, indices)?;
    Ok(sorted_once(written))
}

/// The indices of keys that are read, each with its source, in order, each pair once.
fn reads_in_order(keys: &Keys, reads: Vec<(u32, u32)>) -> Vec<(u32, u32)>
    requires { All (λ read. read.0 < length keys.now) reads.items }
    ensures names { named keys.now result.items ≡ sorted_once pair_cmp (named keys.now reads.items) }
    ensures within { All (λ read. read.0 < length keys.now) result.items }
{
    keys.are_sorted();
    sorted_once(reads)
}

/// These transactions, and a committed one of these operations, by the indices of their keys, with its external reads.
pub(crate) fn with_transaction(
    alloc: Global,
    transactions: Transactions,
    keys: &Keys,
    located: &LocatedTxn<'_>,
    ops: &[Op],
    indices: &[u32],
    reads: Vec<(u32, u32)>,
) -> Result<Transactions, NoMemory>
    requires ops { ops.now ≡ located.now.stand.txn.ops }
    requires indices { AreNumbers keys.now indices.now (map op_key ops.now) }
    requires within { All (λ read. read.0 < length keys.now) reads.items }
    ensures entries { IfOk result (λ more. entries_of keys.now more ≡ entries_of keys.now transactions ++ record {
      owner = located.now.stand.session;
      place = located.now.stand.place;
      writes = writes_of located.now.stand;
      reads = sorted_once pair_cmp (named keys.now reads.items);
    } ∷ []) }
    ensures within { IfOk result (λ more. All (IsWithin (length keys.now)) transactions → All (IsWithin (length keys.now)) more) }
{
    let writes = written_keys(alloc, keys, ops, indices)?;
    let reads = reads_in_order(keys, reads);
    let more = transactions.with((located.session, located.place), &writes, &reads)?;
    Ok(more)
}

/// These transactions, and one of these operations, by the indices of their keys, if it was committed. It adds its faults.
fn examine_one(
    alloc: Global,
    first: &FirstWrites,
    located: &LocatedTxn<'_>,
    ops: &[Op],
    indices: &[u32],
    transactions: Transactions,
    faults: &mut Vec<ReadFault>,
) -> Result<Transactions, NoMemory>
    requires ops { ops.now ≡ located.now.stand.txn.ops }
    requires few { length ops.now ≤ MAX_OPERATIONS }
    requires indices { AreNumbers first.now.writers.keys indices.now (map op_key ops.now) }
    requires own { first.now.distinct ≡ true → AreOwnIn (writers_in first.now.writers) located.now [] ops.now }
    ensures transactions { IfOk result (λ more. entries_of first.now.writers.keys more
        ≡ entries_of first.now.writers.keys transactions ++ entries_found (writers_in first.now.writers) (located.now ∷ [])) }
    ensures within { IfOk result (λ more. All (IsWithin (length first.now.writers.keys)) transactions → All (IsWithin (length first.now.writers.keys)) more) }
    ensures faults { OnOk result (faults.new.items ≡ faults.old.items ++ faults_found (writers_in first.now.writers) located.now) }
{
    let (writers, distinct) = (&first.writers, first.distinct);
    let reads = judge(alloc, writers, distinct, located, ops, indices, faults)?;
    if !located.txn.committed() {
        return Ok(transactions);
    }
    let keys = writers.keys();
    with_transaction(alloc, transactions, keys, located, ops, indices, reads)
}

/// The initial and the committed transactions, and all faults.
#[derive(Drop)]
pub(crate) struct Findings {
    pub transactions: Transactions,
    pub faults: Vec<ReadFault>,
}

/// The initial transaction alone.
pub(crate) fn with_initial(alloc: Global) -> Result<Transactions, AllocError>
    ensures entry { IfOk result (λ transactions. (keys : List (List ℕ)) → entries_of keys transactions ≡ initial ∷ []) }
    ensures within { IfOk result (λ transactions. (n : ℕ) → All (IsWithin n) transactions) }
{
    Transactions::new(alloc).with((0, 0), &[], &[])
}

pub(crate) fn examine<B: Bounds>(
    alloc: Global,
    first: &FirstWrites,
    snapshot: &SnapshotWithin<B>,
    places: &[Place],
) -> Result<Findings, NoMemory>
    requires places { All (IsPlace snapshot.now) places.now }
    requires indices { AreNumbers first.now.writers.keys first.now.indices.items (keys_used (numbered snapshot.now places.now)) }
    requires own { first.now.distinct ≡ true → AreOwn (writers_in first.now.writers) (numbered snapshot.now places.now) }
    ensures transactions { IfOk result (λ found. entries_of first.now.writers.keys found.transactions
        ≡ initial ∷ entries_found (writers_in first.now.writers) (numbered snapshot.now places.now)) }
    ensures within { IfOk result (λ found. All (IsWithin (length first.now.writers.keys)) found.transactions) }
    ensures faults { IfOk result (λ found. found.faults.items ≡ flat_map (faults_found (writers_in first.now.writers)) (numbered snapshot.now places.now)) }
{
    let mut transactions = with_initial(alloc)?;
    let mut faults = Vec::new(alloc);
    let mut ops = Vec::new(alloc);
    let mut left = first.indices.as_slice();
    for place in places {
        let located = unpack_txn(snapshot, place, &mut ops)?;
        let (mine, later) = left.split_at(ops.len());
        transactions = examine_one(
            alloc,
            first,
            &located,
            &ops,
            mine,
            transactions,
            &mut faults,
        )?;
        left = later;
    }
    Ok(Findings {
        transactions,
        faults,
    })
}

/// The index of the session and the place, from number 1 on.
pub(crate) fn places(
    alloc: Global,
    transactions: &Transactions,
) -> Result<Vec<(u32, u32)>, AllocError>
    ensures { IfOk result (λ places. places.items ≡ map (λ p. (p.owner, p.place)) (drop 1 transactions.now)) }
{
    transactions.places().iter().skip(1).copied().collect(alloc)
}

/// Finds the source of each external read of the committed transactions of a snapshot within either limits, or else all
/// faults.
fn resolve_within<B: Bounds>(
    alloc: Global,
    snapshot: &SnapshotWithin<B>,
) -> Result<LargeResolved, ResolveFault>
    ensures value { MatchResult result
        (λ resolved. (read_faults snapshot.now ≡ []) × (resolved ≡ history snapshot.now))
        (IsRefusal snapshot.now) }
    ensures few { IfOk result (λ resolved. count resolved ≤ most_transactions B.limits + 1) }
    ensures sessions { IfOk result (λ resolved. length resolved.sessions ≤ most_sessions B.limits) }
{
    let sessions = session_names(alloc, snapshot)?;
    let stands = numbering::places(alloc, snapshot)?;
    let first = first_writes(alloc, snapshot, &stands)?;
    let Findings {
        transactions,
        faults,
    } = examine(alloc, &first, snapshot, &stands)?;
    if faults.is_empty() {
        let places = places(alloc, &transactions)?;
        Ok(LargeResolved {
            sessions,
            keys: first.writers.into_keys().into_names(),
            places,
            transactions,
        })
    } else {
        Err(ResolveFault::Reads(faults))
    }
}

/// Finds the source of each external read of the snapshot's committed transactions, or else all faults.
///
/// ```rust
/// match resolve(alloc, snapshot) {
///     Ok(_resolved) => Ok(0),
///     Err(ResolveFault::Reads(faults)) => Ok(faults.len()),
///     Err(ResolveFault::NoMemory) => Err(NoMemory.into()),
/// }
/// ```
pub fn resolve(alloc: Global, snapshot: &Snapshot) -> Result<Resolved, ResolveFault>
    ensures { MatchResult result
        (λ resolved. (read_faults snapshot.now ≡ []) × (resolved ≡ history snapshot.now))
        (IsRefusal snapshot.now) }
{
    let large = resolve_within(alloc, snapshot)?;
    let named = large.named(alloc)?;
    Ok(Resolved { large, named })
}

/// Finds the source of each external read of a large snapshot's committed transactions, or else all faults.
pub fn resolve_large(alloc: Global, snapshot: &LargeSnapshot) -> Result<LargeResolved, ResolveFault>
    ensures { MatchResult result
        (λ resolved. (read_faults snapshot.now ≡ []) × (resolved ≡ history snapshot.now))
        (IsRefusal snapshot.now) }
{
    resolve_within(alloc, snapshot)
}
