//! The places of the transactions of a snapshot, in one list, with the numbers of the committed ones.
ghost use Rattle.std.specs.Prelude.{◌≡◌, ◌<◌, ◌≤◌, ◌+◌, ◌∷◌, ◌++◌, true, All, List, length, drop, map, if◌then◌else◌, IfOk};
ghost use Rattle.std.specs.FinMap.{entries};
ghost use Rattle.tcc_txn.specs.{Finished.transaction_count, Limits.most_sessions, Limits.most_transactions, Snapshots.finished_at, declared.limits.TheConstants.LARGE_COUNT, declared.limits.TheConstants.MAX_OPERATIONS};
ghost use Rattle.tcc_reads.specs.Sites.{Stand, stands_in, stands};
ghost use Rattle.tcc_reads.specs.private.Numbers.{IsPlace, name_in, numbered, numbered_at, numbered_from};

use crate::located::{LocatedTxn, Place};
use std::alloc::{AllocError, Global};
use tcc_txn::{Bounds, Name, NoMemory, Op, Recorded, SnapshotWithin};

/// The name of a session of the snapshot.
fn name_at<B: Bounds>(snapshot: &SnapshotWithin<B>, session: u32) -> &Name
    requires { session < length (entries snapshot.now) }
    ensures { drop session (entries snapshot.now)
        ≡ (result.now, finished_at snapshot.now session) ∷ drop (session + 1) (entries snapshot.now) }
{
    snapshot.name(session).unwrap()
}

/// A transaction of the snapshot.
fn recorded_at<B: Bounds>(snapshot: &SnapshotWithin<B>, session: u32, before: usize) -> Recorded<'_>
    requires { before < length (finished_at snapshot.now session) }
    ensures { drop before (finished_at snapshot.now session) ≡ result ∷ drop (before + 1) (finished_at snapshot.now session) }
{
    snapshot.recorded(session, before).unwrap()
}

/// The transaction at a place.
fn located_at<'a, B: Bounds>(snapshot: &'a SnapshotWithin<B>, place: &Place) -> LocatedTxn<'a>
    requires { IsPlace snapshot.now place.now }
    ensures { result ≡ numbered_at snapshot.now place.now }
{
    LocatedTxn {
        session: place.session,
        name: name_at(snapshot, place.session),
        place: place.before + 1,
        number: place.number,
        txn: recorded_at(snapshot, place.session, place.before as usize),
    }
}

/// The transaction at a place. Its operations replace those in a vector.
pub(crate) fn unpack_txn<'a, B: Bounds>(
    snapshot: &'a SnapshotWithin<B>,
    place: &Place,
    ops: &mut Vec<Op>,
) -> Result<LocatedTxn<'a>, NoMemory>
    requires { IsPlace snapshot.now place.now }
    ensures located { IfOk result (λ located. located ≡ numbered_at snapshot.now place.now) }
    ensures ops { IfOk result (λ located. ops.new.items ≡ located.stand.txn.ops) }
    ensures few { IfOk result (λ _. length ops.new.items ≤ MAX_OPERATIONS) }
{
    let located = located_at(snapshot, place);
    located.txn.fill(ops)?;
    Ok(located)
}

/// The number that comes after a transaction.
fn next_number(number: u32, committed: bool) -> u32
    requires { number < LARGE_COUNT }
    ensures { result ≡ if committed then number + 1 else number }
{
    if committed { number + 1 } else { number }
}

/// Adds the places of the transactions of one session, the first of which has the number `first`. It returns the number that
/// comes after them.
fn push_session<B: Bounds>(
    list: &mut Vec<Place>,
    snapshot: &SnapshotWithin<B>,
    session: u32,
    first: u32,
) -> Result<u32, AllocError>
    requires some { session < length (entries snapshot.now) }
    requires few { first + length (finished_at snapshot.now session) ≤ LARGE_COUNT }
    ensures list { IfOk result (λ after. (rest : List Stand) → numbered snapshot.now list.new.items ++ numbered_from after rest
        ≡ numbered snapshot.now list.old.items ++ numbered_from first (stands_in session (name_in snapshot.now session) 1 (finished_at snapshot.now session) ++ rest)) }
    ensures few { IfOk result (λ after. after ≤ first + length (finished_at snapshot.now session)) }
    ensures places { All (IsPlace snapshot.now) list.old.items → IfOk result (λ _. All (IsPlace snapshot.now) list.new.items) }
{
    let mut number = first;
    for before in 0..snapshot.finished(session) {
        list.push(Place {
            session,
            before: before as u32,
            number,
        })?;
        let committed = recorded_at(snapshot, session, before).committed();
        number = next_number(number, committed);
    }
    Ok(number)
}

/// The places of all transactions, by session in byte order of the names.
pub(crate) fn places<B: Bounds>(
    alloc: Global,
    snapshot: &SnapshotWithin<B>,
) -> Result<Vec<Place>, AllocError>
    ensures list { IfOk result (λ list. numbered snapshot.now list.items ≡ numbered_from 1 (stands snapshot.now)) }
    ensures places { IfOk result (λ list. All (IsPlace snapshot.now) list.items) }
    ensures few_sessions { IfOk result (λ _. length (entries snapshot.now) ≤ most_sessions B.limits) }
    ensures few_transactions { IfOk result (λ _. transaction_count snapshot.now ≤ most_transactions B.limits) }
{
    let mut list = Vec::new(alloc);
    let mut number = 1;
    for session in 0..snapshot.sessions() {
        number = push_session(&mut list, snapshot, session, number)?;
    }
    Ok(list)
}

/// The names of all sessions, in byte order.
pub(crate) fn session_names<B: Bounds>(
    alloc: Global,
    snapshot: &SnapshotWithin<B>,
) -> Result<Vec<Name>, AllocError>
    ensures { IfOk result (λ names. names.items ≡ map (λ named. named.0) (entries snapshot.now)) }
{
    let mut names = Vec::new(alloc);
    for session in 0..snapshot.sessions() {
        names.push(*name_at(snapshot, session))?;
    }
    Ok(names)
}
