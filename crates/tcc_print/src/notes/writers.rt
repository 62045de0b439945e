//! Which write a read fault is about.
ghost use Rattle.std.specs.Prelude.{◌≡◌, ◌++◌, ℕ, List, None, Some, MatchOption, OnOk, find, slice_get};
ghost use Rattle.std.specs.FinMap.{entries};
ghost use Rattle.tcc_txn.specs.Transactions.{Transaction};
ghost use Rattle.tcc_reads.specs.{Faults.puts, Faults.writer, Sites.Site, Sites.Stand, Sites.at, Sites.sites_of, Sites.stands, Sites.stands_in};
ghost use Rattle.tcc_print.specs.{Notes.write_told, Notes.writer_told, private.Writes.IsFirstWrite};

use std::alloc::Global;
use tcc_answer::pieces::push;
use tcc_reads::{ReadFault, ReadFaultKind};
use tcc_txn::{Bounds, Name, NoMemory, Op, Recorded, SnapshotWithin};

/// The place of a write: its session, the place of its transaction there and its own in the transaction, from 1.
#[derive(Clone, Copy)]
pub(super) struct WritePlace {
    session: Name,
    place: usize,
    op: usize,
}

/// Whether the operation writes the value at the key.
fn writes(op: Op, key: Name, value: u64) -> bool
    ensures { result ≡ puts key value op }
{
    match op {
        Op::Put {
            key: written,
            value: other,
        } => written == key && other == value,
        Op::Get { .. } => false,
    }
}

/// The first write of the value at the key in a transaction: its place there, from 1.
fn write_in(txn: &Recorded, key: Name, value: u64) -> Option<usize>
    ensures { (stand : Stand) → stand.txn ≡ txn.now → MatchOption result (find (λ site. puts key value site.op) (sites_of stand) ≡ None)
        (λ op. (site : Site) × (find (λ site. puts key value site.op) (sites_of stand) ≡ Some site) × (site.stand ≡ stand) × (op ≡ at site)) }
{
    for index in 0..txn.len() {
        if writes(txn.op(index)?, key, value) {
            return Some(index + 1);
        }
    }
    None
}

/// The first write of the value at the key in the transactions of the session at this index.
fn write_among<B: Bounds>(
    snapshot: &SnapshotWithin<B>,
    session: u32,
    key: Name,
    value: u64,
) -> Option<WritePlace>
    ensures { (part : List ℕ × List Transaction) → slice_get (entries snapshot.now) session ≡ Some part
        → IsFirstWrite (stands_in session part.0 1 part.1) key value result }
{
    for place in 0..snapshot.finished(session) {
        let txn = snapshot.recorded(session, place)?;
        if let Some(op) = write_in(&txn, key, value) {
            return Some(WritePlace {
                session: *snapshot.name(session)?,
                place: place + 1,
                op,
            });
        }
    }
    None
}

/// The first write of the value at the key in the sessions, one after the other.
fn first_write<B: Bounds>(snapshot: &SnapshotWithin<B>, key: Name, value: u64) -> Option<WritePlace>
    ensures { IsFirstWrite (stands snapshot.now) key value result }
{
    for session in 0..snapshot.sessions() {
        if let Some(found) = write_among(snapshot, session, key, value) {
            return Some(found);
        }
    }
    None
}

/// What is said of the write at that place.
fn about(kind: ReadFaultKind) -> &'static str
    ensures { result.now ≡ write_told kind }
{
    match kind {
        ReadFaultKind::Duplicate => " wrote it before",
        ReadFaultKind::BrokenInternal => " wrote it, and the reader another value before",
        ReadFaultKind::ThinAir => " wrote it",
        ReadFaultKind::Aborted => " wrote it, in a transaction that aborted",
        ReadFaultKind::Intermediate => " wrote it, and wrote the key again in its transaction",
        ReadFaultKind::Future => " wrote it, later in the transaction",
    }
}

/// Adds which write of the snapshot the fault is about.
pub(super) fn push_writer<B: Bounds>(
    alloc: Global,
    text: &mut Vec<u8>,
    snapshot: &SnapshotWithin<B>,
    fault: &ReadFault,
) -> Result<(), NoMemory>
    ensures { OnOk result (text.new.items
        ≡ text.old.items ++ writer_told fault.now.kind (writer (stands snapshot.now) fault.now.key fault.now.value)) }
{
    let Some(write) = first_write(snapshot, fault.key, fault.value) else {
        return push(text, &[b"nobody wrote it"]);
    };
    let place = write.place.to_string(alloc)?;
    let op = write.op.to_string(alloc)?;
    push(
        text,
        &[
            write.session.bytes(),
            b"/",
            place.as_bytes(),
            b" op ",
            op.as_bytes(),
            about(fault.kind).as_bytes(),
        ],
    )
}
