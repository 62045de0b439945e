//! What each operation of a transaction is: a fault, an external read with its source, or neither.
ghost use Rattle.std.specs.Prelude.{All, ◌≡◌, ◌<◌, ◌≤◌, length, true, [], ◌++◌, map, IfOk, OnOk, option_to_list, if◌then◌else◌, None};
ghost use Rattle.std.specs.Option.{option_copied};
ghost use Rattle.tcc_txn.specs.{KeyNumbers.AreNumbers, KeyNumbers.name_at, Symbols.IsNumber, declared.limits.TheConstants.MAX_OPERATIONS, Transactions.op_key, Transactions.op_value};
ghost use Rattle.tcc_reads.specs.{Indexed.named, Sources.visible_write, private.Tracings.is_outside, private.Tracings.sources_traced};
ghost use Rattle.tcc_reads.specs.private.Verdicts.{writers_in, is_in, write_judgement, read_judgement, op_judgement, fault_in, read_in, IsOwn, AreOwnIn, faults_found, sources_found};

use crate::keys::Keys;
use crate::located::LocatedTxn;
use crate::writers::{Writer, Writers, first_writer};
use crate::{ReadFault, ReadFaultKind};
use std::alloc::{AllocError, Global};
use std::collections::BTreeSet;
use tcc_txn::{Name, Op};

/// What an operation is.
#[derive(Clone, Copy)]
enum OpJudgement {
    /// It has a fault.
    Faulty(ReadFaultKind),
    /// It is an external read from the transaction of this number.
    ReadsFrom(u32),
    /// It says nothing about other transactions.
    Silent,
}

/// Whether the transaction has this write.
fn is_in(located: &LocatedTxn<'_>, first: &Writer) -> bool
    ensures { result ≡ is_in located.now first.now }
{
    first.session == located.session && first.place == located.place
}

/// Judges a write at a position of its transaction, counted from 1, by the first write of its value.
fn write_judgement(located: &LocatedTxn<'_>, position: u16, writer: Option<&Writer>) -> OpJudgement
    ensures { result ≡ write_judgement located.now position (option_copied writer.entry) }
{
    match writer {
        None => OpJudgement::Faulty(ReadFaultKind::Duplicate),
        Some(first) => {
            if is_in(located, first) && first.op == position {
                OpJudgement::Silent
            } else {
                OpJudgement::Faulty(ReadFaultKind::Duplicate)
            }
        }
    }
}

/// Judges an external read of a value other than 0, by the first write of the value.
fn read_judgement(located: &LocatedTxn<'_>, writer: Option<&Writer>) -> OpJudgement
    ensures { result ≡ read_judgement located.now (option_copied writer.entry) }
{
    let Some(first) = writer else {
        return OpJudgement::Faulty(ReadFaultKind::ThinAir);
    };
    let Some(number) = first.number else {
        return OpJudgement::Faulty(ReadFaultKind::Aborted);
    };
    if is_in(located, first) {
        return OpJudgement::Faulty(ReadFaultKind::Future);
    }
    if first.last {
        OpJudgement::ReadsFrom(number)
    } else {
        OpJudgement::Faulty(ReadFaultKind::Intermediate)
    }
}

/// The value of the latest write of a key among these operations, if there is one, by the index of the key and those of their
/// keys. It searches from the last operation back.
fn latest_write(keys: &Keys, ops: &[Op], indices: &[u32], index: u32) -> Option<u64>
    requires indices { AreNumbers keys.now indices.now (map op_key ops.now) }
    requires index { index < length keys.now }
    ensures { result ≡ visible_write (name_at keys.now index) ops.now }
{
    keys.are_sorted();
    for left in 0..ops.len() {
        let at = ops.len() - 1 - left;
        if indices[at] == index {
            if let Op::Put { value, .. } = &ops[at] {
                return Some(*value);
            }
        }
    }
    None
}

/// Judges an operation at a position of its transaction, counted from 1, after these, by the index of its key and those of
/// theirs. If no value was written twice, writes need no look-up.
fn judgement_of(
    writers: &Writers,
    distinct: bool,
    located: &LocatedTxn<'_>,
    position: u16,
    op: Op,
    index: u32,
    before: &[Op],
    earlier: &[u32],
) -> OpJudgement
    requires own { distinct ≡ true → IsOwn (writers_in writers.now) located.now position op }
    requires index { IsNumber writers.now.keys (op_key op) index }
    requires earlier { AreNumbers writers.now.keys earlier.now (map op_key before.now) }
    ensures { result ≡ op_judgement (writers_in writers.now) located.now position op (visible_write (op_key op) before.now) }
{
    match op {
        Op::Put { value, .. } => {
            if distinct {
                OpJudgement::Silent
            } else {
                write_judgement(located, position, first_writer(writers, index, value))
            }
        }
        Op::Get { value, .. } => {
            if !located.txn.committed() {
                return OpJudgement::Silent;
            }
            match latest_write(writers.keys(), before, earlier, index) {
                Some(written) => {
                    if written == value {
                        OpJudgement::Silent
                    } else {
                        OpJudgement::Faulty(ReadFaultKind::BrokenInternal)
                    }
                }
                None => {
                    if value == 0 {
                        OpJudgement::ReadsFrom(0)
                    } else {
                        read_judgement(located, first_writer(writers, index, value))
                    }
                }
            }
        }
    }
}

/// Adds what was found out about an operation at a position of its transaction, counted from 1, by the index of its key.
fn note(
    located: &LocatedTxn<'_>,
    position: u16,
    op: &Op,
    index: u32,
    judgement: OpJudgement,
    faults: &mut Vec<ReadFault>,
    reads: &mut Vec<(u32, u32)>,
) -> Result<(), AllocError>
    ensures fault { OnOk result (faults.new.items ≡ faults.old.items ++ option_to_list (fault_in located.now.stand position op.now judgement)) }
    ensures read { OnOk result (reads.new.items ≡ reads.old.items ++ option_to_list (read_in index judgement)) }
{
    match judgement {
        OpJudgement::Faulty(kind) => {
            let fault = ReadFault {
                session: *located.name,
                place: located.place,
                op: u32::from(position),
                key: op.key(),
                value: op.value(),
                kind,
            };
            faults.push(fault)?;
            Ok(())
        }
        OpJudgement::ReadsFrom(source) => {
            reads.push((index, source))?;
            Ok(())
        }
        OpJudgement::Silent => Ok(()),
    }
}

/// Adds an external read, by the index of its key, with its source, unless its key and value are in `rewrites`.
fn note_traced(
    rewrites: &BTreeSet<(Name, u64)>,
    op: &Op,
    index: u32,
    judgement: OpJudgement,
    reads: &mut Vec<(u32, u32)>,
) -> Result<(), AllocError>
    ensures { OnOk result (reads.new.items ≡ reads.old.items
        ++ option_to_list (if is_outside rewrites.now (op_key op.now, op_value op.now) then read_in index judgement else None)) }
{
    if let OpJudgement::ReadsFrom(source) = judgement {
        if !rewrites.contains(&(op.key(), op.value())) {
            reads.push((index, source))?;
        }
    }
    Ok(())
}

/// Judges these operations of a transaction, by the indices of their keys. It adds the faults to `faults`, and returns the
/// external reads with their sources, by the indices of their keys too.
pub(crate) fn judge(
    alloc: Global,
    writers: &Writers,
    distinct: bool,
    located: &LocatedTxn<'_>,
    ops: &[Op],
    indices: &[u32],
    faults: &mut Vec<ReadFault>,
) -> Result<Vec<(u32, u32)>, AllocError>
    requires ops { ops.now ≡ located.now.stand.txn.ops }
    requires few { length ops.now ≤ MAX_OPERATIONS }
    requires indices { AreNumbers writers.now.keys indices.now (map op_key ops.now) }
    requires own { distinct ≡ true → AreOwnIn (writers_in writers.now) located.now [] ops.now }
    ensures faults { IfOk result (λ _. faults.new.items ≡ faults.old.items ++ faults_found (writers_in writers.now) located.now) }
    ensures sources { IfOk result (λ reads. named writers.now.keys reads.items ≡ sources_found (writers_in writers.now) located.now) }
    ensures within { IfOk result (λ reads. All (λ read. read.0 < length writers.now.keys) reads.items) }
{
    let mut reads = Vec::new(alloc);
    for (before, op) in ops.iter().enumerate() {
        let position = before as u16 + 1;
        let index = indices[before];
        let (done, earlier) = (&ops[..before], &indices[..before]);
        let judgement = judgement_of(
            writers, distinct, located, position, *op, index, done, earlier,
        );
        note(located, position, op, index, judgement, faults, &mut reads)?;
    }
    Ok(reads)
}

/// Traces the external reads of a transaction with these operations, by the indices of their keys. It returns those without a
/// fault with their sources, by the indices of their keys too. Reads whose key and value are in `rewrites` are left out.
pub(crate) fn trace(
    alloc: Global,
    writers: &Writers,
    rewrites: &BTreeSet<(Name, u64)>,
    located: &LocatedTxn<'_>,
    ops: &[Op],
    indices: &[u32],
) -> Result<Vec<(u32, u32)>, AllocError>
    requires ops { ops.now ≡ located.now.stand.txn.ops }
    requires few { length ops.now ≤ MAX_OPERATIONS }
    requires indices { AreNumbers writers.now.keys indices.now (map op_key ops.now) }
    ensures sources { IfOk result (λ reads. named writers.now.keys reads.items ≡ sources_traced (writers_in writers.now) (is_outside rewrites.now) located.now) }
    ensures within { IfOk result (λ reads. All (λ read. read.0 < length writers.now.keys) reads.items) }
{
    let mut reads = Vec::new(alloc);
    for (before, op) in ops.iter().enumerate() {
        let position = before as u16 + 1;
        let index = indices[before];
        let (done, earlier) = (&ops[..before], &indices[..before]);
        let judgement = judgement_of(writers, false, located, position, *op, index, done, earlier);
        note_traced(rewrites, op, index, judgement, &mut reads)?;
    }
    Ok(reads)
}
