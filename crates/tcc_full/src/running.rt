//! From the bytes of records to all that is reported of their answer.
ghost use Rattle.std.specs.Prelude.{◌≡◌, ◌++◌, ℕ, Err, IfSome, MatchResult, Ok};
ghost use Rattle.tcc_rows.specs.{Answers.records_within, Reached.record_at, Recordings.IsRecorded};
ghost use Rattle.tcc_verdict.specs.Stopping.{NotesStop};
ghost use Rattle.tcc_full.specs.{Notes.AreNotesOf, Notes.IsNotedFull, Runs.IsFullRun};

use crate::finding::{FoundAnswer, find};
use crate::objects::ReportOptions;
use crate::reading::{Failed, within};
use crate::telling::{tell_fault, tell_found, tell_memory};
use std::alloc::Global;
use std::io::{ErrorKind, Read, Write};
use std::thread::Threads;
use tcc_answering::{AnsweredBounds, First};
use tcc_explain::Gate;
use tcc_print::RunContext;
use tcc_print::notes::{note_order, note_reads};
use tcc_rows::{LargeRecording, Recording, RowFault, RowFaultKind};
use tcc_txn::{Bounds, LargeLimits, Limits, NoMemory, SmallLimits, SnapshotWithin};
use tcc_verdict::recorded;

/// Notes of an order that it has too few transactions, and of the first read faults which write each of them is about.
fn note<B: Bounds, N: Write>(
    alloc: Global,
    snapshot: &SnapshotWithin<B>,
    found: &FoundAnswer,
    required: u32,
    notes: &mut N,
)
    ensures { AreNotesOf required snapshot.now found.now (N.contents notes.old) (N.contents notes.new) }
{
    match found {
        FoundAnswer::Unresolved(faults) => {
            note_reads(alloc, snapshot, faults, notes);
        }
        FoundAnswer::Resolved {
            first: First::Order(order),
            ..
        } => {
            note_order(alloc, order, required, notes);
        }
        FoundAnswer::Resolved {
            first: First::Cycle(_),
            ..
        } => {}
    }
}

/// Tells what is found for all that the records of a text finish, with the rows of its operations.
fn answer_checkpoint<T: Threads + Sync, G: Gate, B: AnsweredBounds, W: Write, N: Write>(
    run: &RunContext<T, G>,
    asked: &ReportOptions,
    text: &[u8],
    snapshot: &SnapshotWithin<B>,
    out: &mut W,
    notes: &mut N,
) -> u8
    ensures { IsRecorded asked.now.limits text.now (Ok snapshot.now)
        → IsNotedFull asked.now run.now.options.now.required text.now (N.contents notes.old) (N.contents notes.new) (W.contents out.old) (W.contents out.new) result }
{
    let text = within(text, asked.limits);
    match find(run, snapshot, asked.level) {
        Ok(found) => {
            let code = tell_found(run, asked, text, snapshot, &found, out);
            note(run.alloc, snapshot, &found, run.options.required, notes);
            code
        }
        Err(NoMemory) => tell_memory(run.alloc, asked, out),
    }
}

/// The run of a text whose records have no fault; else that fault.
fn run_lawful<T: Threads + Sync, G: Gate, W: Write, N: Write>(
    run: &RunContext<T, G>,
    asked: &ReportOptions,
    text: &[u8],
    out: &mut W,
    notes: &mut N,
) -> Result<u8, RowFault>
    ensures { MatchResult result
        (λ code. IsNotedFull asked.now run.now.options.now.required text.now (N.contents notes.old) (N.contents notes.new) (W.contents out.old) (W.contents out.new) code)
        (λ fault. IsRecorded asked.now.limits text.now (Err fault) × (W.contents out.new ≡ W.contents out.old)
        × NotesStop asked.now.limits fault (record_at fault.row (records_within asked.now.limits text.now)) (N.contents notes.old) (N.contents notes.new)) }
{
    match asked.limits {
        Limits::Small => {
            let recording: Recording<&[u8]> = recorded(run.alloc, text, notes)?;
            Ok(answer_checkpoint(run, asked, text, recording.snapshot(), out, notes))
        }
        Limits::Large => {
            let recording: LargeRecording<&[u8]> = recorded(run.alloc, text, notes)?;
            Ok(answer_checkpoint(run, asked, text, recording.snapshot(), out, notes))
        }
    }
}

/// The fault of records whose reader failed: one of a record before, or that of the reader.
fn fault_of<R: Read + Drop, B: Bounds, N: Write>(
    alloc: Global,
    reader: R,
    notes: &mut N,
) -> RowFault
    ensures recorded { IfSome (R.remaining reader) (λ bytes. IsRecorded B.limits bytes (Err result)) }
    ensures noted { IfSome (R.remaining reader)
        (λ bytes. NotesStop B.limits result (record_at result.row (records_within B.limits bytes)) (N.contents notes.old) (N.contents notes.new)) }
{
    match recorded::<R, B, N>(alloc, reader, notes) {
        Ok(recording) => {
            // It read on in spite of its failure.
            drop(recording);
            RowFault {
                row: 1,
                kind: RowFaultKind::Read,
            }
        }
        Err(fault) => fault,
    }
}

/// The same, within these limits.
fn fault_within<R: Read + Drop, N: Write>(
    alloc: Global,
    limits: Limits,
    reader: R,
    notes: &mut N,
) -> RowFault
    ensures recorded { IfSome (R.remaining reader) (λ bytes. IsRecorded limits bytes (Err result)) }
    ensures noted { IfSome (R.remaining reader)
        (λ bytes. NotesStop limits result (record_at result.row (records_within limits bytes)) (N.contents notes.old) (N.contents notes.new)) }
{
    match limits {
        Limits::Small => fault_of::<R, SmallLimits, N>(alloc, reader, notes),
        Limits::Large => fault_of::<R, LargeLimits, N>(alloc, reader, notes),
    }
}

/// The run of a text after which the reader failed.
fn run_failed<R: Read + Drop, W: Write, N: Write>(
    alloc: Global,
    asked: &ReportOptions,
    text: &[u8],
    reader: R,
    out: &mut W,
    notes: &mut N,
) -> u8
    ensures { IfSome (R.remaining reader) (λ rest. (required : ℕ)
        → IsNotedFull asked.now required (text.now ++ rest) (N.contents notes.old) (N.contents notes.new) (W.contents out.old) (W.contents out.new) result) }
{
    let whole = text.chain(Failed::new(reader));
    let fault = fault_within(alloc, asked.limits, whole, notes);
    tell_fault(alloc, asked, &fault, out)
}

/// Writes in one line of JSON all about the answer, at the level, to what the records of the reader finish, whatever they seal, or
/// why nothing was judged. Gives the number that the run ends with. The bytes of the records are held. What to mend, where
/// records or reads have faults, goes to the notes.
pub fn run_full<T: Threads + Sync, G: Gate, R: Read + Drop, W: Write, N: Write>(
    run: &RunContext<T, G>,
    asked: &ReportOptions,
    reader: R,
    out: &mut W,
    notes: &mut N,
) -> u8
    ensures run { IfSome (R.remaining reader) (λ bytes.
        IsFullRun asked.now run.now.options.now.required bytes (W.contents out.old) (W.contents out.new) result) }
    ensures noted { IfSome (R.remaining reader) (λ bytes.
        IsNotedFull asked.now run.now.options.now.required bytes (N.contents notes.old) (N.contents notes.new) (W.contents out.old) (W.contents out.new) result) }
{
    // One byte more shows that there are too many.
    let mut taken = reader.take(asked.limits.bytes() + 1);
    let mut text = Vec::new(run.alloc);
    match taken.read_to_end(&mut text) {
        Ok(_) => match run_lawful(run, asked, &text, out, notes) {
            Ok(code) => code,
            Err(fault) => tell_fault(run.alloc, asked, &fault, out),
        },
        Err(error) if error.kind() == ErrorKind::OutOfMemory => {
            tell_memory(run.alloc, asked, out)
        }
        Err(_) => run_failed(run.alloc, asked, &text, taken, out, notes),
    }
}
