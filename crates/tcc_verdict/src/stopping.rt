//! How a run ends by the fault of a record, and the note of it, which shows that record.
ghost use Rattle.std.specs.Prelude.{◌≡◌, ◌≢◌, IfOk, true, map, take};
ghost use Rattle.std.specs.Io.KnownBytes.{Appends};
ghost use Rattle.tcc_rows.specs.Reached.{is_of_record, last_record};
ghost use Rattle.tcc_rows.specs.declared.fault.RowFaultKind.TheVariants as row_kind;
ghost use Rattle.tcc_print.specs.{RunErrors.by_row, Printed.PrintsOrMemory, Printed.printed_error, Statuses.run_error_status};
ghost use Rattle.tcc_verdict.specs.Stopping.{NotesStop, stop_note};

use std::alloc::Global;
use std::io::{Read, Write};
use tcc_print::RunError;
use tcc_print::notes::note_row;
use tcc_print::printing::print_run_error;
use tcc_rows::{RecordingWithin, RowFault, RowFaultKind};
use tcc_txn::{Bounds, NoMemory};

/// How many fields of a record are looked at. The commas between this many are already more than a note shows.
const MOST_FIELDS: usize = 64;

/// The first fields of the record that was read last.
fn last_fields<R: Read + Drop, B: Bounds>(
    alloc: Global,
    recording: &RecordingWithin<R, B>,
) -> Result<Vec<&[u8]>, NoMemory>
    ensures { IfOk result (λ fields. map (λ field. field.now) fields.items ≡ take 64 (last_record recording.now.rows)) }
{
    let mut fields = Vec::new(alloc);
    for place in 0..MOST_FIELDS {
        let Some(field) = recording.last_field(place) else {
            return Ok(fields);
        };
        fields.push(field)?;
    }
    Ok(fields)
}

/// Whether the fault is one of a record that was read: not of the reader, of memory or of the end of the input.
fn is_of_record(kind: &RowFaultKind) -> bool
    ensures { result ≡ is_of_record kind.now }
{
    !matches!(
        kind,
        RowFaultKind::Read | RowFaultKind::NoMemory | RowFaultKind::Unfinished { .. }
    )
}

/// Notes what the record with the fault that ended the recording has, and what is expected there. The record that was read
/// last is that one only where the fault is one of a record; else none is shown. Returns whether the note was written whole.
pub(crate) fn note_stop<R: Read + Drop, B: Bounds, N: Write>(
    alloc: Global,
    recording: &RecordingWithin<R, B>,
    fault: &RowFault,
    notes: &mut N,
) -> bool
    ensures noted { NotesStop B.limits fault.now (last_record recording.now.rows) (N.contents notes.old) (N.contents notes.new) }
    ensures whole { result ≡ true → fault.now.kind ≢ row_kind.NoMemory
        → Appends (N.contents notes.old) (N.contents notes.new) (stop_note B.limits fault.now (last_record recording.now.rows)) }
{
    let limits = B::limits();
    if !is_of_record(&fault.kind) {
        return note_row(alloc, limits, fault, &[], notes);
    }
    match last_fields(alloc, recording) {
        Ok(fields) => note_row(alloc, limits, fault, fields.as_slice(), notes),
        Err(NoMemory) => false,
    }
}

/// Writes why a run ends by the fault that ended its recording, notes what to mend, and returns the status of the run.
pub fn stop<R: Read + Drop, B: Bounds, W: Write, N: Write>(
    alloc: Global,
    recording: &RecordingWithin<R, B>,
    fault: RowFault,
    json: bool,
    out: &mut W,
    notes: &mut N,
) -> u8
    ensures printed { PrintsOrMemory json (W.contents out.old) (W.contents out.new) (printed_error json (by_row fault)) (run_error_status (by_row fault)) result }
    ensures noted { NotesStop B.limits fault (last_record recording.now.rows) (N.contents notes.old) (N.contents notes.new) }
{
    note_stop(alloc, recording, &fault, notes);
    print_run_error(alloc, &RunError::from(fault), json, out)
}
