//! The run of a check, whatever history it makes of the records and however it judges a certificate.
ghost use Rattle.std.specs.Prelude.{◌≡◌, Ok, IfErr, IfSome, MatchResult};
ghost use Rattle.tcc_rows.specs.{Answers.records_within, Lines.Record, Reached.record_at, Recordings.IsRecorded};
ghost use Rattle.tcc_verdict.specs.Checking.{IsCheckRunBy, MayBe, PrintsOutcome};
ghost use Rattle.tcc_verdict.specs.{Noting.IsNotedRun, Noting.NotesOutcome, Stopping.NotesStop, private.Stages.IsMadeOf};

use crate::stopping::note_stop;
use std::alloc::Global;
use std::io::{Read, Write};
use tcc_base::Progress;
use tcc_print::RunError;
use tcc_rows::{RecordingWithin, RowFault, RowFaultKind};
use tcc_txn::{Bounds, SnapshotWithin};

/// A history for which certificates are judged: how it is made of a snapshot, how one is judged for it, and how that is printed.
pub trait Checker: Drop {
    ghost use Rattle.std.specs.Prelude.{◌≡◌, IfSome, false};
    ghost use Rattle.tcc_txn.specs.Snapshots.{Sessions};
    ghost use Rattle.tcc_print.specs.{Notes.AddsEach, Printed.PrintsOrMemory};
    ghost use Rattle.tcc_verdict.specs.{Checking.Check, Noting.snapshot_notes};
    ghost use Rattle.tcc_verdict.specs.private.Stages.{IsCheckWithin, MayBeOfText, MayBeResolution};

    /// The limits of the records.
    type Limits: Bounds;

    /// What is said of a certificate.
    type Judgement: Drop;

    ghost check: { Check Self.Judgement };

    ghost is_made: { Sessions → Self → Type 0 };

    /// The history of a snapshot, or all its read faults. Notes which write each of the first of these is about.
    fn graph_of<N: Write>(
        alloc: Global,
        snapshot: &SnapshotWithin<Self::Limits>,
        notes: &mut N,
    ) -> Result<Self, RunError>
        ensures made { MayBeResolution is_made snapshot.now result }
        ensures notes { AddsEach (N.contents notes.old) (N.contents notes.new) (snapshot_notes snapshot.now result) };

    /// The claim of the certificate whose text the reader gives, and the verdict on it. `progress` may be told how far this is.
    fn judged<R: Read + Drop, P: Progress>(
        &self,
        alloc: Global,
        reader: R,
        progress: &P,
    ) -> Result<Self::Judgement, RunError>
        ensures { IfSome (R.remaining reader) (λ text. (s : Sessions) → is_made s self.now → MayBeOfText check s text result) };

    /// Writes the outcome, and returns the status of the run. Where memory is out, that is written in its place.
    fn print<W: Write>(
        alloc: Global,
        outcome: &Result<Self::Judgement, RunError>,
        out: &mut W,
    ) -> u8
        ensures { PrintsOrMemory false (W.contents out.old) (W.contents out.new) (check.text outcome.now) (check.status outcome.now) result };

    ghost fits: { IsCheckWithin Self.Limits.limits check };
}

/// The recording of all that the records finish within the limits of `B`, whatever they seal. Where a record has a fault, a note
/// says what to mend.
pub fn recorded<R: Read + Drop, B: Bounds, N: Write>(
    alloc: Global,
    reader: R,
    notes: &mut N,
) -> Result<RecordingWithin<R, B>, RowFault>
    ensures recorded { IfSome (R.remaining reader) (λ text. MatchResult result
        (λ recording. IsRecorded B.limits text (Ok recording.snapshot)) (λ fault. IsRecorded B.limits text (Err fault))) }
    ensures noted { MatchResult result (λ _. N.contents notes.new ≡ N.contents notes.old)
        (λ fault. (last : Record) × NotesStop B.limits fault last (N.contents notes.old) (N.contents notes.new)) }

    // Where the bytes are known, the note shows the record at the row of the fault.
    ensures shown { IfSome (R.remaining reader) (λ text. IfErr result (λ fault.
        NotesStop B.limits fault (record_at fault.row (records_within B.limits text)) (N.contents notes.old) (N.contents notes.new))) }
{
    let Ok(recording) = RecordingWithin::<R, B>::new(alloc, reader) else {
        return Err(RowFault {
            row: 1,
            kind: RowFaultKind::NoMemory,
        });
    };
    let mut recording = recording;
    match recording.pass_seals(alloc) {
        Ok(()) => Ok(recording),
        Err(fault) => {
            note_stop(alloc, &recording, &fault, notes);
            Err(fault)
        }
    }
}

/// The history of all that the records finish, whatever was sealed.
fn history_of<C: Checker, R: Read + Drop, N: Write>(
    alloc: Global,
    reader: R,
    notes: &mut N,
) -> Result<C, RunError>
    ensures made { IfSome (R.remaining reader) (λ records. IsMadeOf C.Limits.limits C.is_made records result) }
    ensures noted { IfSome (R.remaining reader) (λ records. NotesOutcome C.Limits.limits records result (N.contents notes.old) (N.contents notes.new)) }
{
    let recording = recorded::<R, C::Limits, N>(alloc, reader, notes)?;
    C::graph_of(alloc, recording.snapshot(), notes)
}

/// The verdict on the certificate for the history, or the first fault of the two.
fn checked<C: Checker, H: Read + Drop, R: Read + Drop, N: Write, P: Progress>(
    alloc: Global,
    history: H,
    certificate: R,
    notes: &mut N,
    progress: &P,
) -> Result<C::Judgement, RunError>
    ensures given { IfSome (H.remaining history) (λ records. IfSome (R.remaining certificate) (λ text. MayBe C.check records text result)) }
    ensures noted { IfSome (H.remaining history)
        (λ records. IfSome (R.remaining certificate) (λ text. NotesOutcome C.Limits.limits records result (N.contents notes.old) (N.contents notes.new))) }
{
    let graph = history_of::<C, H, N>(alloc, history, notes)?;
    graph.judged(alloc, certificate, progress)
}

/// Writes the verdict on the certificate for the history, or the first fault of the two, and returns the status of the
/// run. Where records or reads have faults, the notes say what to mend. `progress` may be told how far the judgement is.
pub fn run_checker<C: Checker, H: Read + Drop, R: Read + Drop, W: Write, N: Write, P: Progress>(
    alloc: Global,
    history: H,
    certificate: R,
    out: &mut W,
    notes: &mut N,
    progress: &P,
) -> u8
    ensures run { IfSome (H.remaining history)
        (λ records. IfSome (R.remaining certificate) (λ text. IsCheckRunBy C.check records text (W.contents out.old) (W.contents out.new) result)) }
    ensures printed { PrintsOutcome C.check (W.contents out.old) (W.contents out.new) result }
    ensures noted { IfSome (H.remaining history) (λ records. IfSome (R.remaining certificate)
        (λ text. IsNotedRun C.check records text (N.contents notes.old) (N.contents notes.new) (W.contents out.old) (W.contents out.new) result)) }
{
    C::print(
        alloc,
        &checked::<C, H, R, N, P>(alloc, history, certificate, notes, progress),
        out,
    )
}
