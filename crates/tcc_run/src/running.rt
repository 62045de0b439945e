//! From the bytes of records to their answers: at each seal, and at the end. One run is that within the small limits and that within the
//! large ones.
ghost use Rattle.std.specs.Prelude.{◌≡◌, ℕ, List, [], None, IfErr, IfOk, IfSome, MatchResult, OnOk, is_some, option_map};
ghost use Rattle.tcc_rows.specs.{Ahead.fault_met, Answers.Answers, Answers.answers_to, Answers.answers_within, Answers.records_within, Lines.Record, Reached.IsWithin, declared.rows.Item.Item};
ghost use Rattle.tcc_rows.specs.Recordings.{FailsBehind, IsRecording, TakesCheckpoint, after_items};
ghost use Rattle.tcc_run.specs.{LargeRuns.IsLargeRun, LargeRuns.IsRun, LargeRuns.finished_within, Runs.IsExplainRun};
ghost use Rattle.tcc_run.specs.private.Stages.{Concludes, IsCertifiable, IsOutcome, IsSaidWithin, course, outcome_said};
ghost use Rattle.tcc_print.specs.{Saying.IsTold, Saying.SaysAt, private.Courses.AllAnswered, private.Courses.EndsEarly};

use crate::outcome::Outcome;
use crate::outcome_within::OutcomeWithin;
use crate::watching::{GateAlone, RunStage, Watcher};
use crate::writing::write_files;
use std::alloc::Global;
use std::io::{Read, Sink, Write};
use std::thread::Threads;
use tcc_answering::AnsweredBounds;
use tcc_explain::Gate;
use tcc_print::notes::note_last;
use tcc_print::printing::{print_endless, print_memory};
use tcc_print::{Options, PreviousAnswer, RunContext, print_new, print_unchanged, unchanged};
use tcc_rows::{Checkpoint, RecordingWithin, RowFault, RowFaultKind};
use tcc_txn::{Bounds, LargeLimits, NoMemory, SmallLimits, SnapshotWithin};
use tcc_verdict::stop;

/// What is to be said about the snapshot, and whether its certificate may be wanted; the watcher is called when this begins and when it
/// ends.
pub(crate) fn decide<T: Threads + Sync, G: Watcher, B: AnsweredBounds>(
    run: &RunContext<T, G>,
    snapshot: &SnapshotWithin<B>,
    is_certified: bool,
) -> Result<OutcomeWithin<B>, NoMemory>
    ensures told { IfOk result (IsTold (course B.limits run.now.options.now) snapshot.now) }
    ensures certifiable { IfOk result (IsCertifiable is_certified) }
{
    run.gate.begin(RunStage::Deciding);
    let decided = OutcomeWithin::of(run, snapshot, is_certified);
    run.gate.end();
    decided
}

/// Says at a checkpoint of the recording what is to be said about the snapshot, and keeps it: what was said last, if nothing was finished
/// since. Else the run ends with this exit code.
fn answer_checkpoint<T: Threads + Sync, B: AnsweredBounds, W: Write, N: Write, G: Watcher>(
    run: &RunContext<T, G>,
    checkpoint: Checkpoint,
    snapshot: &SnapshotWithin<B>,
    last: Option<PreviousAnswer<OutcomeWithin<B>>>,
    is_certified: bool,
    out: &mut W,
    notes: &mut N,
) -> Result<PreviousAnswer<OutcomeWithin<B>>, u8>
    requires { IfSome last (λ last. IsCertifiable is_certified last.outcome) }
    ensures certifiable { IfOk result (λ last. IsCertifiable is_certified last.outcome) }
    ensures said { SaysAt (course B.limits run.now.options.now) checkpoint snapshot.now last (W.contents out.old) (W.contents out.new) result }
{
    match unchanged(last, snapshot.transactions()) {
        Ok(last) => print_unchanged(run, checkpoint, snapshot, last, out, notes),
        Err(earlier) => {
            // One answer is held at a time.
            drop(earlier);
            let decided = decide(run, snapshot, is_certified);
            print_new(run, snapshot, decided, out, notes)
        }
    }
}

/// Reads on to the next seal or to the end; the watcher is called when this begins and when it ends.
fn read_on<R: Read + Drop, B: Bounds, G: Watcher>(
    alloc: Global,
    recording: &mut RecordingWithin<R, B>,
    watcher: &G,
) -> Result<Checkpoint, RowFault>
    ensures checkpoint { (taken : List Item) (ahead : Answers) → IsRecording B.limits R.remaining recording.old taken ahead
        → TakesCheckpoint B.limits R.remaining taken ahead result recording.new }
    ensures within { (all : List Record) → IsWithin R.remaining recording.old.rows all → IsWithin R.remaining recording.new.rows all }
    ensures failed { IfErr result (λ fault. fault_met recording.old.rows ≡ None → fault.kind ≡ RowFaultKind.Read
        → (all : List Record) (taken : List Item) (ahead : Answers) → answers_to B.limits all ≡ after_items taken ahead
        → IsWithin R.remaining recording.old.rows all → IsRecording B.limits R.remaining recording.old taken ahead
        → FailsBehind B.limits taken fault.row all) }
    ensures goes_on { OnOk result (fault_met recording.new.rows ≡ None) }
{
    watcher.begin(RunStage::Reading);
    let checkpoint = recording.advance(alloc);
    watcher.end();
    checkpoint
}

/// Writes the answers at the seals that are still to come and the one at the end, if it is due, and returns what was said last. Or it
/// writes what ends the run before, and returns the exit code.
fn answer_all<R: Read + Drop, B: AnsweredBounds, T: Threads + Sync, W: Write, N: Write, G: Watcher>(
    run: &RunContext<T, G>,
    recording: &mut RecordingWithin<R, B>,
    is_certified: bool,
    out: &mut W,
    notes: &mut N,
) -> Result<PreviousAnswer<OutcomeWithin<B>>, u8>
    ensures certifiable { IfOk result (λ last. IsCertifiable is_certified last.outcome) }
    ensures answers { (bytes : List ℕ) → IsRecording B.limits R.remaining recording.old [] (answers_within B.limits bytes) → IsWithin R.remaining recording.old.rows (records_within B.limits bytes)
        → fault_met recording.old.rows ≡ None
        → MatchResult result (AllAnswered (course B.limits run.now.options.now) bytes (W.contents out.old) (W.contents out.new))
        (EndsEarly (course B.limits run.now.options.now) bytes (W.contents out.old) (W.contents out.new)) }
    ensures finished { (bytes : List ℕ) → IsRecording B.limits R.remaining recording.old [] (answers_within B.limits bytes)
        → OnOk result (recording.new.snapshot ≡ finished_within B.limits bytes) }
{
    let mut last: Option<PreviousAnswer<OutcomeWithin<B>>> = None;
    'checkpoints: for _turn in 0..u64::MAX {
        match read_on(run.alloc, recording, run.gate) {
            Ok(checkpoint) => {
                let said = answer_checkpoint(
                    run,
                    checkpoint,
                    recording.snapshot(),
                    last,
                    is_certified,
                    out,
                    notes,
                )?;
                match checkpoint {
                    Checkpoint::Seal => last = Some(said),
                    Checkpoint::End => return Ok(said),
                }
            }
            Err(fault) => {
                return Err(stop(run.alloc, recording, fault, run.options.json, out, notes));
            }
        }
    }
    Err(print_endless(out, run.options.json))
}

/// Writes the certificate and the slice of what was said last, if files are given for them, and returns the exit code of the run. Where an
/// order has fewer transactions than are required, this is noted.
fn conclude<T, B: Bounds, W: Write, C: Write, S: Write, N: Write, G: Watcher>(
    run: &RunContext<T, G>,
    snapshot: &SnapshotWithin<B>,
    outcome: Outcome,
    certificate: &mut Option<C>,
    slice: &mut Option<S>,
    out: &mut W,
    notes: &mut N,
) -> u8
    requires certifiable { IsCertifiable (is_some certificate.old) outcome }
    ensures { IsOutcome run.now.options.now.level snapshot.now outcome
        → Concludes run.now.options.now snapshot.now (outcome_said run.now.options.now outcome) (W.contents out.old) (W.contents out.new)
        (record { certificate = option_map C.contents certificate.old; slice = option_map S.contents slice.old })
        (record { certificate = option_map C.contents certificate.new; slice = option_map S.contents slice.new }) result }
{
    let required = run.options.required;
    let status = outcome.status(required);
    match write_files(run, snapshot, &outcome, certificate, slice, out, notes) {
        Ok(()) => {
            note_last(run.alloc, &outcome.into_answer(), required, notes);
            status.code()
        }
        Err(code) => code,
    }
}

/// The run of a recording that has just begun.
fn run_recording<
    R: Read + Drop,
    B: AnsweredBounds,
    T: Threads + Sync,
    W: Write,
    C: Write,
    S: Write,
    N: Write,
    G: Watcher,
>(
    run: &RunContext<T, G>,
    recording: &mut RecordingWithin<R, B>,
    out: &mut W,
    certificate: &mut Option<C>,
    slice: &mut Option<S>,
    notes: &mut N,
) -> u8
    ensures { (bytes : List ℕ) → IsRecording B.limits R.remaining recording.old [] (answers_within B.limits bytes) → IsWithin R.remaining recording.old.rows (records_within B.limits bytes)
        → fault_met recording.old.rows ≡ None
        → IsRun B.limits (IsSaidWithin B.limits run.now.options.now) run.now.options.now bytes (W.contents out.old) (W.contents out.new)
        (record { certificate = option_map C.contents certificate.old; slice = option_map S.contents slice.old })
        (record { certificate = option_map C.contents certificate.new; slice = option_map S.contents slice.new }) result }
{
    match answer_all(run, recording, certificate.is_some(), out, notes) {
        Ok(last) => conclude(
            run,
            recording.snapshot(),
            last.outcome.into_outcome(),
            certificate,
            slice,
            out,
            notes,
        ),
        Err(code) => code,
    }
}

/// The run of records at the limits that `B` represents.
fn run_within<
    R: Read + Drop,
    B: AnsweredBounds,
    T: Threads + Sync,
    W: Write,
    C: Write,
    S: Write,
    N: Write,
    G: Watcher,
>(
    run: &RunContext<T, G>,
    reader: R,
    out: &mut W,
    certificate: &mut Option<C>,
    slice: &mut Option<S>,
    notes: &mut N,
) -> u8
    ensures { IfSome (R.remaining reader) (λ bytes. IsRun B.limits (IsSaidWithin B.limits run.now.options.now) run.now.options.now bytes (W.contents out.old) (W.contents out.new)
        (record { certificate = option_map C.contents certificate.old; slice = option_map S.contents slice.old })
        (record { certificate = option_map C.contents certificate.new; slice = option_map S.contents slice.new }) result) }
{
    match RecordingWithin::<R, B>::new(run.alloc, reader) {
        Ok(recording) => {
            let mut recording = recording;
            run_recording(run, &mut recording, out, certificate, slice, notes)
        }
        Err(NoMemory) => print_memory(out, run.options.json),
    }
}

/// Writes an answer at the level for what was finished before each seal of the bytes of the reader, and before their end, as text or as
/// lines of JSON. After it, to the file if one is given, it writes the certificate of the last answer. Returns the exit code of the run.
/// All of this is the same for every number of workers. Notes for a person who reads the standard error are written to `notes`.
///
/// Where a file is given, the gate is called before each start that the workers search. Without one the tables of a certificate aren't
/// needed, and each answer is found without them.
///
/// The file is empty before: nothing is written to it where the last answer is that reads have faults, or where the run ends by a fault.
///
/// ```rust
/// let mut notes = io::sink();
/// let options = Options {
///     level: Level::Causal,
///     workers,
///     json: false,
///     required: 1,
/// };
/// run_explain(
///     rt, alloc, records, out, file, &mut notes, options, &OpenGate,
/// )
/// ```
pub fn run_explain<R: Read + Drop, W: Write, C: Write, N: Write, G: Gate>(
    rt: &(impl Threads + Sync),
    alloc: Global,
    reader: R,
    out: &mut W,
    certificate: &mut Option<C>,
    notes: &mut N,
    options: Options,
    gate: &G,
) -> u8
    ensures { IfSome (R.remaining reader) (λ bytes. IsExplainRun options bytes (W.contents out.old) (W.contents out.new) (option_map C.contents certificate.old)
        (option_map C.contents certificate.new) result) }
{
    let run = RunContext {
        rt,
        alloc,
        options: &options,
        gate: &GateAlone { gate },
    };
    let mut slice: Option<Sink> = None;
    run_within::<R, SmallLimits, _, W, C, Sink, N, _>(
        &run,
        reader,
        out,
        certificate,
        &mut slice,
        notes,
    )
}

/// Writes an answer at the level for what was finished before each seal of the bytes of the reader, and before their end, as text or as
/// lines of JSON. Returns the exit code of the run. Records are accepted up to the large limits. Where what was finished is within the
/// small ones, the answer is the same as without the large ones, and the same for every number of workers. The watcher is called at each
/// stage of the run, and is the gate of the workers.
///
/// After the last answer its certificate is written to the first file, if it is given: within the small limits in version 2, above them in
/// version 3. Where the last answer is an anomaly, the records of its slice are written to the second file, if it is given. The slice is a
/// small history that is this one with transactions and operations left out; it has this anomaly and nothing that the anomaly doesn't need.
/// Nothing is written where the anomaly needs more than the small limits allow. Notes for a person who reads the standard error are written
/// to `notes`.
///
/// The files are empty before: nothing is written to them where the last answer is that reads have faults, or where the run ends by a
/// fault.
pub fn run_large<R: Read + Drop, W: Write, C: Write, S: Write, N: Write, G: Watcher>(
    rt: &(impl Threads + Sync),
    alloc: Global,
    reader: R,
    out: &mut W,
    certificate: &mut Option<C>,
    slice: &mut Option<S>,
    notes: &mut N,
    options: Options,
    watcher: &G,
) -> u8
    ensures { IfSome (R.remaining reader) (λ bytes. IsLargeRun options bytes (W.contents out.old) (W.contents out.new)
        (record { certificate = option_map C.contents certificate.old; slice = option_map S.contents slice.old })
        (record { certificate = option_map C.contents certificate.new; slice = option_map S.contents slice.new }) result) }
{
    let run = RunContext {
        rt,
        alloc,
        options: &options,
        gate: watcher,
    };
    run_within::<R, LargeLimits, _, W, C, S, N, _>(&run, reader, out, certificate, slice, notes)
}
