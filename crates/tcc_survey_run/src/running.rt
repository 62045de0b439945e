//! From the bytes of records to the survey of all that they finish.
ghost use Rattle.std.specs.Prelude.{◌≡◌, ℕ, List, [], None, IfOk, IfSome};
ghost use Rattle.tcc_rows.specs.{Ahead.fault_met, Answers.answers_within, Answers.records_within, Reached.IsWithin, Recordings.IsRecording};
ghost use Rattle.tcc_reads.specs.{Faults.read_faults, Traced.traced_history};
ghost use Rattle.tcc_graph.specs.Levels.{judged};
ghost use Rattle.tcc_survey.specs.Contradictions.{IsSurvey};
ghost use Rattle.tcc_survey_run.specs.{Noting.IsNotedSurvey, Noting.NotesSnapshot, Runs.IsSurveyRun, Runs.limits_of, private.Saying.SaysSurvey};

use crate::noting::note_no_answer;
use crate::options::SurveyOptions;
use crate::saying::{say_circle, say_found};
use std::alloc::Global;
use std::io::{Read, Write};
use tcc_base::{Progress, Unwatched};
use tcc_graph::{LargeGraph, Level};
use tcc_print::notes::note_reads;
use tcc_print::printing::print_memory;
use tcc_reads::{ReadFault, Traced, resolve_traced};
use tcc_rows::RecordingWithin;
use tcc_survey::{Surveyed, survey_watched};
use tcc_txn::{Bounds, LargeLimits, NoMemory, SmallLimits, SnapshotWithin};
use tcc_verdict::stop;

/// What is found in a snapshot.
#[derive(Drop)]
struct Examined {
    /// Its traced history.
    graph: LargeGraph,
    surveyed: Surveyed,
    faults: Vec<ReadFault>,
}

/// What is found in a snapshot at a level.
fn examine<B: Bounds, P: Progress>(
    alloc: Global,
    snapshot: &SnapshotWithin<B>,
    level: Level,
    progress: &P,
) -> Result<Examined, NoMemory>
    ensures graph { IfOk result (λ e. e.graph ≡ traced_history snapshot.now) }
    ensures surveyed { IfOk result (λ e. IsSurvey (judged (traced_history snapshot.now) level) e.surveyed) }
    ensures faults { IfOk result (λ e. e.faults.items ≡ read_faults snapshot.now) }
{
    let Traced { history, faults } = resolve_traced(alloc, snapshot)?;
    let graph = LargeGraph::build(alloc, history)?;
    let surveyed = survey_watched(alloc, &graph, level, progress)?;
    Ok(Examined {
        graph,
        surveyed,
        faults,
    })
}

/// Says what a survey finds in a snapshot, and gives the number that the run ends with. Of the first read faults it is noted which
/// write each of them is about; and where nothing is found, that this is no answer.
fn answer_checkpoint<B: Bounds, W: Write, N: Write, P: Progress>(
    alloc: Global,
    snapshot: &SnapshotWithin<B>,
    options: &SurveyOptions,
    out: &mut W,
    notes: &mut N,
    progress: &P,
) -> u8
    ensures said { SaysSurvey options.now snapshot.now (W.contents out.old) (W.contents out.new) result }
    ensures noted { NotesSnapshot snapshot.now result (N.contents notes.old) (N.contents notes.new) }
{
    let Ok(examined) = examine(alloc, snapshot, options.level, progress) else {
        return print_memory(out, options.json);
    };
    let Examined {
        graph,
        surveyed,
        faults,
    } = examined;
    match surveyed {
        Surveyed::Listed(found) => {
            note_reads(alloc, snapshot, &faults, notes);
            let code = say_found(alloc, snapshot, &graph, options, &found, &faults, out);
            note_no_answer(code, notes);
            code
        }
        Surveyed::Circular(circle) => say_circle(alloc, &graph, options.json, &circle, out),
    }
}

/// The run of a recording that has just begun.
fn run_recording<R: Read + Drop, B: Bounds, W: Write, N: Write, P: Progress>(
    alloc: Global,
    recording: &mut RecordingWithin<R, B>,
    options: &SurveyOptions,
    out: &mut W,
    notes: &mut N,
    progress: &P,
) -> u8
    requires limits { B.limits ≡ limits_of options.now }
    ensures run { (bytes : List ℕ) → IsRecording B.limits R.remaining recording.old [] (answers_within B.limits bytes)
        → IsWithin R.remaining recording.old.rows (records_within B.limits bytes) → fault_met recording.old.rows ≡ None
        → IsSurveyRun options.now bytes (W.contents out.old) (W.contents out.new) result }
    ensures noted { (bytes : List ℕ) → IsRecording B.limits R.remaining recording.old [] (answers_within B.limits bytes)
        → IsWithin R.remaining recording.old.rows (records_within B.limits bytes) → fault_met recording.old.rows ≡ None
        → IsNotedSurvey options.now bytes (N.contents notes.old) (N.contents notes.new) (W.contents out.old) (W.contents out.new) result }
{
    match recording.pass_seals(alloc) {
        Ok(()) => answer_checkpoint(alloc, recording.snapshot(), options, out, notes, progress),
        Err(fault) => stop(alloc, recording, fault, options.json, out, notes),
    }
}

/// The run of records at the limits that `B` represents.
fn run_within<R: Read + Drop, B: Bounds, W: Write, N: Write, P: Progress>(
    alloc: Global,
    reader: R,
    options: &SurveyOptions,
    out: &mut W,
    notes: &mut N,
    progress: &P,
) -> u8
    requires limits { B.limits ≡ limits_of options.now }
    ensures run { IfSome (R.remaining reader) (λ bytes. IsSurveyRun options.now bytes (W.contents out.old) (W.contents out.new) result) }
    ensures noted { IfSome (R.remaining reader)
        (λ bytes. IsNotedSurvey options.now bytes (N.contents notes.old) (N.contents notes.new) (W.contents out.old) (W.contents out.new) result) }
{
    match RecordingWithin::<R, B>::new(alloc, reader) {
        Ok(recording) => {
            let mut recording = recording;
            run_recording(alloc, &mut recording, options, out, notes, progress)
        }
        Err(NoMemory) => print_memory(out, options.json),
    }
}

/// Writes the contradicted reads, at the level, of all that the records of the reader finish, whatever they seal, as text or as lines
/// of JSON. All read faults and the counts of the usual names follow. Reads that can't be traced are left out. The lines are written
/// one by one. Gives the number that the run ends with. What to mend, where records or reads have faults, goes to the notes.
pub fn run_survey<R: Read + Drop, W: Write, N: Write>(
    alloc: Global,
    reader: R,
    out: &mut W,
    notes: &mut N,
    options: SurveyOptions,
) -> u8
    ensures run { IfSome (R.remaining reader) (λ bytes. IsSurveyRun options bytes (W.contents out.old) (W.contents out.new) result) }
    ensures noted { IfSome (R.remaining reader)
        (λ bytes. IsNotedSurvey options bytes (N.contents notes.old) (N.contents notes.new) (W.contents out.old) (W.contents out.new) result) }
{
    run_survey_watched(alloc, reader, out, notes, options, &Unwatched)
}

/// As `run_survey`, and once all records are read `progress` is told how far the survey is (`tcc_survey::survey_watched`).
pub fn run_survey_watched<R: Read + Drop, W: Write, N: Write, P: Progress>(
    alloc: Global,
    reader: R,
    out: &mut W,
    notes: &mut N,
    options: SurveyOptions,
    progress: &P,
) -> u8
    ensures run { IfSome (R.remaining reader) (λ bytes. IsSurveyRun options bytes (W.contents out.old) (W.contents out.new) result) }
    ensures noted { IfSome (R.remaining reader)
        (λ bytes. IsNotedSurvey options bytes (N.contents notes.old) (N.contents notes.new) (W.contents out.old) (W.contents out.new) result) }
{
    if options.large {
        run_within::<R, LargeLimits, W, N, P>(alloc, reader, &options, out, notes, progress)
    } else {
        run_within::<R, SmallLimits, W, N, P>(alloc, reader, &options, out, notes, progress)
    }
}
