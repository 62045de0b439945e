//! How a run says what it found for a snapshot, whatever that is.
ghost use Rattle.std.specs.Prelude.{◌≡◌, IfErr, IfOk, MatchResult, Ok, OnOk, Some};
ghost use Rattle.std.specs.Io.KnownBytes.{Appends};
ghost use Rattle.tcc_txn.specs.Finished.{transaction_count};
ghost use Rattle.tcc_print.specs.Printed.{EndsIn};
ghost use Rattle.tcc_print.specs.Saying.{EndsAnswering, IsTold, NotesFaults, SaysAt, SaysLast};
ghost use Rattle.tcc_rows.specs.declared.recording.Checkpoint.TheVariants as checkpoints;

use crate::notes::note_reads;
use crate::options::{Options, RunContext};
use crate::previous::PreviousAnswer;
use crate::printing::{Sent, print_memory};
use std::alloc::Global;
use std::io::Write;
use tcc_reads::ReadFault;
use tcc_rows::Checkpoint;
use tcc_txn::{Bounds, NoMemory, SnapshotWithin};

/// What a run may find for a snapshot, and say of it.
pub trait Printable: Drop {
    ghost use Rattle.std.specs.Prelude.{◌≡◌, IfErr, OnOk};
    ghost use Rattle.std.specs.Io.KnownBytes.{Appends};
    ghost use Rattle.tcc_print.specs.{Courses.AreSaidFaults, Printed.EndsIn, declared.options.Options.Options, Saying.Course};

    ghost course: { Options → Course Self };

    /// Writes it as text or as a line of JSON; else the run ends with this code.
    fn send<W: Write>(&self, alloc: Global, options: &Options, out: &mut W) -> Sent
        ensures whole { OnOk result (Appends (W.contents out.old) (W.contents out.new) ((course options.now).say self.now).text) }
        ensures ended { IfErr result (EndsIn options.now.json (W.contents out.old) (W.contents out.new) ((course options.now).say self.now).text) };

    /// The read faults that it reports; none where it reports an answer.
    fn read_faults(&self) -> &[ReadFault]
        ensures { (options : Options) → AreSaidFaults options ((course options).say self.now) result.now };

    ghost asked: { (options : Options) → (course options).options ≡ options };
}

/// Says it of the snapshot, and notes of the first read faults which write each of them is about; else the run ends with this code.
fn tell<O: Printable, T, G, B: Bounds, W: Write, N: Write>(
    run: &RunContext<T, G>,
    snapshot: &SnapshotWithin<B>,
    said: &O,
    out: &mut W,
    notes: &mut N,
) -> Sent
    ensures whole { OnOk result (Appends (W.contents out.old) (W.contents out.new) ((O.course run.now.options.now).say said.now).text) }
    ensures ended { IfErr result (EndsIn run.now.options.now.json (W.contents out.old) (W.contents out.new) ((O.course run.now.options.now).say said.now).text) }
    ensures noted { OnOk result (NotesFaults run.now.options.now snapshot.now ((O.course run.now.options.now).say said.now) (N.contents notes.old) (N.contents notes.new)) }
{
    said.send(run.alloc, run.options, out)?;
    note_reads(run.alloc, snapshot, said.read_faults(), notes);
    Ok(())
}

/// Says what was found for the snapshot, and keeps it; else the run ends with this code.
pub fn print_new<O: Printable, T, G, B: Bounds, W: Write, N: Write>(
    run: &RunContext<T, G>,
    snapshot: &SnapshotWithin<B>,
    found: Result<O, NoMemory>,
    out: &mut W,
    notes: &mut N,
) -> Result<PreviousAnswer<O>, u8>
    ensures kept { IfOk result (λ last. found ≡ Ok last.outcome) }
    ensures said { IfOk found (IsTold (O.course run.now.options.now) snapshot.now)
        → MatchResult result (SaysLast (O.course run.now.options.now) snapshot.now (W.contents out.old) (W.contents out.new))
        (EndsAnswering (O.course run.now.options.now) snapshot.now (W.contents out.old) (W.contents out.new)) }
    ensures noted { IfOk result (λ last. NotesFaults run.now.options.now snapshot.now ((O.course run.now.options.now).say last.outcome) (N.contents notes.old) (N.contents notes.new)) }
{
    match found {
        Ok(outcome) => {
            tell(run, snapshot, &outcome, out, notes)?;
            Ok(PreviousAnswer {
                outcome,
                transactions: snapshot.transactions(),
            })
        }
        Err(NoMemory) => Err(print_memory(out, run.options.json)),
    }
}

/// Says again at a seal what was said last, since nothing was finished since then; at the end it adds nothing. Else the run ends with
/// this code.
pub fn print_unchanged<O: Printable, T, G, B: Bounds, W: Write, N: Write>(
    run: &RunContext<T, G>,
    checkpoint: Checkpoint,
    snapshot: &SnapshotWithin<B>,
    last: PreviousAnswer<O>,
    out: &mut W,
    notes: &mut N,
) -> Result<PreviousAnswer<O>, u8>
    ensures kept { IfOk result (λ now. now ≡ last) }
    ensures said { last.transactions ≡ transaction_count snapshot.now
        → SaysAt (O.course run.now.options.now) checkpoint snapshot.now (Some last) (W.contents out.old) (W.contents out.new) result }
    ensures noted { checkpoint ≡ checkpoints.Seal → IfOk result (λ last. NotesFaults run.now.options.now snapshot.now ((O.course run.now.options.now).say last.outcome) (N.contents notes.old) (N.contents notes.new)) }
{
    match checkpoint {
        Checkpoint::Seal => {
            tell(run, snapshot, &last.outcome, out, notes)?;
            Ok(last)
        }
        Checkpoint::End => Ok(last),
    }
}
