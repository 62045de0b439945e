//! What is written after the last answer: its certificate, and its slice.
ghost use Rattle.std.specs.Prelude.{◌≡◌, Some, is_some, option_map};
ghost use Rattle.tcc_run.specs.private.Stages.{IsCertifiable, IsOutcome, SendsSlice, WritesFiles, WritesSlice, outcome_links, outcome_said};

use crate::certifying::write_certificate;
use crate::outcome::Outcome;
use crate::slice_records::slice_text;
use crate::watching::{RunStage, Watcher};
use std::io::Write;
use tcc_base::send;
use tcc_graph::Link;
use tcc_print::RunContext;
use tcc_print::notes::note_no_slice;
use tcc_print::printing::{print_device, print_memory};
use tcc_txn::{Bounds, NoMemory, SnapshotWithin};

/// Writes the slice by the links of what was said, if it is within the small limits; else the run ends with this exit code.
fn send_slice<T, B: Bounds, W: Write, S: Write, N: Write, G: Watcher>(
    run: &RunContext<T, G>,
    snapshot: &SnapshotWithin<B>,
    outcome: &Outcome,
    links: &[Link],
    file: &mut S,
    out: &mut W,
    notes: &mut N,
) -> Result<(), u8>
    ensures { IsOutcome run.now.options.now.level snapshot.now outcome.now → outcome_links outcome.now ≡ Some links.now
        → SendsSlice run.now.options.now snapshot.now links.now result (W.contents out.old) (W.contents out.new) (S.contents file.old) (S.contents file.new) }
{
    run.gate.begin(RunStage::Slicing);
    let made = slice_text(run.alloc, snapshot, run.options.level, outcome, links);
    run.gate.end();
    match made {
        Ok(Some(text)) => match send(file, &text) {
            Ok(()) => Ok(()),
            Err(_) => Err(print_device(out, run.options.json)),
        },
        Ok(None) => {
            note_no_slice(run.alloc, notes);
            Ok(())
        }
        Err(NoMemory) => Err(print_memory(out, run.options.json)),
    }
}

/// Writes the slice of what was said, if that is an anomaly and a file is given for it; else the run ends with this exit code.
fn write_slice<T, B: Bounds, W: Write, S: Write, N: Write, G: Watcher>(
    run: &RunContext<T, G>,
    snapshot: &SnapshotWithin<B>,
    outcome: &Outcome,
    slice: &mut Option<S>,
    out: &mut W,
    notes: &mut N,
) -> Result<(), u8>
    ensures { IsOutcome run.now.options.now.level snapshot.now outcome.now
        → WritesSlice run.now.options.now snapshot.now (outcome_said run.now.options.now outcome.now) result (W.contents out.old) (W.contents out.new) (option_map S.contents slice.old)
        (option_map S.contents slice.new) }
{
    let Some(links) = outcome.links() else {
        return Ok(());
    };
    match slice {
        Some(file) => send_slice(run, snapshot, outcome, links, file, out, notes),
        None => Ok(()),
    }
}

/// Writes the certificate of what was said, if that is an answer and a file is given for it. Then it writes its slice, if that is an
/// anomaly and a file is given for the slice. Else the run ends with this exit code.
pub(crate) fn write_files<T, B: Bounds, W: Write, C: Write, S: Write, N: Write, G: Watcher>(
    run: &RunContext<T, G>,
    snapshot: &SnapshotWithin<B>,
    outcome: &Outcome,
    certificate: &mut Option<C>,
    slice: &mut Option<S>,
    out: &mut W,
    notes: &mut N,
) -> Result<(), u8>
    requires { IsCertifiable (is_some certificate.old) outcome.now }
    ensures { IsOutcome run.now.options.now.level snapshot.now outcome.now
        → WritesFiles run.now.options.now snapshot.now (outcome_said run.now.options.now outcome.now) result (W.contents out.old) (W.contents out.new)
        (record { certificate = option_map C.contents certificate.old; slice = option_map S.contents slice.old })
        (record { certificate = option_map C.contents certificate.new; slice = option_map S.contents slice.new }) }
{
    write_certificate(run.options, outcome, certificate, out)?;
    write_slice(run, snapshot, outcome, slice, out, notes)
}
