//! From the bytes of a history and of a certificate to the verdict.
ghost use Rattle.std.specs.Prelude.{◌≡◌, IfSome};
ghost use Rattle.tcc_print.specs.Notes.{AddsEach, resolved_notes};
ghost use Rattle.tcc_verdict.specs.private.Stages.{MayBeTextCheck};
ghost use Rattle.tcc_verdict.specs.{Checks.IsCheckRun, Checks.IsShown, Checks.PrintsSome, Checks.small_check, Noting.IsNotedRun};

use crate::{Checker, run_checker};
use std::alloc::Global;
use std::io::{Read, Write};
use tcc_base::{Progress, Unwatched};
use tcc_check::judge_stream;
use tcc_check::laws::certified;
use tcc_graph::Graph;
use tcc_print::RunError;
use tcc_print::notes::note_reads;
use tcc_print::printing::print_check;
use tcc_reads::{ResolveFault, resolve};
use tcc_rules::Judgement;
use tcc_txn::{Bounds, SmallLimits, Snapshot, SnapshotWithin};

/// The resolver's answer for a snapshot. Notes which write each of the first read faults is about.
pub fn noted<T, B: Bounds, N: Write>(
    alloc: Global,
    snapshot: &SnapshotWithin<B>,
    resolved: Result<T, ResolveFault>,
    notes: &mut N,
) -> Result<T, ResolveFault>
    ensures resolved { result ≡ resolved }
    ensures notes { AddsEach (N.contents notes.old) (N.contents notes.new) (resolved_notes snapshot.now resolved) }
{
    if let Err(ResolveFault::Reads(faults)) = &resolved {
        note_reads(alloc, snapshot, faults, notes);
    }
    resolved
}

/// The claim of the certificate whose text the reader gives, and the verdict on it. The text is judged while it is read.
fn judged<R: Read + Drop>(alloc: Global, graph: &Graph, reader: R) -> Result<Judgement, RunError>
    ensures { IfSome (R.remaining reader) (λ text. MayBeTextCheck graph.now text result) }
{
    let judgement = judge_stream(alloc, graph, reader)?;
    Ok(judgement)
}

/// A certificate of version 1 or 2 is checked, for a history within the small limits.
impl Checker for Graph {
    ghost use Rattle.std.specs.Prelude.{refl};
    ghost use Rattle.tcc_verdict.specs.{Checks.small_check, private.Stages.IsHistory};

    type Limits = SmallLimits;

    type Judgement = Judgement;

    ghost check = { small_check };

    ghost is_made = { IsHistory };

    ghost fits = { record { limited = refl; tells = record { text = λ why. refl; status = λ why. refl }; passed = λ s text fault row. row } };

    fn graph_of<N: Write>(
        alloc: Global,
        snapshot: &Snapshot,
        notes: &mut N,
    ) -> Result<Self, RunError> {
        let resolved = noted(alloc, snapshot, resolve(alloc, snapshot), notes)?;
        let graph = Graph::build(alloc, resolved)?;
        Ok(graph)
    }

    fn judged<R: Read + Drop, P: Progress>(
        &self,
        alloc: Global,
        reader: R,
        _progress: &P,
    ) -> Result<Judgement, RunError> {
        judged(alloc, self, reader)
    }

    fn print<W: Write>(alloc: Global, outcome: &Result<Judgement, RunError>, out: &mut W) -> u8 {
        print_check(alloc, outcome, out)
    }
}

/// Writes the verdict on the certificate for the history, or the first fault of the two, and returns the status of the
/// run. The status is 0 only where the claim of the certificate is true. Where records or reads have faults, the notes say what
/// to mend.
pub fn run_check<H: Read + Drop, C: Read + Drop, W: Write, N: Write>(
    alloc: Global,
    history: H,
    certificate: C,
    out: &mut W,
    notes: &mut N,
) -> u8
    ensures run { IfSome (H.remaining history)
        (λ records. IfSome (C.remaining certificate) (λ text. IsCheckRun records text (W.contents out.old) (W.contents out.new) result)) }
    ensures printed { PrintsSome (W.contents out.old) (W.contents out.new) result }
    ensures shown { IfSome (H.remaining history) (λ records. IfSome (C.remaining certificate) (λ text. result ≡ 0 → IsShown records text)) }
    ensures noted { IfSome (H.remaining history) (λ records. IfSome (C.remaining certificate)
        (λ text. IsNotedRun small_check records text (N.contents notes.old) (N.contents notes.new) (W.contents out.old) (W.contents out.new) result)) }
{
    certified();
    run_checker::<Graph, H, C, W, N, Unwatched>(alloc, history, certificate, out, notes, &Unwatched)
}
