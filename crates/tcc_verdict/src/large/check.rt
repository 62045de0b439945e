//! From the bytes of a history of any size and of a certificate of any version to the verdict.
ghost use Rattle.std.specs.Prelude.{◌≡◌, IfSome};
ghost use Rattle.tcc_verdict.specs.Checking.{IsCheckRunBy, PrintsOutcome};
ghost use Rattle.tcc_verdict.specs.{LargeChecks.IsLargeShown, LargeChecks.large_check, Noting.IsNotedRun};

use crate::LargeJudgement;
use crate::check::noted;
use crate::checker::{Checker, run_checker};
use crate::large::laws::accepted;
use crate::large::printing::print_large_check;
use crate::large::sized::SizedGraph;
use crate::large::versions::judged_text;
use std::alloc::Global;
use std::io::{Read, Write};
use tcc_base::{Progress, Unwatched};
use tcc_check::laws::certified;
use tcc_graph::{Graph, LargeGraph};
use tcc_print::RunError;
use tcc_reads::resolve_large;
use tcc_txn::{LargeLimits, LargeSnapshot};

/// A certificate of any version is checked, for a history within the large limits.
impl Checker for SizedGraph {
    ghost use Rattle.std.specs.Prelude.{refl};
    ghost use Rattle.tcc_verdict.specs.{LargeChecks.large_check, private.LargeStages.IsSizedHistory};

    type Limits = LargeLimits;

    type Judgement = LargeJudgement;

    ghost check = { large_check };

    ghost is_made = { IsSizedHistory };

    ghost fits = { record { limited = refl; tells = record { text = λ why. refl; status = λ why. refl }; passed = λ s text fault row. row } };

    fn graph_of<N: Write>(
        alloc: Global,
        snapshot: &LargeSnapshot,
        notes: &mut N,
    ) -> Result<Self, RunError> {
        match snapshot.small_copy(alloc)? {
            Some(small) => Ok(SizedGraph::Small(Graph::graph_of(alloc, &small, notes)?)),
            None => {
                let resolved = noted(alloc, snapshot, resolve_large(alloc, snapshot), notes)?;
                let graph = LargeGraph::build(alloc, resolved)?;
                Ok(SizedGraph::Large(graph))
            }
        }
    }

    fn judged<R: Read + Drop, P: Progress>(
        &self,
        alloc: Global,
        reader: R,
        progress: &P,
    ) -> Result<LargeJudgement, RunError> {
        let judgement = judged_text(alloc, self, reader, progress)?;
        Ok(judgement)
    }

    fn print<W: Write>(
        alloc: Global,
        outcome: &Result<LargeJudgement, RunError>,
        out: &mut W,
    ) -> u8 {
        print_large_check(alloc, outcome, out)
    }
}

/// Writes the verdict on the certificate, of any version, for the history, within the large limits; or the first fault of the two;
/// and returns the status of the run. The status is 0 only where the claim of the certificate is true. A certificate of version 1
/// or 2 is judged as by `tcc_verdict::run_check` where the history is within the small limits, and else rejected. Where records or
/// reads have faults, the notes say what to mend.
pub fn run_check_large<H: Read + Drop, C: Read + Drop, W: Write, N: Write>(
    alloc: Global,
    history: H,
    certificate: C,
    out: &mut W,
    notes: &mut N,
) -> u8
    ensures run { IfSome (H.remaining history)
        (λ records. IfSome (C.remaining certificate) (λ text. IsCheckRunBy large_check records text (W.contents out.old) (W.contents out.new) result)) }
    ensures printed { PrintsOutcome large_check (W.contents out.old) (W.contents out.new) result }
    ensures shown { IfSome (H.remaining history) (λ records. IfSome (C.remaining certificate) (λ text. result ≡ 0 → IsLargeShown records text)) }
    ensures noted { IfSome (H.remaining history) (λ records. IfSome (C.remaining certificate)
        (λ text. IsNotedRun large_check records text (N.contents notes.old) (N.contents notes.new) (W.contents out.old) (W.contents out.new) result)) }
{
    run_check_large_watched(alloc, history, certificate, out, notes, &Unwatched)
}

/// As `run_check_large`, and once all is read `progress` is told how far the judgement of a certificate of version 3 is
/// (`tcc_judge::judge_taken_watched`).
pub fn run_check_large_watched<H: Read + Drop, C: Read + Drop, W: Write, N: Write, P: Progress>(
    alloc: Global,
    history: H,
    certificate: C,
    out: &mut W,
    notes: &mut N,
    progress: &P,
) -> u8
    ensures run { IfSome (H.remaining history)
        (λ records. IfSome (C.remaining certificate) (λ text. IsCheckRunBy large_check records text (W.contents out.old) (W.contents out.new) result)) }
    ensures printed { PrintsOutcome large_check (W.contents out.old) (W.contents out.new) result }
    ensures shown { IfSome (H.remaining history) (λ records. IfSome (C.remaining certificate) (λ text. result ≡ 0 → IsLargeShown records text)) }
    ensures noted { IfSome (H.remaining history) (λ records. IfSome (C.remaining certificate)
        (λ text. IsNotedRun large_check records text (N.contents notes.old) (N.contents notes.new) (W.contents out.old) (W.contents out.new) result)) }
{
    certified();
    accepted();
    run_checker::<SizedGraph, H, C, W, N, P>(alloc, history, certificate, out, notes, progress)
}
