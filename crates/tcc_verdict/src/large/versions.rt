//! The verdict on a certificate, by the version that its first line says.
ghost use Rattle.std.specs.Prelude.{◌≡◌, ℕ, List, IfSome, true};
ghost use Rattle.tcc_cert.specs.{Ahead.IsAhead, Ahead.is_new, Parts.parts_read, Versions.IsLargeAt};
ghost use Rattle.tcc_verdict.specs.private.LargeStages.{IsJudgedLarge, IsJudgedParts, IsJudgedText};

use crate::LargeJudgement;
use crate::large::judgement::claim_of;
use crate::large::sized::SizedGraph;
use std::alloc::Global;
use std::io::Read;
use tcc_base::Progress;
use tcc_cert::laws::no_first_line;
use tcc_cert::{CertReader, LargeReader, VersionReader, reader_of};
use tcc_check::{Judging, claim_in, judge_parts};
use tcc_graph::LargeGraph;
use tcc_judge::{TakenLinks, judge_taken_watched};
use tcc_rules::{Judgement, Rule, StreamFault, Verdict};

/// Judges a certificate of version 1 or 2. These are for histories within the small limits. For a larger one its sizes are wrong,
/// whatever it claims. Its text is read to the end all the same, since a fault of the text comes first.
fn judged_parts<R: Read>(alloc: Global, graph: &SizedGraph, parts: &mut CertReader<R>) -> Judging
    requires { is_new parts.old ≡ true }
    ensures { (bytes : List ℕ) → IsAhead R.remaining parts.old (parts_read bytes) → IsJudgedParts graph.now bytes result }
{
    match graph {
        SizedGraph::Small(graph) => judge_parts(alloc, graph, parts),
        SizedGraph::Large(_) => {
            let claim = claim_in(alloc, parts)?;
            let verdict = Verdict::Rejected {
                rule: Rule::Sizes,
                at: (0, 0),
            };
            Ok(Judgement { claim, verdict })
        }
    }
}

/// Judges a certificate of version 3, whose links are judged while they are read.
fn judged_large<R: Read + Drop, P: Progress>(
    alloc: Global,
    graph: &LargeGraph,
    reader: LargeReader<R>,
    progress: &P,
) -> Result<LargeJudgement, StreamFault>
    ensures { (bytes : List ℕ) → IsLargeAt R.remaining reader bytes → IsJudgedLarge graph.now bytes result }
{
    let mut taken = TakenLinks::new(alloc, graph);
    let head = reader.take(alloc, &mut taken)?;
    let verdict = judge_taken_watched(alloc, graph, &head, &taken, progress)?;
    let claim = claim_of(&head);
    Ok(LargeJudgement::Large { claim, verdict })
}

/// The claim of the certificate whose text the reader gives, and the verdict on it, by the rules for its version.
pub(crate) fn judged_text<R: Read + Drop, P: Progress>(
    alloc: Global,
    graph: &SizedGraph,
    reader: R,
    progress: &P,
) -> Result<LargeJudgement, StreamFault>
    ensures { IfSome (R.remaining reader) (λ bytes. IsJudgedText graph.now bytes result) }
{
    no_first_line();
    match reader_of(reader)? {
        VersionReader::Parts(mut parts) => {
            let judgement = judged_parts(alloc, graph, &mut parts)?;
            Ok(LargeJudgement::Small(judgement))
        }
        VersionReader::Large(reader) => judged_large(alloc, graph.large(), reader, progress),
    }
}
