//! The judgement of a certificate that is held as a value.
ghost use Rattle.std.specs.Prelude.{IfOk};
ghost use Rattle.tcc_check.specs.Verdicts.{IsVerdict};

use crate::cycle::cycle_verdict;
use crate::order::order_verdict;
use std::alloc::Global;
use tcc_cert::Certificate;
use tcc_graph::Graph;
use tcc_rules::Verdict;
use tcc_txn::NoMemory;

/// Accepts the certificate exactly where it keeps all rules for its version and its level. Otherwise names the first broken
/// one and where. It is for certificates that are held as values, as `tcc_cert::read` and an answer return them. For a
/// text, `check_stream` holds less in memory.
///
/// ```rust
/// let mut text = Vec::new(alloc);
/// answer.write_certificate(&mut text)?;
/// let certificate = read(alloc, text.as_slice())?;
/// let verdict = check(alloc, graph, &certificate)?;
/// Ok(verdict == Verdict::Accepted)
/// ```
pub fn check(alloc: Global, graph: &Graph, certificate: &Certificate) -> Result<Verdict, NoMemory>
    ensures { IfOk result (IsVerdict graph.now certificate.now) }
{
    match certificate {
        Certificate::Order(claim) => order_verdict(alloc, graph, claim),
        Certificate::Cycle(claim) => cycle_verdict(alloc, graph, claim),
    }
}
