//! What is printed of a certificate of any version that was judged.
ghost use Rattle.std.specs.Prelude.{◌≡◌, IfOk, false, string_bytes};
ghost use Rattle.tcc_print.specs.Printed.{PrintsOrMemory};
ghost use Rattle.tcc_verdict.specs.LargeTexts.{large_accepted_text, large_check_status, large_check_text, large_status, large_verdict_text};

use crate::{LargeClaim, LargeJudgement};
use std::alloc::Global;
use std::io::Write;
use tcc_judge::LargeVerdict;
use tcc_print::printing::{print_memory, print_run_error, print_text};
use tcc_print::status::verdict_status;
use tcc_print::{RunError, Status, accepted_text, rejected_text, verdict_text};
use tcc_rules::Claim;
use tcc_txn::NoMemory;

/// The line of a claim of version 3 that was accepted.
fn accepted(alloc: Global, claim: LargeClaim) -> Result<Vec<u8>, NoMemory>
    ensures { IfOk result (λ text. text.items ≡ large_accepted_text claim) }
{
    match claim {
        LargeClaim::Order => accepted_text(alloc, Claim::Order),
        LargeClaim::Cycle {
            cost,
            is_least: true,
        } => accepted_text(alloc, Claim::Cycle { least: cost }),
        LargeClaim::Cycle {
            cost,
            is_least: false,
        } => {
            let text = format!(in alloc; "accepted: cycle, {cost} steps, least not claimed\n")?;
            Ok(text.into_bytes())
        }
    }
}

/// The line of a judgement.
fn judgement_text(alloc: Global, judgement: &LargeJudgement) -> Result<Vec<u8>, NoMemory>
    ensures { IfOk result (λ text. text.items ≡ large_verdict_text judgement.now) }
{
    match judgement {
        LargeJudgement::Small(judgement) => verdict_text(alloc, judgement),
        LargeJudgement::Large { claim, verdict } => {
            match *verdict {
                LargeVerdict::Accepted => accepted(alloc, *claim),
                LargeVerdict::Rejected { rule, at } => rejected_text(alloc, rule.number(), at),
            }
        }
    }
}

/// How a run ends with a judgement.
fn status_of(judgement: &LargeJudgement) -> Status
    ensures { result ≡ large_status judgement.now }
{
    match judgement {
        LargeJudgement::Small(judgement) => verdict_status(judgement.verdict),
        LargeJudgement::Large { verdict, .. } => verdict_status(*verdict),
    }
}

/// Writes a judgement, and returns the code that the run ends with. Where memory is out, that is written in its place.
fn print_judgement<W: Write>(alloc: Global, judgement: &LargeJudgement, out: &mut W) -> u8
    ensures { PrintsOrMemory false (W.contents out.old) (W.contents out.new) (large_verdict_text judgement.now) (large_status judgement.now) result }
{
    match judgement_text(alloc, judgement) {
        Ok(text) => print_text(out, &text, status_of(judgement)),
        Err(NoMemory) => print_memory(out, false),
    }
}

/// Writes the outcome of a check, and returns the code that the run ends with. Where memory is out, that is written in its place.
pub(crate) fn print_large_check<W: Write>(
    alloc: Global,
    outcome: &Result<LargeJudgement, RunError>,
    out: &mut W,
) -> u8
    ensures { PrintsOrMemory false (W.contents out.old) (W.contents out.new) (large_check_text outcome.now) (large_check_status outcome.now) result }
{
    match outcome {
        Ok(judgement) => print_judgement(alloc, judgement, out),
        Err(error) => print_run_error(alloc, error, false, out),
    }
}
