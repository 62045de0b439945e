//! What is printed of a certificate that was judged.
ghost use Rattle.std.specs.Prelude.{◌≡◌, IfOk};
ghost use Rattle.tcc_print.specs.Texts.{accepted_text, rejected_text, verdict_text};

use std::alloc::Global;
use tcc_answer::pieces::joined;
use tcc_rules::{Claim, Judgement, Verdict};
use tcc_txn::NoMemory;

/// The line of a certificate that was accepted.
pub fn accepted_text(alloc: Global, claim: Claim) -> Result<Vec<u8>, NoMemory>
    ensures { IfOk result (λ text. text.items ≡ accepted_text claim) }
{
    match claim {
        Claim::Order => joined(alloc, &[b"accepted: order\n"]),
        Claim::Cycle { least } => {
            let steps = least.to_string(alloc)?;
            joined(
                alloc,
                &[b"accepted: cycle, ", steps.as_bytes(), b" steps\n"],
            )
        }
    }
}

/// The line of a certificate that was rejected, by the rule of this number.
pub fn rejected_text(alloc: Global, number: u32, at: (u32, u32)) -> Result<Vec<u8>, NoMemory>
    ensures { IfOk result (λ text. text.items ≡ rejected_text number at) }
{
    let number = number.to_string(alloc)?;
    let first = at.0.to_string(alloc)?;
    let second = at.1.to_string(alloc)?;
    joined(
        alloc,
        &[
            b"rejected: rule ",
            number.as_bytes(),
            b" at ",
            first.as_bytes(),
            b" ",
            second.as_bytes(),
            b"\n",
        ],
    )
}

/// The line of a verdict.
pub fn verdict_text(alloc: Global, judged: &Judgement) -> Result<Vec<u8>, NoMemory>
    ensures { IfOk result (λ text. text.items ≡ verdict_text judged.now.claim judged.now.verdict) }
{
    match judged.verdict {
        Verdict::Accepted => accepted_text(alloc, judged.claim),
        Verdict::Rejected { rule, at } => rejected_text(alloc, rule.number(), at),
    }
}
