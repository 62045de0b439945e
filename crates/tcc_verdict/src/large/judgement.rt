//! What a certificate of any version claims, and what the rules for its version say of it.
ghost use Rattle.std.specs.Prelude.{◌≡◌};
ghost use Rattle.tcc_reads.specs.History.{History};
ghost use Rattle.tcc_cert.specs.{Taken.IsClaimTaken, declared.large.LargeCertificate.LargeCertificate};
ghost use Rattle.tcc_judge.specs.{Taken.AreTaken, declared.taken.TakenLinks.TakenLinks};
ghost use Rattle.tcc_verdict.specs.LargeChecks.{large_claim_of};

use tcc_cert::LargeHead;
use tcc_judge::LargeVerdict;
use tcc_rules::Judgement;

/// What a certificate of version 3 claims, without the parts by which the claim is judged.
#[derive(Clone, Copy, Debug, PartialEq, Eq)]
pub enum LargeClaim {
    /// Runs are those of a commit order.
    Order,
    /// Links are a cycle that costs this many steps, and perhaps a least one.
    Cycle { cost: u32, is_least: bool },
}

/// A claim, and what the rules say of its certificate.
#[derive(Clone, Copy, Debug, PartialEq, Eq)]
pub enum LargeJudgement {
    /// Of a certificate of version 1 or 2.
    Small(Judgement),
    /// Of one of version 3.
    Large {
        claim: LargeClaim,
        verdict: LargeVerdict,
    },
}

/// What a certificate of version 3 claims whose links were taken.
pub(crate) fn claim_of(head: &LargeHead) -> LargeClaim
    ensures { (taken : TakenLinks) (h : History) (certificate : LargeCertificate) → IsClaimTaken (AreTaken taken h) certificate head.now
        → result ≡ large_claim_of certificate }
{
    match head {
        LargeHead::Order(_) => LargeClaim::Order,
        LargeHead::Cycle(head) => LargeClaim::Cycle {
            cost: head.sizes.cost,
            is_least: head.least.is_some(),
        },
    }
}
