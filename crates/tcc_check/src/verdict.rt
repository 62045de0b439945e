//! Verdicts, and the first of what was found.
ghost use Rattle.std.specs.Prelude.{◌≡◌};
ghost use Rattle.tcc_check.specs.private.Coming.{first_of, first_rejected};
ghost use Rattle.tcc_rules.specs.declared.verdict.Verdict.TheVariants as verdict;

use tcc_rules::{Rule, Verdict};

/// The verdict that this rule is the first broken one. The rule names nothing, or a number from 1.
pub(crate) fn rejected(rule: Rule, at: u32) -> Verdict
    ensures { result ≡ verdict.Rejected rule (at, 0) }
{
    Verdict::Rejected { rule, at: (at, 0) }
}

/// What was found, or else what is in the row of `start`.
pub(crate) fn first_of(
    found: Option<(u32, u32)>,
    start: u32,
    end: Option<u32>,
) -> Option<(u32, u32)>
    ensures { result ≡ first_of found start end }
{
    match (found, end) {
        (Some(at), _) => Some(at),
        (None, Some(end)) => Some((start, end)),
        (None, None) => None,
    }
}

/// The first of two verdicts that is not an acceptance.
pub(crate) fn first_rejected<R: Drop>(earlier: Verdict<R>, later: Verdict<R>) -> Verdict<R>
    ensures { result ≡ first_rejected earlier later }
{
    match earlier {
        Verdict::Accepted => later,
        Verdict::Rejected { .. } => earlier,
    }
}
