//! The verdict on a claim, and the rules that it names.
ghost use Rattle.std.specs.Prelude.{◌≡◌};
ghost use Rattle.tcc_rules.specs.declared.verdict.Verdict.TheVariants as verdict;
ghost use Rattle.tcc_judge.specs.Verdicts.{rule_number};

use tcc_txn::NoMemory;

/// The rules, in the order in which they are judged. For a claim that runs encode a commit order, the first and the last two are asked. For
/// a claim of a cycle, the first two are asked, and where it is claimed to be a least one, the first seven.
#[derive(Clone, Copy, Debug, PartialEq, Eq)]
pub enum LargeRule {
    /// The sizes are those of the history, no number is out of its range, and the runs of each session match its size.
    Sizes = 1,
    /// The links are those of the history at the level, at least one, close a cycle, and cost what is claimed.
    Links,
    /// No two pairs form a cycle; where the cost is 4, no three do.
    ShortPairs,
    /// Where the cost is 4, no derived link with a single pair as its walk leads back over a pair.
    ShortLinks,
    /// Every reads-from pair is in the order of the runs beside the cycle.
    Onward,
    /// The cost and the keys by which a derived link leads into `init` are within their limits. So are the transactions from which a
    /// derived link leads back in that order, those to which one does, and the near ones over which one does.
    Limits,
    /// No cycle costs less.
    Cheaper,
    /// Every reads-from pair is in order.
    Pairs,
    /// What is contradicted comes after what contradicts it.
    Axiom,
}

impl LargeRule {
    /// The rule's number, from 1 to 9.
    pub fn number(&self) -> u32
        ensures { result ≡ rule_number self.now }
    {
        *self as u32
    }
}

/// What the rules say about a claim.
pub type LargeVerdict = tcc_rules::Verdict<LargeRule>;

/// A verdict, unless memory ran out.
pub type LargeJudging = Result<LargeVerdict, NoMemory>;

/// The verdict that this rule is the first broken one, there.
pub(crate) fn rejected_at(rule: LargeRule, at: (u32, u32)) -> LargeVerdict
    ensures { result ≡ verdict.Rejected rule at }
{
    LargeVerdict::Rejected { rule, at }
}

/// The verdict that this rule is the first broken one, for a rule that names no place.
pub(crate) fn rejected(rule: LargeRule) -> LargeVerdict
    ensures { result ≡ verdict.Rejected rule (0, 0) }
{
    rejected_at(rule, (0, 0))
}
