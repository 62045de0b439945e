//! The verdict on a certificate, and the rules that it names.
ghost use Rattle.std.specs.Prelude.{◌≡◌};
ghost use Rattle.tcc_rules.specs.Rules.{rule_number};

/// The rules, in the order in which they are judged. The first seven are for a claim that a cycle is least. The first and
/// the last two are for a claim that a list is a commit order.
#[derive(Clone, Copy, Debug, PartialEq, Eq)]
pub enum Rule {
    /// The tables have the sizes of the history, and no number is out of its range.
    Sizes = 1,
    /// The links, at least one, are links of the history at the level, close a cycle, and have the cost that is claimed.
    Links = 2,
    /// A causal pair is at most 1 long.
    NearPairs = 3,
    /// One more causal pair adds at most one step; not asked at `Atomic`.
    NearSteps = 4,
    /// A single link has at most its cost.
    FarLinks = 5,
    /// One more link adds at most its cost.
    FarSteps = 6,
    /// No way back is cheaper than the cycle.
    Returns = 7,
    /// Each number is in the order once, and every causal pair is kept; at `Causal` by the clocks too.
    Pairs = 8,
    /// What is contradicted comes after what contradicts it: at `Causal` as far as the clocks say, at `Atomic` by a single
    /// pair.
    Axiom = 9,
}

impl Rule {
    /// The rule's number, from 1 to 9.
    pub fn number(&self) -> u32
        ensures { result ≡ rule_number self.now }
    {
        *self as u32
    }
}

/// What rules say of a claim; by default they are those of a certificate.
#[derive(Clone, Copy, Debug, PartialEq, Eq)]
pub enum Verdict<R = Rule> {
    /// All of them hold, and so the claim is true.
    Accepted,
    /// The first broken rule, and where it is broken first. That is a pair of transactions. For `Links` it is the number of
    /// the first wrong link, counted from 1, and 0. Where the rule names nothing it is 0 and 0.
    Rejected { rule: R, at: (u32, u32) },
}
