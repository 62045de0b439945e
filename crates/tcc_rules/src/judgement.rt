//! What a certificate claims, and what the rules say of it.
use crate::Verdict;

/// What a certificate claims, without what the claim is judged by.
#[derive(Clone, Copy, Debug, PartialEq, Eq)]
pub enum Claim {
    /// A list is a commit order.
    Order,
    /// A cycle is least, and costs `least` steps.
    Cycle { least: u32 },
}

/// A claim, and what the rules say of its certificate.
#[derive(Clone, Copy, Debug, PartialEq, Eq)]
pub struct Judgement {
    pub claim: Claim,
    pub verdict: Verdict,
}
