//! What the rules say of a certificate: the verdict, and the rule on the links of a cycle, judged one after the other. The
//! checker and the judge of version 3 share it.
//!
//! Needs: claims of certificates (`tcc_cert`) and the graph (`tcc_graph`).
//! Must hold: the verdict is the first rule that is broken, in the order of the rules.
//! Kept for callers: `LinksJudge::is_over`.
#![tactic(auto)]

mod judgement;
mod known;
mod links;
mod stream_fault;
mod verdict;

pub use judgement::{Claim, Judgement};
pub use known::{KnownLink, KnownWalk};
pub use links::{
    LinksJudge, LinksSeen, are_links_below, first_wrong_link, no_links, seen_wrong, with_link,
};
pub use stream_fault::StreamFault;
pub use verdict::{Rule, Verdict};
