//! The first answer for a history of any size: its first commit order, or the first of its least cycles. That of a snapshot comes with its
//! graph, or it is all its read faults. The crate also has the claim that a cycle is a least one, where the judge of certificates accepts
//! it.
//!
//! Needs: decisions (`tcc_large`), first cycles (`tcc_first`) and the judge (`tcc_judge`).
//! Must hold: what is found depends on the history and the level alone.
#![tactic(auto)]

mod answering;
mod claims;
mod firsts;
mod proving;
mod room;

pub use answering::{Answered, AnsweredBounds, AsSmall, first_answer, first_of_graph};
pub use claims::{copied, steps_of};
pub use firsts::{First, first_of};
pub use proving::proved_claim;
