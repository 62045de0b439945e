//! The judge of claims on a history of any size: an order that runs encode, or a cycle by its links. It uses only the history and the
//! claim, and nothing about how the claim was found.
//!
//! Needs: rules (`tcc_rules`) and searches by lanes (`tcc_lanes`).
//! Must hold: the verdict rests on the history and the claim alone, not on how the claim was found.
//! Kept for callers: `judge_taken`.
#![tactic(auto)]

mod axiom_violation;
mod blocks;
mod claims;
mod contradicted;
mod cycles;
mod decoding;
mod first_backward_read;
pub mod laws;
mod least;
mod least_by_order;
mod links;
mod members;
mod next_writers;
mod ordering;
mod picking;
mod positions;
mod singles;
mod sources;
mod taken;
mod verdict;

pub use claims::judge;
pub use cycles::judge_cycle;
pub use links::judge_links;
pub use ordering::judge_order;
pub use picking::{FirstAround, first_around};
pub use taken::{TakenLinks, judge_taken, judge_taken_watched};
pub use verdict::{LargeJudging, LargeRule, LargeVerdict};
