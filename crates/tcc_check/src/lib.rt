//! The independent checker: judges a certificate from any source by the rules alone.
//!
//! Needs: rules (`tcc_rules`) and the text of a certificate (`tcc_cert`).
//! Must hold: no search, distance or price is used: the rules alone decide.
//! Kept for callers: `check`, `check_stream`.
#![tactic(auto)]

mod adjacency;
mod checking;
mod coming;
mod cycle;
mod far_rows;
mod first_broken;
mod groups;
mod latest;
pub mod laws;
mod links;
mod links_from;
mod near_rows;
mod order;
mod positions;
mod readings;
mod runs;
mod single_pairs;
mod sizes;
mod streaming;
mod verdict;

pub use checking::check;
pub use streaming::{Judging, check_stream, claim_in, judge_parts, judge_stream};
pub use tcc_rules::{Claim, Judgement, Rule, StreamFault, Verdict};
