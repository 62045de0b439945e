//! What is decided about a history of any size: its first commit order, or a cycle. The finder of a cycle need not be trusted: each link of
//! what it finds is judged by itself. Where that isn't a cycle, going back along what the order leaves leads to one. That a cycle of at
//! most four steps is a least one is proved by a look at each place.
//!
//! Needs: orders (`tcc_order`) and cycles of few steps (`tcc_first`).
//! Must hold: nothing rests on the finder: a cycle counts only once the graph has verified each link.
//! Kept for callers: `decide`, `explain_large`.
#![tactic(auto)]

mod answer;
mod cells;
mod deciding;
mod decision;
mod explaining;
mod finder;
pub mod laws;
mod predecessor_cycle;
mod reachability;
mod reasons;
mod simple_cycle;

pub use answer::LargeAnswer;
pub use deciding::{decide, decide_by};
pub use decision::Decision;
pub use explaining::explain_large;
