//! One search for the least cost of routes to each transaction, and the law by which many searches settle the least cycle. Also
//! the first of the least cycles, picked from the back by what they found.
//!
//! Needs: prices (`tcc_derive`).
//! Must hold: a search returns the least cost from its start below its bound, and nothing else settles it.
//! Kept for callers: `first_cycle`, `seed`.
#![tactic(auto)]

mod again;
mod bucket_queue;
mod first_return;
mod frontier;
pub mod laws;
mod levels;
mod marked;
mod path_reconstruction;
mod queue;
mod relaxing;
mod search;
mod seeding;
mod settled;

pub use first_return::FirstReturn;
pub use path_reconstruction::first_cycle;
pub use search::Search;
pub use seeding::seed;
pub use settled::Settled;
