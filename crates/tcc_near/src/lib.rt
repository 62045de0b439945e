//! Walk lengths: the least number of steps from each transaction to each by the walks that a level allows. From them follow
//! vector clocks, which say how much of each session reaches each transaction.
//!
//! Needs: a graph of a small history (`tcc_graph`).
//! Must hold: each length is that of a shortest walk of at least one step, or none.
//! Kept for callers: `clocks`, `clocks_of`.
#![tactic(auto)]

mod adjacency;
mod breadth_first;
mod clock;
mod topological;
mod vector_clocks;
mod walk_lengths;

pub use breadth_first::near;
pub use clock::Clocks;
pub use vector_clocks::{clocks, clocks_of};
pub use walk_lengths::{NONE, Near};
