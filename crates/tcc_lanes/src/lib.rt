//! Multi-source breadth-first search (Then et al., VLDB 2014) along the pairs of a history: 64 lanes at a time, a word of marks for each
//! transaction. For N transactions and R reads a level takes N + R steps, whatever the lanes.
//!
//! Needs: a graph, and clocks along an order (`tcc_graph`, `tcc_clocks`).
//! Must hold: a lane's marks are what its start reaches in so many steps, and lanes don't see each other.
#![tactic(auto)]

mod bucket_dijkstra;
mod buckets;
mod circling;
mod cycle_among;
mod expand;
mod feedback;
mod frontier;
mod hits;
mod into_init;
pub mod laws;
mod lengths;
mod limits;
mod marking;
mod nearness;
mod passes;
mod price_rows;
mod pricing;
mod stretches;
mod tiles;
mod two_step_links;
mod words;

pub use cycle_among::{cheaper_among, cheapest_among, has_cheaper_among};
pub use into_init::{cheapest_into_init, has_cheaper_into_init, lowest_into_init};
pub use lengths::{NO_WALK, walk_lengths};
pub use limits::{MOST_MEMBERS, MOST_STEPS, MOST_SWEPT};
pub use nearness::near;
