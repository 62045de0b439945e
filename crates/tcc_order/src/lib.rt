//! The first commit order of a history at a level, for histories of any size. It uses clocks of 64 sessions at a time, and no
//! table of pairs of transactions. A law says that there is such an order exactly if there is no cycle.
//!
//! Needs: a graph, and clocks along an order (`tcc_graph`, `tcc_clocks`).
//! Must hold: the order found is the first one by number, for every number of threads; no order means a cycle.
//! Kept for callers: `order_of_pairs`.
#![tactic(auto)]

mod atomic_links;
mod block_start;
mod causal_links;
mod chains;
mod clocks_along;
mod commit_order;
mod kahn;
pub mod laws;
mod news;
mod placement;
mod reading_rows;
mod ready;
mod rows;
mod shares;
mod sweep;

pub use clocks_along::clocks;
pub use commit_order::{order, order_of_pairs, place, place_by, place_pairs};
pub use placement::{PairPlacement, Placement, Stuck};
