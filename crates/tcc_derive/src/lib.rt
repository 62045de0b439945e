//! What each pair of transactions costs as a link, and the first of the cheapest reasons.
//!
//! Needs: a graph and its walk lengths (`tcc_near`).
//! Must hold: a price is the least cost of a derived link by any reader; the reason is the first that costs so much.
//! Kept for callers: `first_name`, `reason`.
#![tactic(auto)]

mod bucket;
mod by_class;
mod by_cost;
mod choices;
mod conflict_weights;
mod cost_limit;
mod costing;
mod edge_weights;
mod first_reason;
mod first_walk;
pub mod laws;
mod level_sweep;
mod others;
mod prices;
mod read;
mod read_table;
mod sources;
mod write_table;

pub use by_class::{ByClass, Class};
pub use edge_weights::{MadePrices, derive};
pub use first_reason::reason;
pub use first_walk::first_name;
pub use prices::Prices;
