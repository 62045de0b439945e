//! Whether a cycle costs less than a given cost, found locally, in a history of any size and without a search. Up to three
//! steps a cycle has few shapes, and each shows at one place.
//!
//! Needs: a graph (`tcc_graph`).
//! Must hold: whether a cycle costs less is answered by the graph alone, exactly.
//! Kept for callers: `least_short`.
#![tactic(auto)]

mod building;
pub mod laws;
mod returning;
mod rounds;
mod short;

pub use building::{least_short, two_step_link};
pub use short::{ShortCycle, short_cycle};
