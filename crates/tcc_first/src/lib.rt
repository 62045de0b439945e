//! The first of the least cycles by the rule of ties, in a history of any size: from where the first one starts its links are picked from
//! the last backwards. Where a least cycle costs at most three steps, as most do, one place shows it, and no search is needed.
//!
//! Needs: what a least cycle costs and where it starts (`tcc_lanes`, `tcc_least`).
//! Must hold: each link picked is the first by the rule of ties.
#![tactic(auto)]

mod along;
mod cheapest;
mod cheapest_links;
mod first_walks;
mod ranges;
mod returns;
mod short;
mod stale_sources;
mod starts;
mod two_steps;
mod ways;

pub use along::first_along;
pub use cheapest::cheapest_link;
pub use short::first_short;
