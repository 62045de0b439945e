//! The search from every start by many workers at one bound: their results settle the cost of a least cycle.
//!
//! Worker 0 pushes all starts to a deque, from which it and the other workers, its thieves, take one at a time. After all
//! have ended, worker 0 takes in their results, and searches from each start that none of them returned. Beside this is the
//! machine of all interleavings of such searches (`World`), and the law that each settles the same cost.
//!
//! Needs: searches of one start (`tcc_core`) and the bound that they share (`tcc_bound`).
//! Must hold: each start is searched once; the cost is the same for every schedule and number of workers.
//! Kept for callers: `World::run`, `World::seeded`.
#![tactic(auto)]

mod bounded_search;
mod branch_and_bound;
mod crew;
mod deque;
mod deque_rule;
mod deque_view;
mod desk;
mod event;
mod fork_join;
mod found;
mod gate;
pub mod laws;
mod merging;
mod searched;
mod stage;
mod worker;
mod worker_loop;
mod world;

pub use branch_and_bound::{search, search_with};
pub use crew::{AllStart, Crew};
pub use event::{Event, RunFault, StepFault};
pub use found::Found;
pub use gate::{Gate, OpenGate};
pub use world::World;
