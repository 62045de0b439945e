//! The finder of a cycle in what an order leaves: no clause says what it finds, only that it is safe and ends.

mod adjacency;
mod back_edges;
mod breadth_first;
pub(crate) mod component_order;
mod components;
mod cycle_links;
pub(crate) mod cycle_search;
mod kahn;
mod pairs;
mod reverse_search;
mod session_prefixes;
mod shortest_walks;
mod trimming;
mod two_step_back_links;
mod work;
