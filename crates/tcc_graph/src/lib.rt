//! The two relations of a resolved history, the steps and links of which answers are made, and the labels and recorded
//! operations of its transactions.
//!
//! Needs: a resolved history (`tcc_reads`).
//! Must hold: what the graph answers of readers, writers and places is what the history says, for the small form and the large one alike.
#![tactic(auto)]

mod counts;
mod graph;
mod grouped;
mod grouped_rows;
mod key_table;
mod labels;
mod large_graph;
pub mod laws;
mod level;
mod limits;
mod link;
mod named;
mod operations;
mod own_keys;
mod renumbering;
mod routes;
mod step;
mod steps;
mod tables;
mod validity;

pub use graph::Graph;
pub use key_table::key_index_of;
pub use labels::Labels;
pub use large_graph::LargeGraph;
pub use level::Level;
pub use limits::{MAX_CYCLE_COST, MAX_LINK_COST};
pub use link::Link;
pub use operations::{first_reading, last_write, source_value};
pub use renumbering::Renumbering;
pub use routes::is_cycle;
pub use step::{Step, Walk};
pub use steps::steps_of;
