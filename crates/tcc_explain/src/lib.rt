//! The answer for a snapshot: its first commit order, or the first of its least cycles, with its certificate.
//!
//! Needs: first answers (`tcc_answering`), and what the tables of a small history take (`tcc_near`, `tcc_derive`, `tcc_steal`).
//! Must hold: the answer is the first one by the rule of ties, and the checker accepts its certificate.
//! Kept for callers: `explain`, `explain_next`.
#![tactic(auto)]

mod distances;
mod explaining;
mod fault;
mod incremental;
pub mod laws;
mod tables;

pub use distances::{Distances, distance_tables};
pub use explaining::{Explanation, explain, explain_with_graph};
pub use fault::NextFault;
pub use incremental::explain_next;
pub use tcc_answer::{Anomaly, Answer, Commit, Shape};
pub use tcc_base::Workers;
pub use tcc_reads::ResolveFault as ExplainFault;
pub use tcc_steal::{Gate, OpenGate};
