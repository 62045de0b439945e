//! Runs of `tcc` from bytes to bytes: what `tcc explain` and `tcc check` write for what they read, and the statuses that they end with. And
//! the answer for what recorders in threads left in a book. Nothing here depends on command lines or files, so other programs can make the
//! same runs.
//!
//! Needs: answers (`tcc_answering`, `tcc_explain`) and what is printed (`tcc_print`).
//! Must hold: what is written is what a definition says of the records' bytes, at each seal and at the end.
//! Kept for callers: `audit`, `explain_snapshot`, `explain_snapshot_next`, `names`.
#![tactic(auto)]

mod audit_fault;
mod auditing;
mod bare;
mod certifying;
mod claims;
mod explained;
mod headline;
mod held_graph;
pub mod large;
pub mod laws;
mod naming;
mod outcome;
mod outcome_within;
mod room;
mod running;
mod slice_records;
mod watching;
mod writing;

pub use audit_fault::AuditFault;
pub use auditing::audit;
pub use headline::{explain_snapshot, explain_snapshot_next};
pub use large::{Explained, RunStage, Watcher, explain_large_snapshot, run_large};
pub use naming::names;
pub use running::run_explain;
pub use tcc_explain::{Gate, OpenGate};
pub use tcc_print::{Options, RunError, Status, json, printing, texts, verdict_text};
pub use tcc_rules::{Claim, Judgement};
pub use tcc_verdict::run_check;
