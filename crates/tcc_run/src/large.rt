//! Runs of `tcc explain --large`, and their laws.

pub mod laws;

pub use crate::explained::{Explained, explain_large_snapshot};
pub use crate::running::run_large;
pub use crate::watching::{RunStage, Watcher};
