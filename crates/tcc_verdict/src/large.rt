//! The run of `tcc check --large`: for a history of any size, and a certificate of any version.

mod check;
mod judgement;
pub mod laws;
mod printing;
mod sized;
mod versions;

pub use check::{run_check_large, run_check_large_watched};
pub use judgement::{LargeClaim, LargeJudgement};
