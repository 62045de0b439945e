//! The runs of `tcc check`: from the bytes of a history and of a certificate to the verdict and the status.
//!
//! Needs: a checker and a judge (`tcc_check`, `tcc_judge`), and what is printed (`tcc_print`).
//! Must hold: status and text are those of one verdict.
#![tactic(auto)]

mod check;
mod checker;
pub mod large;
mod stopping;

pub use check::{noted, run_check};
pub use checker::{Checker, recorded, run_checker};
pub use large::{LargeClaim, LargeJudgement, run_check_large, run_check_large_watched};
pub use stopping::stop;
