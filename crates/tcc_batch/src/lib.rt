//! Many histories, each judged by itself and several at a time: a line for each, in the order in which they are named, and a report in
//! JUnit's form. Command lines, files and folders belong to other crates.
//!
//! Needs: the runs that answer for one history (`tcc_run`, `tcc_watch_run`).
//! Must hold: each line is one that a run of `explain` writes for the same bytes, whatever the number of workers is.
//! Kept for callers: `Finding::unopened`, `Report::is_anomaly`, `Report::is_consistent`, `Report::is_unjudged`, `judge`, `judge_each`,
//! `junit_text`, `print_lines`, `print_summary`, `worst_code`.
#![tactic(auto)]

mod finding;
mod headline;
mod judging;
mod junit;
mod lines;
mod report;
mod side_by_side;

pub use finding::Finding;
pub use judging::{BatchOptions, judge};
pub use junit::junit_text;
pub use lines::{LineOptions, print_lines, print_summary};
pub use report::{History, Report, worst_code};
pub use side_by_side::judge_each;
pub use tcc_txn::Limits;
