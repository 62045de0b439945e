//! What `tcc` prints: the texts and the JSON of faults, verdicts and answers, how they are written, and the statuses of runs.
//!
//! Needs: answers, verdicts and faults (`tcc_answer`, `tcc_rules`, `tcc_rows`, `tcc_reads`).
//! Must hold: what is printed is the text that a definition gives, or a part of it where the writer fails.
//! Kept for callers: `status::last_status`.
#![tactic(auto)]

pub mod json;
mod kinds;
pub mod notes;
mod options;
mod previous;
mod printable;
pub mod printing;
mod run_error;
pub mod status;
pub mod texts;
mod verdicts;

pub use options::{Options, RunContext};
pub use previous::{PreviousAnswer, unchanged};
pub use printable::{Printable, print_new, print_unchanged};
pub use run_error::RunError;
pub use status::Status;
pub use verdicts::{accepted_text, rejected_text, verdict_text};
