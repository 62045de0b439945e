//! Runs of `tcc survey` from bytes to bytes: what is written of the contradicted reads of the records, and the statuses that the
//! runs end with. Nothing here knows about command lines or files.
//!
//! Needs: a survey (`tcc_survey`) and what is printed (`tcc_print`).
//! Must hold: what is written is what a definition says of the records' bytes.
#![tactic(auto)]

mod counting;
pub mod laws;
mod lines;
mod naming;
mod noting;
mod objects;
mod options;
mod outgoing;
mod running;
mod saying;
mod told;

pub use counting::NameCount;
pub use options::SurveyOptions;
pub use running::{run_survey, run_survey_watched};
pub use told::ToldRead;
