//! Runs of `tcc explain --full` from bytes to bytes: the one object that says all about the answer, with the rows of the
//! records that it speaks of, and the status that the run ends with. Nothing here knows about command lines or files.
//!
//! Needs: answers (`tcc_answering`) and what is printed (`tcc_print`).
//! Must hold: the object is what a definition says of the records' bytes.
#![tactic(auto)]

mod finding;
mod framing;
mod links;
mod lookup;
mod objects;
mod reading;
mod rows;
mod running;
mod telling;

pub use objects::ReportOptions;
pub use running::run_full;
pub use tcc_print::RunContext;
pub use tcc_txn::Limits;
pub use telling::tell_unread;
