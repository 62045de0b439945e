//! The contradicted reads of a history of any size: reads that another writer of the key contradicts, since it is known to the
//! reader and is reached from what was read.
//!
//! Needs: a graph and clocks along an order (`tcc_order`, `tcc_clocks`).
//! Must hold: exactly the contradicted reads are found, each with its usual name.
//! Kept for callers: `survey`.
#![tactic(auto)]

mod block;
mod called;
mod calling;
mod circle;
mod clock_sweep;
mod contradicted;
mod external_reads;
pub mod laws;
mod needed;
mod reverse_clocks;
mod scanning;
mod seen;
mod session_guarantees;
mod surveyed;
mod surveying;
mod usual_name;

pub use contradicted::Contradicted;
pub use external_reads::Reading;
pub use surveyed::Surveyed;
pub use surveying::{survey, survey_watched};
pub use usual_name::{NAMES, UsualName};
