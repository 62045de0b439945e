//! Certificates: what an answer claims, with the tables by which the claim can be checked.
//!
//! Needs: histories and their links (`tcc_graph`).
//! Must hold: what is written is read back as the same claim, and every byte of a text counts.
//! Kept for callers: `read_large`.
#![tactic(auto)]

mod certificate;
mod cycle_writer;
mod digits;
mod fault;
mod large;
mod large_writing;
pub mod laws;
mod lines;
mod lists;
mod outgoing;
mod part;
mod ranges;
mod reading;
mod runs;
mod version;
pub mod version_1;
pub mod version_2;
pub mod version_3;
mod writing;

pub use certificate::{Certificate, CycleClaim, OrderClaim};
pub use cycle_writer::{CycleTable, CycleWriter, write_first_lines};
pub use fault::{CertFault, CertFaultKind, CertWriteFault};
pub use large::{
    LargeCertificate, LargeHead, LinksClaim, LinksHead, LinksSizes, Run, Runs, RunsClaim,
    TakesLinks,
};
pub use large_writing::write_large;
pub use lists::{Links, Numbers, Table};
pub use outgoing::Outgoing;
pub use part::{CycleHead, OrderHead, Part};
pub use ranges::TextFormat;
pub use reading::{CertReader, LargeReader, VersionReader, read, read_large, reader_of, with_walk};
pub use runs::{order_claim, runs_of};
pub use version::Version;
pub use writing::write;
