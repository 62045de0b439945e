//! Answers: a commit order, or a cycle that none can keep, each with its certificate; their text and their JSON.
//!
//! Needs: a cycle or an order, and the form of certificates (`tcc_graph`, `tcc_cert`).
//! Must hold: text, JSON and certificate are those of one answer.
//! Kept for callers: `Anomaly::without_tables`, `push_links_json`.
#![tactic(auto)]

mod answer;
mod capped;
mod copying;
mod fault;
mod json;
mod links_json;
pub mod pieces;
mod shape;
mod text;
mod values;

pub use answer::{Anomaly, Answer, Commit};
pub use capped::CappedRows;
pub use fault::WriteFault;
pub use json::{labels_json, object_line, write_json};
pub use links_json::{push_links_json, quoted};
pub use shape::{Shape, shape_of};
pub use tcc_graph::Labels;
pub use text::{push_links, shape_word, write_text};
pub use values::{Values, list_json};
