//! Vector clocks (Fidge, Mattern) of a history: for each transaction and each session the greatest number in the session that
//! reaches the transaction. They are computed along a linear extension of the causal pairs, for a block of 64 sessions at a
//! time, and equal rows are held once. For N transactions, R reads and S sessions that takes at most 64 (N + R) steps a block.
//! So it takes S (N + R) in all, and fewer if rows are alike. It takes at most 64 N numbers, however many sessions there are.
//!
//! Needs: a graph, and an order of its causal pairs (`tcc_graph`).
//! Must hold: each row is the clock of its transaction; equal rows are one.
#![tactic(auto)]

mod latest;
mod needed;
mod parents;
mod rows;
mod sharing;
mod side;
mod spans;

pub use latest::{WIDE, find_clocks, owners};
pub use needed::{KeySources, mark_blocks, needed_blocks};
pub use parents::{Steps, between, find_parents, parents_of, previous_of_each, steps_along};
pub use rows::{like, put_row, raise_each};
pub use sharing::{Clock, SharedRows};
pub use side::Side;
pub use spans::{block_bounds, find_spans, span_of};
