//! Rows of marks, 64 in a word; rows of values, which contracts see as lists; and rows of numbers or none. These take 16 bits
//! each if all fit.
//!
//! Needs: nothing but names of limits (`tcc_txn`).
//! Must hold: a packed row is seen as the list of its values, whatever its width.
//! Kept for callers: `PackedRow::unpacked`.
#![tactic(auto)]

mod bits;
mod packed;
mod row;

pub use bits::{is_marked, mark, mark_each, take_fresh, words_for};
pub use packed::{NO_VALUE, PackedRow};
pub use row::{ROWS_A_THREAD, Row};
