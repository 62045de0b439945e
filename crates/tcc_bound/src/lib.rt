//! The bound that searches in many threads share: one word, the least cost that any of them has offered.
//!
//! Each thread works with a seat of its own, through a `&Bound`. `look` reads the word, `offer` lowers it to a cost, and
//! both return the word as it then is. No call waits for another thread.
//!
//! Needs: a word that threads share, from the kit.
//! Must hold: the bound never rises, and is a cost that somebody offered.
#![tactic(auto)]

mod bound;
mod known;
mod rule;
mod seat;

pub use bound::Bound;
pub use seat::Seat;
