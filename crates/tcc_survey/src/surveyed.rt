//! What a survey answers.
use crate::contradicted::Contradicted;

/// The contradicted reads of a history, or why it has none to list in their order.
#[derive(Drop)]
pub enum Surveyed {
    /// All contradicted reads, by the number of the reader and then by the index of the read, each once.
    Listed(Vec<Contradicted>),
    /// Transactions in a circle, by number: each follows the next one in its session or reads from it, and the last one the first.
    /// So no order keeps the pairs, and no read is older than another.
    Circular(Vec<u32>),
}
