//! One read of a key.

/// The transaction `reader` reads a key from the transaction `source`. All reads are visited for each transaction, so they
/// take no more memory than their numbers need.
#[derive(Clone, Copy, Drop)]
pub(crate) struct Read {
    pub(crate) source: u16,
    pub(crate) reader: u16,
}
