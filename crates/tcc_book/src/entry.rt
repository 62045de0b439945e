//! One record of a book's journal.

use tcc_txn::{Name, Txn};

/// A transaction that a session finished.
#[derive(Drop)]
pub struct Entry {
    pub session: Name,
    pub txn: Txn,
}
