//! What a transaction does at a key.
ghost use Rattle.std.specs.Prelude.{◌≡◌};
ghost use Rattle.tcc_txn.specs.Transactions.{op_key, op_value};

use crate::Name;

/// One operation of a transaction.
#[derive(Clone, Copy)]
pub enum Op {
    /// It read the value at the key.
    Get { key: Name, value: u64 },
    /// It wrote the value at the key.
    Put { key: Name, value: u64 },
}

impl Op {
    /// The key that it reads or writes.
    pub fn key(&self) -> Name
        ensures { result ≡ op_key self.now }
    {
        match self {
            Op::Get { key, .. } | Op::Put { key, .. } => *key,
        }
    }

    /// The value that it reads or writes there.
    pub fn value(&self) -> u64
        ensures { result ≡ op_value self.now }
    {
        match self {
            Op::Get { value, .. } | Op::Put { value, .. } => *value,
        }
    }
}
