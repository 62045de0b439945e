//! Why a snapshot's reads have no sources.
ghost use Rattle.std.specs.Prelude.{◌≡◌};
ghost use Rattle.tcc_reads.specs.declared.fault.ResolveFault.TheVariants.{NoMemory};

use std::alloc::{AllocError, AllocFailed};
use tcc_txn::{Name, NoMemory};
use thiserror::Error;

/// What is wrong with an operation. All kinds but the first are of reads of committed transactions.
#[derive(Clone, Copy, Debug, PartialEq, Eq, Error)]
pub enum ReadFaultKind {
    /// It writes a value that was written at its key before.
    #[error("the value was written at the key before")]
    Duplicate,
    /// It reads another value than the latest one that its transaction wrote at its key.
    #[error("the transaction wrote another value at the key")]
    BrokenInternal,
    /// It reads a value that nobody wrote at its key.
    #[error("nobody wrote the value at the key")]
    ThinAir,
    /// It reads a value that an aborted transaction wrote.
    #[error("an aborted transaction wrote the value")]
    Aborted,
    /// It reads a value that another transaction wrote, and then overwrote.
    #[error("the value was written over in its transaction")]
    Intermediate,
    /// It reads a value that its transaction writes later.
    #[error("the transaction writes the value later")]
    Future,
}

/// An operation that no source explains, and why.
#[derive(Clone, Copy, Debug, PartialEq, Eq)]
pub struct ReadFault {
    /// The name of its session.
    pub session: Name,
    /// The place of its transaction in the session, from 1, aborted ones counted.
    pub place: u32,
    /// Its position in the transaction, from 1.
    pub op: u32,
    /// The key that it reads or writes.
    pub key: Name,
    /// The value that it reads or writes.
    pub value: u64,
    /// What is wrong.
    pub kind: ReadFaultKind,
}

/// Why the reads of a snapshot were not resolved.
#[derive(Debug, Drop, Error)]
pub enum ResolveFault {
    /// All faulty operations, by session name in byte order, place and operation; at least one.
    #[error("some operations read or write what no source explains")]
    Reads(Vec<ReadFault>),
    /// Memory was refused.
    #[error("out of memory")]
    NoMemory,
}

impl From<AllocError> for ResolveFault {
    ghost from_gives = { λ _ e. e ≡ NoMemory };

    fn from(_error: AllocError) -> ResolveFault {
        ResolveFault::NoMemory
    }
}

impl From<NoMemory> for ResolveFault {
    ghost from_gives = { λ _ e. e ≡ NoMemory };

    fn from(_error: NoMemory) -> ResolveFault {
        ResolveFault::NoMemory
    }
}

impl<T: Drop> From<AllocFailed<T>> for ResolveFault {
    ghost from_gives = { λ _ e. e ≡ NoMemory };

    fn from(_error: AllocFailed<T>) -> ResolveFault {
        ResolveFault::NoMemory
    }
}
