//! Why the demonstration ends before its last answer.

use std::alloc::AllocError;
use std::io::{self, ErrorKind};
use tcc_answer::WriteFault;
use tcc_book::{OpenFault, RecordFault, SealFault, WholeFault};
use tcc_explain::ExplainFault;
use tcc_run::AuditFault;
use tcc_txn::{NameFault, NoMemory, TxnFault};
use thiserror::Error;

/// Why there is no further answer: memory was refused, standard output failed, or the script can't be played.
#[derive(Debug, Drop, Error)]
#[error("there is no further answer")]
pub enum PlayError {
    Memory(#[from] NoMemory),
    Allocation(#[from(alloc)] AllocError),
    Arguments(#[from] io::Error),
    Name(#[from] NameFault),
    Txn(#[from] TxnFault),
    Open(#[from] OpenFault),
    Record(#[from] RecordFault),
    Seal(#[from] SealFault),
    Whole(#[from] WholeFault),
    Explain(#[from] ExplainFault),
    Audit(#[from] AuditFault),
    Write(#[from] WriteFault),
}

impl PlayError {
    /// Whether memory was refused.
    pub fn is_memory(&self) -> bool {
        match self {
            PlayError::Memory(_)
            | PlayError::Allocation(_)
            | PlayError::Open(OpenFault::NoMemory)
            | PlayError::Record(RecordFault::NoMemory)
            | PlayError::Seal(SealFault::NoMemory)
            | PlayError::Whole(WholeFault::NoMemory)
            | PlayError::Explain(ExplainFault::NoMemory)
            | PlayError::Audit(AuditFault::Whole(WholeFault::NoMemory))
            | PlayError::Audit(AuditFault::Explain(ExplainFault::NoMemory))
            | PlayError::Write(WriteFault::NoMemory) => true,
            PlayError::Arguments(error) => error.kind() == ErrorKind::OutOfMemory,
            _ => false,
        }
    }

    /// The status that the process ends with.
    pub fn status(&self) -> u8 {
        match self {
            halt if halt.is_memory() => 5,
            PlayError::Write(_) => 6,
            _ => 64,
        }
    }
}
