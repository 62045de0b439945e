//! Why a certificate could not be written or read.
ghost use Rattle.std.specs.Prelude.{◌≡◌};
ghost use Rattle.tcc_cert.specs.declared.fault.CertFaultKind.TheVariants.{NoMemory};

use std::alloc::{AllocError, AllocFailed};
use std::io;
use thiserror::Error;

/// Why a certificate could not be written as a whole.
#[derive(Clone, Copy, Debug, PartialEq, Eq, Error)]
pub enum CertWriteFault {
    /// A write failed, was interrupted, or took no bytes.
    #[error("the certificate could not be written")]
    Device,
}

impl From<io::Error> for CertWriteFault {
    fn from(_error: io::Error) -> CertWriteFault {
        CertWriteFault::Device
    }
}

/// What is wrong with a line of a certificate's text.
#[derive(Clone, Copy, Debug, PartialEq, Eq, Error)]
pub enum CertFaultKind {
    /// The first line names no version, or no level of it.
    #[error("the first line is none that a certificate begins with")]
    Header,
    /// The first word is not one that the line may begin with, or a key is not a name.
    #[error("a word that cannot stand there")]
    Word,
    /// A word is not a decimal number without leading zeros, or is 0 where the least is 1.
    #[error("no number")]
    Number,
    /// There are more words than the line may have, or fewer.
    #[error("another number of words")]
    Count,
    /// A number is above its range, or the line has more bytes than the version allows.
    #[error("too large")]
    TooLarge,
    /// The input ended before the line feed.
    #[error("the text is cut")]
    Truncated,
    /// The text goes on after its end.
    #[error("the text goes on after its end")]
    Trailing,
    /// The reader failed.
    #[error("the reader failed")]
    Read,
    /// Out of memory.
    #[error("out of memory")]
    NoMemory,
}

impl From<AllocError> for CertFaultKind {
    ghost from_gives = { λ _ e. e ≡ NoMemory };

    fn from(_error: AllocError) -> CertFaultKind {
        CertFaultKind::NoMemory
    }
}

impl<T: Drop> From<AllocFailed<T>> for CertFaultKind {
    ghost from_gives = { λ _ e. e ≡ NoMemory };

    fn from(_error: AllocFailed<T>) -> CertFaultKind {
        CertFaultKind::NoMemory
    }
}

/// The first line of a certificate's text with a fault.
#[derive(Clone, Copy, Debug, PartialEq, Eq, Error)]
#[error("line {line}: {kind}")]
pub struct CertFault {
    /// Counted from 1.
    pub line: u64,
    pub kind: CertFaultKind,
}
