//! Why a certificate could not be judged as its text came.
ghost use Rattle.std.specs.Prelude.{◌≡◌};
ghost use Rattle.tcc_rules.specs.private.Faults.{fault_of};
ghost use Rattle.tcc_rules.specs.declared.stream_fault.StreamFault.TheVariants as fault;

use std::alloc::AllocFailed;
use tcc_cert::{CertFault, CertFaultKind};
use tcc_txn::NoMemory;
use thiserror::Error;

/// Why there is no verdict on the certificate whose text a reader gives.
#[derive(Clone, Copy, Debug, PartialEq, Eq, Error)]
pub enum StreamFault {
    /// The text has a fault, or the reader failed.
    #[error("{0}")]
    Text(CertFault),
    /// Memory was refused.
    #[error("out of memory")]
    NoMemory,
}

impl From<CertFault> for StreamFault {
    ghost from_gives = { λ text f. f ≡ fault_of text };

    fn from(text: CertFault) -> StreamFault {
        match text.kind {
            CertFaultKind::NoMemory => StreamFault::NoMemory,
            _ => StreamFault::Text(text),
        }
    }
}

impl From<NoMemory> for StreamFault {
    ghost from_gives = { λ _ f. f ≡ fault.NoMemory };

    fn from(_error: NoMemory) -> StreamFault {
        StreamFault::NoMemory
    }
}

impl<T: Drop> From<AllocFailed<T>> for StreamFault {
    ghost from_gives = { λ _ f. f ≡ fault.NoMemory };

    fn from(_error: AllocFailed<T>) -> StreamFault {
        StreamFault::NoMemory
    }
}
