//! Why an answer could not be written.
ghost use Rattle.std.specs.Prelude.{◌≡◌};
ghost use Rattle.tcc_answer.specs.declared.fault.WriteFault.TheVariants as fault;

use std::alloc::AllocError;
use std::io;
use tcc_txn::NoMemory;
use thiserror::Error;

/// Why an answer could not be written as a whole.
#[derive(Clone, Copy, Debug, PartialEq, Eq, Error)]
pub enum WriteFault {
    /// A write failed, was interrupted, or took no bytes.
    #[error("the answer could not be written")]
    Device,
    /// Out of memory; nothing was written.
    #[error("out of memory")]
    NoMemory,
}

impl From<io::Error> for WriteFault {
    ghost from_gives = { λ error to. to ≡ fault.Device };

    fn from(_error: io::Error) -> WriteFault {
        WriteFault::Device
    }
}

impl From<NoMemory> for WriteFault {
    ghost from_gives = { λ error to. to ≡ fault.NoMemory };

    fn from(_error: NoMemory) -> WriteFault {
        WriteFault::NoMemory
    }
}

impl From<AllocError> for WriteFault {
    ghost from_gives = { λ error to. to ≡ fault.NoMemory };

    fn from(_error: AllocError) -> WriteFault {
        WriteFault::NoMemory
    }
}
