//! Why a run has no answer or no verdict.
ghost use Rattle.std.specs.Prelude.{◌≡◌};
ghost use Rattle.tcc_print.specs.{RunErrors.by_row, private.RunErrors.by_stream, private.RunErrors.unresolved_by};
ghost use Rattle.tcc_print.specs.declared.run_error.RunError.TheVariants as error;

use tcc_cert::CertFault;
use tcc_reads::{ReadFault, ResolveFault};
use tcc_rows::{RowFault, RowFaultKind};
use tcc_rules::StreamFault;
use tcc_txn::NoMemory;

/// Why there is no answer for a history, or no verdict on a certificate for it.
#[derive(Drop)]
pub enum RunError {
    /// A record has a fault, other than `NoMemory`.
    Row(RowFault),
    /// The history has read faults; all of them.
    Reads(Vec<ReadFault>),
    /// The text of the certificate has a fault, other than `NoMemory`.
    Text(CertFault),
    /// Memory was refused.
    NoMemory,
}

impl From<NoMemory> for RunError {
    ghost from_gives = { λ _ h. h ≡ error.NoMemory };

    fn from(_error: NoMemory) -> RunError {
        RunError::NoMemory
    }
}

impl From<RowFault> for RunError {
    ghost from_gives = { λ fault h. h ≡ by_row fault };

    fn from(fault: RowFault) -> RunError {
        if matches!(fault.kind, RowFaultKind::NoMemory) {
            RunError::NoMemory
        } else {
            RunError::Row(fault)
        }
    }
}

impl From<ResolveFault> for RunError {
    ghost from_gives = { λ fault h. h ≡ unresolved_by fault };

    fn from(fault: ResolveFault) -> RunError {
        match fault {
            ResolveFault::NoMemory => RunError::NoMemory,
            ResolveFault::Reads(faults) => RunError::Reads(faults),
        }
    }
}

impl From<StreamFault> for RunError {
    ghost from_gives = { λ fault h. h ≡ by_stream fault };

    fn from(fault: StreamFault) -> RunError {
        match fault {
            StreamFault::Text(fault) => RunError::Text(fault),
            StreamFault::NoMemory => RunError::NoMemory,
        }
    }
}
