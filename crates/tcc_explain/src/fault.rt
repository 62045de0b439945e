//! Why a snapshot has no answer at the level of an earlier anomaly.
ghost use Rattle.std.specs.Prelude.{◌≡◌};
ghost use Rattle.tcc_explain.specs.declared.fault.NextFault.TheVariants as next;
ghost use Rattle.tcc_explain.specs.private.Stages.{next_fault};

use tcc_reads::{ReadFault, ResolveFault};
use tcc_txn::NoMemory;
use thiserror::Error;

/// Why a snapshot was not explained where an earlier anomaly had been found.
#[derive(Debug, Drop, Error)]
pub enum NextFault {
    /// All faulty operations, by session name in byte order, place and operation; at least one.
    #[error("some operations read or write what no source explains")]
    Reads(Vec<ReadFault>),
    /// A growth was refused.
    #[error("out of memory")]
    NoMemory,
    /// This link of the earlier anomaly, the first, counted from 1, is not a link of the snapshot's history.
    #[error("link {link} of the earlier anomaly is none of this history's")]
    NotNested { link: usize },
}

impl From<NoMemory> for NextFault {
    ghost from_gives = { λ error to. to ≡ next.NoMemory };

    fn from(_error: NoMemory) -> NextFault {
        NextFault::NoMemory
    }
}

impl From<ResolveFault> for NextFault {
    ghost from_gives = { λ fault to. to ≡ next_fault fault };

    fn from(fault: ResolveFault) -> NextFault {
        match fault {
            ResolveFault::Reads(faults) => NextFault::Reads(faults),
            ResolveFault::NoMemory => NextFault::NoMemory,
        }
    }
}
