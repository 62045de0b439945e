//! How a run ends, and the code that says so.
ghost use Rattle.std.specs.Prelude.{◌≡◌, length};
ghost use Rattle.tcc_print.specs.Statuses.{answer_status, certificate_status, code_of, run_error_status, last_status, order_status, row_status, verdict_status};

use crate::kinds::{certificate_told, row_told};
use crate::run_error::RunError;
use tcc_answer::Answer;
use tcc_cert::CertFaultKind;
use tcc_rows::RowFaultKind;
use tcc_rules::Verdict;

/// How a run ended; its code is the status of the process. README and the man page have these words.
#[derive(Clone, Copy, Debug, PartialEq, Eq)]
pub enum Status {
    /// Consistent; accepted; help or version asked for.
    Success,
    /// An anomaly.
    Anomaly,
    /// Unresolved reads.
    ReadFaults,
    /// A record that breaks a rule, or input that ended inside a transaction.
    RowFault,
    /// Fewer transactions than `--require` wants.
    TooFew,
    /// A limit of the records is passed.
    Limit,
    /// Out of memory.
    Memory,
    /// The input, the output or a file failed, or there are too many bytes.
    Device,
    /// The certificate is rejected.
    Rejected,
    /// The certificate's text is wrong.
    CertificateFault,
    /// A wrong command line.
    Usage,
}

impl Status {
    /// The code that the process ends with.
    pub fn code(self) -> u8
        ensures { result ≡ code_of self }
    {
        match self {
            Status::Success => 0,
            Status::Anomaly => 1,
            Status::ReadFaults => 2,
            Status::RowFault | Status::TooFew => 3,
            Status::Limit => 4,
            Status::Memory => 5,
            Status::Device => 6,
            Status::Rejected => 7,
            Status::CertificateFault => 8,
            Status::Usage => 64,
        }
    }
}

/// How a run ends that gave this order: without `init` it has to have the transactions that are required.
pub fn order_status(order: &[u32], required: u32) -> Status
    ensures { result ≡ order_status required (length order.now) }
{
    if order.len().saturating_sub(1) < required as usize {
        Status::TooFew
    } else {
        Status::Success
    }
}

/// How a run ends that gave this answer, where an order has to have this number of transactions.
pub fn answer_status(answer: &Answer, required: u32) -> Status
    ensures { result ≡ answer_status required answer.now }
{
    match answer {
        Answer::Commit(commit) => order_status(commit.order(), required),
        Answer::Anomaly(_) => Status::Anomaly,
    }
}

/// How a run ends whose last answer this is; `None` is for read faults.
pub fn last_status(answer: &Option<Answer>, required: u32) -> Status
    ensures { result ≡ last_status required answer.now }
{
    match answer {
        Some(answer) => answer_status(answer, required),
        None => Status::ReadFaults,
    }
}

/// How a run ends that gave this verdict.
pub fn verdict_status<R: Drop>(verdict: Verdict<R>) -> Status
    ensures { result ≡ verdict_status verdict }
{
    match verdict {
        Verdict::Accepted => Status::Success,
        Verdict::Rejected { .. } => Status::Rejected,
    }
}

/// How a run ends that was ended by a row fault.
pub fn row_status(kind: &RowFaultKind) -> Status
    ensures { result ≡ row_status kind.now }
{
    row_told(kind).status
}

/// How a run ends that was ended by a fault in the text of a certificate.
pub fn certificate_status(kind: CertFaultKind) -> Status
    ensures { result ≡ certificate_status kind }
{
    certificate_told(kind).status
}

/// How a run ends that has no answer or no verdict.
pub fn run_error_status(error: &RunError) -> Status
    ensures { result ≡ run_error_status error.now }
{
    match error {
        RunError::Row(fault) => row_status(&fault.kind),
        RunError::Reads(_) => Status::ReadFaults,
        RunError::Text(fault) => certificate_status(fault.kind),
        RunError::NoMemory => Status::Memory,
    }
}
