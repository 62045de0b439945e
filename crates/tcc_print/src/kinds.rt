//! The kinds of faults that end a run: the word for each, and how the run ends.
ghost use Rattle.std.specs.Prelude.{◌≡◌};
ghost use Rattle.tcc_print.specs.Kinds.{certificate_told, row_told};

use crate::status::Status;
use tcc_cert::CertFaultKind;
use tcc_rows::RowFaultKind;

/// How a kind of fault is reported.
#[derive(Clone, Copy)]
pub(crate) struct KindReport {
    /// The word for it.
    pub word: &'static str,
    /// How a run ends that was ended by it.
    pub status: Status,
}

impl KindReport {
    fn new(word: &'static str, status: Status) -> KindReport
        ensures word { result.word.now ≡ word.now }
        ensures status { result.status ≡ status }
    {
        KindReport { word, status }
    }
}

/// How a kind of row fault is reported.
pub(crate) fn row_told(kind: &RowFaultKind) -> KindReport
    ensures word { result.word.now ≡ (row_told kind.now).word }
    ensures status { result.status ≡ (row_told kind.now).status }
{
    match kind {
        RowFaultKind::FieldCount => KindReport::new("FieldCount", Status::RowFault),
        RowFaultKind::BadSession => KindReport::new("BadSession", Status::RowFault),
        RowFaultKind::UnknownWord => KindReport::new("UnknownWord", Status::RowFault),
        RowFaultKind::BadKey => KindReport::new("BadKey", Status::RowFault),
        RowFaultKind::BadValue => KindReport::new("BadValue", Status::RowFault),
        RowFaultKind::WriteOfZero => KindReport::new("WriteOfZero", Status::RowFault),
        RowFaultKind::SessionEnded => KindReport::new("SessionEnded", Status::RowFault),
        RowFaultKind::NotBegun => KindReport::new("NotBegun", Status::RowFault),
        RowFaultKind::AlreadyBegun => KindReport::new("AlreadyBegun", Status::RowFault),
        RowFaultKind::TooManyOps => KindReport::new("TooManyOps", Status::Limit),
        RowFaultKind::TooManySessions => KindReport::new("TooManySessions", Status::Limit),
        RowFaultKind::TooManyTransactions => KindReport::new("TooManyTransactions", Status::Limit),
        RowFaultKind::TooManyKeys => KindReport::new("TooManyKeys", Status::Limit),
        RowFaultKind::TooManySeals => KindReport::new("TooManySeals", Status::Limit),
        RowFaultKind::Unfinished { .. } => KindReport::new("Unfinished", Status::RowFault),
        RowFaultKind::Read => KindReport::new("Read", Status::Device),
        RowFaultKind::NoMemory => KindReport::new("NoMemory", Status::Memory),
    }
}

/// How a kind of fault in the text of a certificate is reported.
pub(crate) fn certificate_told(kind: CertFaultKind) -> KindReport
    ensures word { result.word.now ≡ (certificate_told kind).word }
    ensures status { result.status ≡ (certificate_told kind).status }
{
    match kind {
        CertFaultKind::Header => KindReport::new("Header", Status::CertificateFault),
        CertFaultKind::Word => KindReport::new("Word", Status::CertificateFault),
        CertFaultKind::Number => KindReport::new("Number", Status::CertificateFault),
        CertFaultKind::Count => KindReport::new("Count", Status::CertificateFault),
        CertFaultKind::TooLarge => KindReport::new("TooLarge", Status::CertificateFault),
        CertFaultKind::Truncated => KindReport::new("Truncated", Status::CertificateFault),
        CertFaultKind::Trailing => KindReport::new("Trailing", Status::CertificateFault),
        CertFaultKind::Read => KindReport::new("Read", Status::Device),
        CertFaultKind::NoMemory => KindReport::new("NoMemory", Status::Memory),
    }
}
