//! What comes next in a stream of requests.

use crate::question::Question;

/// A request whose body came whole.
#[derive(Drop)]
pub struct Request {
    pub question: Question,
    /// The records.
    pub records: Vec<u8>,
    /// The text of the certificate, which only a check has.
    pub certificate: Vec<u8>,
}

/// Why a request is refused.
#[derive(Clone, Copy, Debug, PartialEq, Eq)]
pub enum Refusal {
    /// There is no line with the lengths of a body, so where the next request begins is unknown.
    Header,
    /// The stream ended within the body.
    Cut,
    /// The body is longer than `MAX_BODY_BYTES`.
    TooLong,
    /// What is asked isn't known.
    Unknown,
    /// Memory is out.
    Memory,
}

/// What comes next in a stream that hasn't ended.
#[derive(Drop)]
pub enum Turn {
    Asked(Request),
    Refused(Refusal),
}
