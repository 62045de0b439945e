//! The versions of certificates.

/// A version of the certificate's text: how large its numbers may be, and where the rows of `far` begin.
#[derive(Clone, Copy)]
pub enum Version {
    /// Row s of `far` has a number for each transaction.
    One,
    /// Row s of `far` has a number for each transaction from s upward, and counts, numbers, costs and lines are larger.
    Two,
}
