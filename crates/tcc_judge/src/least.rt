//! The number that means no transaction.

/// Means no transaction: it is greater than the number of any.
pub(crate) const NONE: u32 = u32::MAX;
