//! The session and the place of transactions.

/// A transaction's session, and its place there; 0 and 0 for `init`.
#[derive(Clone, Copy, Drop)]
pub(crate) struct At {
    pub session: u32,
    pub place: u32,
}
