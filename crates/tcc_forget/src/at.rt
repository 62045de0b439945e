//! Where a transaction is in its session.

/// The number of its session, and its place there, from 1.
#[derive(Clone, Copy, Debug, PartialEq, Eq)]
pub struct SessionPlace {
    pub session: u32,
    pub place: u32,
}
