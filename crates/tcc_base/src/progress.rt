//! Who receives the progress of a call.

/// Receives, from time to time, how many parts of its work a call has done, of how many. No contract depends on what it does.
pub trait Progress {
    fn done(&self, count: usize, all: usize);
}

/// Ignores the progress.
#[derive(Clone, Copy, Drop)]
pub struct Unwatched;

impl Progress for Unwatched {
    fn done(&self, _count: usize, _all: usize) {}
}
