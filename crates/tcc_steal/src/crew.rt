//! Which thieves start, and when they end.

/// Decides for each thief whether it is started, and after how many retries in a row it ends. Worker 0, which owns the
/// deque, always starts.
pub trait Crew: Sync {
    fn starts(&self, worker: u32) -> bool;

    fn retries(&self, worker: u32) -> u32;
}

/// Every thief starts, and ends after 1,024 retries in a row.
#[derive(Clone, Copy, Drop)]
pub struct AllStart;

impl Crew for AllStart {
    ghost use Rattle.std.specs.Prelude.{◌≡◌, true};

    fn starts(&self, _worker: u32) -> bool
        ensures { result ≡ true }
    {
        true
    }

    fn retries(&self, _worker: u32) -> u32
        ensures { result ≡ 1024 }
    {
        1024
    }
}
