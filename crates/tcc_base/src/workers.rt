//! The number of workers of a search.
ghost use Rattle.std.specs.Prelude.{◌≡◌, ◌<◌, ◌≤◌, ◌↔◌, IfSome, IsSome};
ghost use Rattle.tcc_base.specs.declared.workers.TheConstants.{MAX_WORKERS};

use std::marker::Model;

/// The most workers of a search.
pub const MAX_WORKERS: u32 = 32;

/// How many workers search: at least one, and at most `MAX_WORKERS`.
#[derive(Clone, Copy, Debug, PartialEq, Eq)]
pub struct Workers {
    count: u32,
}

impl Model for Workers {
    ghost use Rattle.std.specs.Prelude.{◌<◌, ◌≤◌, ℕ};
    ghost use Rattle.tcc_base.specs.declared.workers.TheConstants.{MAX_WORKERS};

    ghost Value = { ℕ };

    ghost view = { λ w. w.count };

    ghost invariant = { λ w. (0 < w.count) × (w.count ≤ MAX_WORKERS) };

    ghost inverse = { λ n. record { count = n } };
}

impl Workers {
    /// One worker.
    pub const ONE: Workers = Workers { count: 1 };

    /// This many workers. There is no value of this type where the count is 0 or above `MAX_WORKERS`.
    pub fn new(count: u32) -> Option<Workers>
        ensures taken { IsSome result ↔ ((0 < count) × (count ≤ MAX_WORKERS)) }
        ensures value { IfSome result (λ workers. workers ≡ count) }
    {
        if 1 <= count && count <= MAX_WORKERS {
            Some(Workers { count })
        } else {
            None
        }
    }

    /// How many workers there are.
    pub fn count(self) -> u32
        ensures value { result ≡ self }
        ensures range { (0 < result) × (result ≤ MAX_WORKERS) }
    {
        self.count
    }
}
