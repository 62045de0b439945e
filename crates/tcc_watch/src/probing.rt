//! Galloping search from the end (Bentley and Yao, 1976), for lists whose end is asked for most often. The first probes double their
//! distance from the end, until one comes before the answer. From there on it is a binary search. An answer at distance d from the end
//! takes O(log d) probes.
ghost use Rattle.std.specs.Prelude.{◌≤◌, ◌<◌};

/// Which index from `low` to below `high` is probed next, of `len` in all.
pub(crate) fn probed(low: usize, high: usize, len: usize) -> usize
    requires { low < high }
    ensures from { low ≤ result }
    ensures below { result < high }
{
    if low == 0 {
        high.saturating_sub(len.saturating_sub(high).max(1))
    } else {
        low + (high - low) / 2
    }
}
