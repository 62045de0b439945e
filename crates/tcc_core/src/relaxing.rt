//! Relaxation of links: ways that are offered to the transactions of a queue, many at a time. After each offer a
//! transaction is open at the least cost that it was offered so far. It takes a step for each link.
ghost use Rattle.std.specs.Prelude.{◌≡◌, ◌<◌, ◌≤◌, ◌+◌, length};
ghost use Rattle.std.specs.List.{AllPairs};
ghost use Rattle.tcc_core.specs.private.Offers.{IsOffered, IsWayBy, MayOffer};
ghost use Rattle.tcc_core.specs.declared.bucket_queue.TheConstants.{BUCKETS};

use crate::queue::Queue;

/// Offers a way at this cost to each transaction from `from` to before `to`.
pub(crate) fn offer_each(queue: &mut Queue, from: u32, to: u32, cost: u32)
    requires upward { from ≤ to }
    requires within { to ≤ length queue.old.costs }
    requires window { cost < queue.old.floor + BUCKETS }
    ensures floor { queue.new.floor ≡ queue.old.floor }
    ensures offered { IsOffered (λ v n. (from ≤ v) × (v < to) × (cost ≡ n)) queue.old.floor queue.old.costs queue.new.costs }
{
    for v in from..to {
        queue.offer(v, cost);
    }
}

/// Offers the ways on by these links, from a transaction at cost `so_far`, to transactions from the start upward, as far as
/// a link costs at most `left`. The links come in ascending cost: none is looked at after the first that costs more.
pub(crate) fn offer_cheapest(
    queue: &mut Queue,
    links: &[(u16, u16)],
    start: u32,
    so_far: u32,
    left: u32,
)
    requires may { MayOffer links.now so_far left queue.old }
    requires ascending { AllPairs (λ p q. p.1 ≤ q.1) links.now }
    ensures floor { queue.new.floor ≡ queue.old.floor }
    ensures offered { IsOffered (IsWayBy links.now start so_far left) queue.old.floor queue.old.costs queue.new.costs }
{
    for &(to, cost) in links {
        if cost as u32 > left {
            return;
        }
        if to as u32 >= start {
            queue.offer(to as u32, so_far + cost as u32);
        }
    }
}

/// Offers the ways on by these links, as far as a link costs at most `left`, whatever order they come in.
pub(crate) fn offer_within(
    queue: &mut Queue,
    links: &[(u32, u32)],
    start: u32,
    so_far: u32,
    left: u32,
)
    requires { MayOffer links.now so_far left queue.old }
    ensures floor { queue.new.floor ≡ queue.old.floor }
    ensures offered { IsOffered (IsWayBy links.now start so_far left) queue.old.floor queue.old.costs queue.new.costs }
{
    for &(to, cost) in links {
        if cost <= left && to >= start {
            queue.offer(to, so_far + cost);
        }
    }
}
