//! The frontier of a search: the transactions to which ways are known, open at the cost of the cheapest. Session pairs lead
//! on to whole ends of sessions. So for each session a mark is kept, from which on all were reached by such a pair. What a
//! session pair reaches later costs no less, and need not be offered again. So in a search the session pairs of N
//! transactions take N steps in all.
ghost use Rattle.std.specs.Prelude.{◌≡◌, ◌≢◌, ◌<◌, ◌≤◌, ◌+◌, ◌^◌, ◌⊎◌, ℕ, true, length, slice_index, slice_set, All, Contains, IfSome, IfNone, IfOk};
ghost use Rattle.tcc_graph.specs.Levels.{Judged};
ghost use Rattle.tcc_derive.specs.Prices.{IsPricesOf};
ghost use Rattle.tcc_core.specs.{private.Levels.AreLevels, private.Levels.AreClassed, declared.queue.TheConstants.NO_WAY, declared.bucket_queue.TheConstants.BUCKETS, declared.frontier.TheConstants.UNMARKED};
ghost use Rattle.tcc_core.specs.private.Queues.{IsBeginning, IsNearest, IsNext, IsPast};
ghost use Rattle.tcc_core.specs.private.Offers.{IsLower, IsOffered, IsMarked, IsWayOn, IsOfferedBy};
ghost use Rattle.tcc_txn.specs.declared.limits.TheConstants.{MAX_COUNT};

use crate::bucket_queue::BUCKETS;
use crate::levels::{CostMarks, begin_levels, forget, offer_classes};
use crate::queue::Queue;
use crate::relaxing::{offer_cheapest, offer_each, offer_within};
use std::alloc::{AllocError, Global};
use std::marker::Model;
use tcc_derive::Prices;

/// The mark of a session in which none was reached by a session pair.
const UNMARKED: u32 = u32::MAX;

/// Transactions that are open at the cost of a way there.
#[derive(Drop)]
pub(crate) struct Frontier {
    queue: Queue,
    /// For each session, at the index of its last transaction: from which transaction on all were reached by a session pair.
    marks: Vec<u32>,
    /// What is met at some costs: those of links that are in rows of marks.
    levels: Vec<CostMarks>,
}

impl Model for Frontier {
    ghost use Rattle.tcc_core.specs.private.Queues as queues;
    ghost use Rattle.tcc_core.specs.{private.Offers.IsMarked, private.Levels.AreLevels};

    ghost Value = { queues.Queue };

    ghost view = { λ f. f.queue };

    ghost invariant = { λ f. IsMarked f.queue.floor f.queue.costs f.marks.items × AreLevels f.queue.costs f.levels.items };
}

/// Removes the marks of these.
fn unmark(reached: &[u32], marks: &mut [u32])
    requires { All (λ v. v < length marks.old) reached.now }
    ensures long { length marks.new ≡ length marks.old }
    ensures unmarked { (v : ℕ) → v < length marks.old → Contains reached.now v → slice_index marks.new v ≡ UNMARKED }
    ensures kept { (v : ℕ) → v < length marks.old → (slice_index marks.new v ≡ slice_index marks.old v) ⊎ (slice_index marks.new v ≡ UNMARKED) }
{
    for &v in reached {
        marks[v as usize] = UNMARKED;
    }
}

/// Whether the links that are kept by classes of cost are all that cost at most `left`, other than session links.
fn are_classed(prices: &Prices, left: u32) -> bool
    ensures { result ≡ true → AreClassed prices.now left }
{
    left <= prices.limit() as u32 || prices.is_whole()
}

/// Offers the ways on by links other than session links from a transaction at cost `so_far`. They lead to transactions from
/// the start upward, by links that cost at most `left`.
fn offer_others(
    queue: &mut Queue,
    levels: &mut [CostMarks],
    prices: &Prices,
    start: u32,
    u: u32,
    so_far: u32,
    left: u32,
)
    requires below { u < length prices.now.prices }
    requires long { length queue.old.costs ≡ length prices.now.prices }
    requires few { length queue.old.costs ≤ MAX_COUNT }
    requires levels { AreLevels queue.old.costs levels.old }
    requires small { queue.old.floor < 2 ^ 31 }
    requires so_far { so_far ≤ queue.old.floor }
    requires left { left < BUCKETS }
    ensures floor { queue.new.floor ≡ queue.old.floor }
    ensures lower { IsLower queue.old.floor queue.old.costs queue.new.costs }
    ensures levels { AreLevels queue.new.costs levels.new }
    ensures offered { (j : Judged) → IsPricesOf j prices.now
        → IsOfferedBy prices.now start u so_far left queue.old.floor queue.old.costs queue.new.costs }
{
    if are_classed(prices, left) {
        let links = prices.by_class(u);
        offer_classes(queue, levels, &links.classes, start, so_far, left);
        offer_cheapest(queue, links.rest.as_slice(), start, so_far, left);
    } else {
        offer_within(queue, prices.others(u), start, so_far, left);
    }
}

impl Frontier {
    /// `count` transactions, to none of which a way is known.
    pub(crate) fn begin(alloc: Global, count: u32) -> Result<Frontier, AllocError>
        requires { count ≤ MAX_COUNT }
        ensures { IfOk result (IsBeginning count) }
    {
        let queue = Queue::begin(alloc, count)?;
        let marks = vec![in alloc; UNMARKED; count as usize]?;
        let levels = begin_levels(alloc, count)?;
        Ok(Frontier {
            queue,
            marks,
            levels,
        })
    }

    /// Offers a way by a session pair, from a transaction at the cost of the floor, to each of these transactions of a
    /// session. From the mark of the session on all have one.
    fn reach_later(&mut self, from: u32, end: u32)
        requires some { 0 < end }
        requires within { end ≤ length self.old.costs }
        requires small { self.old.floor < 2 ^ 31 }
        ensures floor { self.new.floor ≡ self.old.floor }
        ensures offered { IsOffered (λ v n. (from ≤ v) × (v < end) × (self.old.floor + 1 ≡ n)) self.old.floor self.old.costs self.new.costs }
    {
        let last = end as usize - 1;
        let mark = self.marks[last].min(end);
        if from < mark {
            let cost = self.queue.floor() + 1;
            offer_each(&mut self.queue, from, mark, cost);
            self.marks[last] = from;
        }
    }

    /// Offers the ways on by links from a transaction at a cost of at most the floor, as far as they are within the cap. A
    /// session pair that costs no more than the floor was within the cap before.
    pub(crate) fn lead_on(&mut self, prices: &Prices, start: u32, u: u32, so_far: u32, cap: u64)
        requires below { u < length prices.now.prices }
        requires long { length self.old.costs ≡ length prices.now.prices }
        requires few { length self.old.costs ≤ MAX_COUNT }
        requires small { self.old.floor < 2 ^ 31 }
        requires so_far { so_far ≤ self.old.floor }
        ensures floor { self.new.floor ≡ self.old.floor }
        ensures lower { IsLower self.old.floor self.old.costs self.new.costs }
        ensures offered { (j : Judged) → IsPricesOf j prices.now
            → IsOffered (IsWayOn prices.now start u so_far cap) self.old.floor self.old.costs self.new.costs }
    {
        if so_far as u64 >= cap {
            return;
        }
        let left = (cap - so_far as u64).min(BUCKETS as u64 - 1) as u32;
        let (first, end) = prices.later(u);
        if so_far == self.queue.floor() {
            self.reach_later(first.max(start), end);
        }
        offer_others(
            &mut self.queue,
            &mut self.levels,
            prices,
            start,
            u,
            so_far,
            left,
        );
    }

    /// One of the nearest of those that are open, if it costs at most the cap.
    pub(crate) fn nearest(&self, cap: u64) -> Option<u32>
        ensures some { IfSome result (IsNext self.now cap) }
        ensures none { IfNone result (IsPast cap self.now.costs) }
    {
        self.queue.nearest(cap)
    }

    /// Settles one of the nearest, and returns its cost, which is the floor from now on.
    pub(crate) fn settle(&mut self, v: u32) -> u32
        requires { IsNearest self.old.costs v }
        ensures cost { result ≡ slice_index self.old.costs v }
        ensures costs { self.new.costs ≡ slice_set self.old.costs v 0 }
        ensures floor { self.new.floor ≡ slice_index self.old.costs v }
        ensures rises { self.old.floor ≤ self.new.floor }
    {
        self.queue.settle(v);
        self.queue.floor()
    }

    /// The transactions to which a way is known, and perhaps others.
    pub(crate) fn reached(&self) -> &[u32]
        ensures below { All (λ v. v < length self.now.costs) result.now }
        ensures each { (v : ℕ) → v < length self.now.costs → slice_index self.now.costs v ≢ NO_WAY → Contains result.now v }
    {
        self.queue.reached()
    }

    /// Removes all ways and marks, in time proportional to what was reached.
    pub(crate) fn clear(&mut self)
        requires small { self.old.floor < 2 ^ 31 }
        requires few { length self.old.costs ≤ MAX_COUNT }
        ensures { IsBeginning (length self.old.costs) self.new }
    {
        unmark(self.queue.reached(), &mut self.marks);
        forget(&mut self.levels);
        self.queue.clear();
    }
}
