//! The priority queue of a search, over Dial's bucket queue: transactions that are open at a cost, and the nearest of them.
//! The costs of those that are open are in a window as wide as there are buckets, so each bucket has transactions of one
//! cost. An offer is one step. Finding the nearest costs a step for each cost that is passed over, at most the width of
//! the window.
ghost use Rattle.std.specs.Prelude.{◌≡◌, ◌≢◌, ◌<◌, ◌≤◌, ◌+◌, ◌⊎◌, ℕ, length, slice_index, slice_set, All, Contains, IfSome, IfNone, IfOk};
ghost use Rattle.tcc_core.specs.private.Queues.{IsBeginning, IsNearest, IsNext, IsPast, IsFar, IsFiled, offered};
ghost use Rattle.tcc_core.specs.declared.bucket_queue.TheConstants.{BUCKETS};
ghost use Rattle.tcc_core.specs.private.Queues as queues;
ghost use Rattle.tcc_txn.specs.declared.limits.TheConstants.{MAX_COUNT};

use crate::bucket_queue::{BUCKETS, BucketQueue};
use std::alloc::{AllocError, Global};
use std::marker::Model;

/// The cost of a transaction to which no way leads.
pub(crate) const NO_WAY: u32 = u32::MAX;

/// Transactions that are open at a cost.
#[derive(Drop)]
pub(crate) struct Queue {
    /// The cost of what was settled last; 0 at first.
    floor: u32,
    /// Nothing that is open costs more.
    most: u32,
    costs: Vec<u32>,
    buckets: BucketQueue,
    /// The transactions that were reached, as many as are held.
    listed: Vec<u32>,
    held: u32,
}

impl Model for Queue {
    ghost use Rattle.tcc_core.specs.private.Queues as queues;
    ghost use Rattle.tcc_core.specs.private.Queues.{IsFiled, IsListed};

    ghost Value = { queues.Queue };

    ghost view = { λ q. record { costs = q.costs.items; floor = q.floor } };

    ghost invariant = { λ q. IsFiled q.floor q.most q.costs.items q.buckets × IsListed q.held q.listed.items q.costs.items };
}

/// Takes each of these, which are all that were reached, out of its bucket, and removes the ways to them.
fn shut(listed: &[u32], costs: &mut [u32], buckets: &mut BucketQueue)
    requires long { length costs.old ≡ length buckets.old }
    requires below { All (λ v. v < length costs.old) listed.now }
    requires each { (v : ℕ) → v < length costs.old → Contains listed.now v ⊎ IsFar costs.old buckets.old v }
    ensures long { length costs.new ≡ length costs.old }
    ensures same { length buckets.new ≡ length buckets.old }
    ensures shut { (v : ℕ) → v < length costs.old → IsFar costs.new buckets.new v }
{
    for &v in listed {
        if buckets.stands(v) {
            buckets.take(v);
        }
        costs[v as usize] = NO_WAY;
    }
}

impl Queue {
    /// `count` transactions, none of which is open.
    pub(crate) fn begin(alloc: Global, count: u32) -> Result<Queue, AllocError>
        requires { count ≤ MAX_COUNT }
        ensures { IfOk result (IsBeginning count) }
    {
        let costs = vec![in alloc; NO_WAY; count as usize]?;
        let buckets = BucketQueue::begin(alloc, count)?;
        let listed = vec![in alloc; 0; count as usize]?;
        Ok(Queue {
            floor: 0,
            most: 0,
            costs,
            buckets,
            listed,
            held: 0,
        })
    }

    /// Opens a transaction at this cost, or moves it there from where it costs more.
    fn lower(&mut self, v: u32, cost: u32)
        requires within { v < length self.old.costs }
        requires above { self.old.floor < cost }
        requires window { cost < self.old.floor + BUCKETS }
        requires few { cost < NO_WAY }
        requires less { cost < slice_index self.old.costs v }
        ensures { self.new ≡ record self.old { costs = slice_set self.old.costs v cost } }
    {
        if self.costs[v as usize] == NO_WAY {
            self.listed[self.held as usize] = v;
            self.held += 1;
        } else {
            self.buckets.take(v);
        }
        self.buckets.put(v, cost % BUCKETS);
        self.costs[v as usize] = cost;
        self.most = self.most.max(cost);
    }

    /// Offers a way to a transaction: it is open at this cost from now on, if it was open at a greater one or not at all. A
    /// way that costs no more than the floor, or more than one link above it, is passed over.
    pub(crate) fn offer(&mut self, v: u32, cost: u32)
        requires { v < length self.old.costs }
        ensures { self.new ≡ record self.old { costs = offered self.old.floor self.old.costs v cost } }
    {
        if self.floor < cost && cost - self.floor < BUCKETS && cost < self.costs[v as usize] {
            self.lower(v, cost);
        }
    }

    /// An open transaction that none is cheaper than, if it costs at most the cap.
    pub(crate) fn nearest(&self, cap: u64) -> Option<u32>
        ensures some { IfSome result (IsNext self.now cap) }
        ensures none { IfNone result (IsPast cap self.now.costs) }
    {
        let last = if cap < self.most as u64 {
            cap as u32
        } else {
            self.most
        };
        for cost in self.floor..last + 1 {
            if let Some(v) = self.buckets.first(cost % BUCKETS) {
                return Some(v);
            }
        }
        None
    }

    /// Settles one of the nearest: its cost is the floor from now on.
    pub(crate) fn settle(&mut self, v: u32)
        requires { IsNearest self.old.costs v }
        ensures costs { self.new.costs ≡ slice_set self.old.costs v 0 }
        ensures floor { self.new.floor ≡ slice_index self.old.costs v }
        ensures rises { self.old.floor ≤ self.new.floor }
    {
        self.floor = self.costs[v as usize];
        self.buckets.take(v);
        self.costs[v as usize] = 0;
    }

    /// Removes all ways, in time proportional to what was reached.
    pub(crate) fn clear(&mut self)
        ensures { IsBeginning (length self.old.costs) self.new }
    {
        shut(
            &self.listed[..self.held as usize],
            &mut self.costs,
            &mut self.buckets,
        );
        self.held = 0;
        self.most = 0;
        self.floor = 0;
    }

    /// The cost of what was settled last; 0 at first.
    pub(crate) fn floor(&self) -> u32
        ensures { result ≡ self.now.floor }
    {
        self.floor
    }

    /// The transactions to which a way was offered, and perhaps others.
    pub(crate) fn reached(&self) -> &[u32]
        ensures below { All (λ v. v < length self.now.costs) result.now }
        ensures each { (v : ℕ) → v < length self.now.costs → slice_index self.now.costs v ≢ NO_WAY → Contains result.now v }
    {
        &self.listed[..self.held as usize]
    }
}
