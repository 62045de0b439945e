//! Dial's bucket queue (Dial, Shortest-path forest with topological ordering, CACM 12, 1969), the frontier of Dijkstra's algorithm
//! where the greatest cost of an edge is small. To add, to move and to take out a transaction costs one step each.
//!
//! The buckets form a circle, one for each cost of a window as wide as the greatest cost of a link. Each bucket is a doubly
//! linked list that closes over an end of its own. The end of bucket b is index `count + b` of the tables, and links to
//! itself where the bucket is empty. So no call asks whether there is a neighbour.
ghost use Rattle.std.specs.Prelude.{◌≡◌, ◌<◌, ◌≤◌, ◌+◌, ◌^◌, ℕ, length, slice_index, slice_set, IfSome, IfNone, IfOk, IsTrue, ◌↔◌};
ghost use Rattle.tcc_core.specs.private.Buckets.{StandsIn, IsOutOf, AreEmptyBuckets};
ghost use Rattle.tcc_core.specs.declared.bucket_queue.TheConstants.{BUCKETS, NOWHERE};

use std::alloc::{AllocError, Global};
use std::marker::Model;
use tcc_graph::MAX_LINK_COST;

/// How many buckets there are. Costs that differ by at most one link are in buckets of their own.
pub(crate) const BUCKETS: u32 = MAX_LINK_COST as u32 + 1;
/// The bucket of a number that is in none.
pub(crate) const NOWHERE: u32 = u32::MAX;

/// Numbers that are in buckets.
#[derive(Drop)]
pub(crate) struct BucketQueue {
    count: u32,
    next: Vec<u32>,
    prev: Vec<u32>,
    bucket: Vec<u32>,
}

impl Model for BucketQueue {
    ghost use Rattle.std.specs.Prelude.{◌≡◌, ℕ, List, length};
    ghost use Rattle.tcc_core.specs.{private.LinkedBuckets.AreLinked, declared.bucket_queue.TheConstants.BUCKETS};

    ghost Value = { List ℕ };

    ghost view = { λ s. s.bucket.items };

    ghost invariant = { λ s. (s.count ≡ length s.bucket.items) × AreLinked BUCKETS s.next.items s.prev.items s.bucket.items };
}

/// Makes each index from `count` on its own neighbour.
fn close(table: &mut [u32], count: u32)
    requires { length table.old < 2 ^ 32 }
    ensures long { length table.new ≡ length table.old }
    ensures each { (s : ℕ) → count ≤ s → s < length table.old → slice_index table.new s ≡ s }
{
    for s in count as usize..table.len() {
        table[s] = s as u32;
    }
}

impl BucketQueue {
    /// `count` numbers, none of which is in a bucket.
    pub(crate) fn begin(alloc: Global, count: u32) -> Result<BucketQueue, AllocError>
        requires { count + BUCKETS < NOWHERE }
        ensures long { IfOk result (λ buckets. length buckets ≡ count) }
        ensures none { IfOk result (λ buckets. AreEmptyBuckets buckets) }
    {
        let total = (count + BUCKETS) as usize;
        let bucket = vec![in alloc; NOWHERE; count as usize]?;
        let mut next = vec![in alloc; 0; total]?;
        close(&mut next, count);
        let mut prev = vec![in alloc; 0; total]?;
        close(&mut prev, count);
        Ok(BucketQueue {
            count,
            next,
            prev,
            bucket,
        })
    }

    /// Puts a number that is in no bucket into one.
    pub(crate) fn put(&mut self, v: u32, b: u32)
        requires within { v < length self.old }
        requires out { BUCKETS ≤ slice_index self.old v }
        requires b { b < BUCKETS }
        ensures { self.new ≡ slice_set self.old v b }
    {
        let end = self.count + b;
        let first = self.next[end as usize];
        self.next[v as usize] = first;
        self.prev[v as usize] = end;
        self.next[end as usize] = v;
        self.prev[first as usize] = v;
        self.bucket[v as usize] = b;
    }

    /// Takes a number out of its bucket.
    pub(crate) fn take(&mut self, v: u32)
        requires within { v < length self.old }
        requires stands { slice_index self.old v < BUCKETS }
        ensures { self.new ≡ slice_set self.old v NOWHERE }
    {
        let before = self.prev[v as usize];
        let behind = self.next[v as usize];
        self.next[before as usize] = behind;
        self.prev[behind as usize] = before;
        self.bucket[v as usize] = NOWHERE;
    }

    /// A number that is in the bucket.
    pub(crate) fn first(&self, b: u32) -> Option<u32>
        requires { b < BUCKETS }
        ensures some { IfSome result (λ v. StandsIn self.now b v) }
        ensures none { IfNone result ((v : ℕ) → IsOutOf self.now b v) }
    {
        let v = self.next[(self.count + b) as usize];
        if v < self.count { Some(v) } else { None }
    }

    /// Whether a number is in a bucket.
    pub(crate) fn stands(&self, v: u32) -> bool
        requires { v < length self.now }
        ensures { IsTrue result ↔ (slice_index self.now v < BUCKETS) }
    {
        self.bucket[v as usize] < BUCKETS
    }
}
