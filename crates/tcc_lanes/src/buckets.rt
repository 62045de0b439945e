//! A bucket queue (Dial, CACM 12(11), 1969): members by what it costs to come to them. To put one in takes a step, and one for each cost up
//! to its own that no member had before.
ghost use Rattle.std.specs.Prelude.{◌≡◌, ◌≤◌, ◌<◌, ◌↔◌, ◌⊎◌, [], ℕ, Contains, IsTrue, length, set, OnOk};
ghost use Rattle.tcc_graph.specs.Tables.{row_of};

use std::alloc::Global;
use tcc_bits::Row;
use tcc_txn::NoMemory;

/// Adds buckets until there are `count`, if there are fewer.
fn grow(alloc: Global, buckets: &mut Vec<Row<usize>>, count: usize) -> Result<(), NoMemory>
    ensures long { OnOk result (count ≤ length buckets.new.items) }
    ensures kept { OnOk result ((cost : ℕ) → row_of buckets.new.items cost ≡ row_of buckets.old.items cost) }
{
    for _bucket in buckets.len()..count {
        let empty = Vec::new(alloc);
        buckets.push(Row::new(empty))?;
    }
    Ok(())
}

/// Puts a member into the bucket of a cost.
pub(crate) fn put(
    alloc: Global,
    buckets: &mut Vec<Row<usize>>,
    cost: u32,
    member: usize,
) -> Result<(), NoMemory>
    ensures { OnOk result ((k v : ℕ) → Contains (row_of buckets.new.items k) v
        ↔ (Contains (row_of buckets.old.items k) v ⊎ ((k ≡ cost) × (v ≡ member)))) }
{
    grow(alloc, buckets, cost as usize + 1)?;
    buckets[cost as usize].push(member)?;
    Ok(())
}

/// Takes out the members that are in the bucket of a cost.
pub(crate) fn take(alloc: Global, buckets: &mut Vec<Row<usize>>, cost: u32) -> Row<usize>
    requires { cost < length buckets.old.items }
    ensures taken { result ≡ row_of buckets.old.items cost }
    ensures left { buckets.new.items ≡ set buckets.old.items cost [] }
{
    std::mem::replace(&mut buckets[cost as usize], Row::new(Vec::new(alloc)))
}

/// Whether there is no bucket of this cost, nor of a greater one.
pub(crate) fn is_past(buckets: &[Row<usize>], cost: u32) -> bool
    ensures { IsTrue result ↔ (length buckets.now ≤ cost) }
{
    buckets.len() <= cost as usize
}
