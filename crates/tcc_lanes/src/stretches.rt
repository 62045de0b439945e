//! Run-length encoding of what links from one member cost: neighbouring columns with the same price are one stretch. Members of one session
//! are neighbours, and mostly cost the same. A row of S stretches takes 8 S bytes, and S steps to go through.
ghost use Rattle.std.specs.Prelude.{◌≡◌, ◌≢◌, ◌≤◌, ◌<◌, ◌+◌, ◌^◌, ◌++◌, ◌∷◌, [], ◌⊎◌, ℕ, false, length, slice_index, min, IfOk, OnOk};
ghost use Rattle.tcc_lanes.specs.private.Buckets.{AreQueuedOn};

use crate::buckets::put;
use crate::pricing::NONE;
use std::alloc::Global;
use std::marker::Model;
use tcc_bits::Row;
use tcc_txn::NoMemory;

/// Neighbouring columns with the same price.
#[derive(Clone, Copy, Drop)]
struct Stretch {
    /// How many columns.
    columns: u32,
    /// What each of them costs.
    price: u32,
}

/// What links from one member to each member cost.
#[derive(Drop)]
pub(crate) struct PriceRow {
    stretches: Vec<Stretch>,
}

impl Model for PriceRow {
    ghost use Rattle.std.specs.Prelude.{ℕ, List};
    ghost use Rattle.tcc_lanes.specs.private.Stretches.{prices_in};

    ghost Value = { List ℕ };

    ghost view = { λ r. prices_in r.stretches.items };
}

/// Lowers the cost of a member to the sum of a level and a price, if it was dearer, and puts it into the bucket of the new cost.
fn lower_at(
    alloc: Global,
    costs: &mut [u32],
    buckets: &mut Vec<Row<usize>>,
    member: usize,
    level: u32,
    price: u32,
) -> Result<(), NoMemory>
    requires inside { member < length costs.old }
    ensures same { length costs.new ≡ length costs.old }
    ensures here { OnOk result (slice_index costs.new member ≡ min (slice_index costs.old member) (level + price)) }
    ensures rest { OnOk result ((v : ℕ) → v ≢ member → slice_index costs.new v ≡ slice_index costs.old v) }
    ensures queued { OnOk result (AreQueuedOn costs.old buckets.old.items costs.new buckets.new.items) }
{
    let cost = level.saturating_add(price);
    if costs[member] <= cost {
        return Ok(());
    }
    costs[member] = cost;
    put(alloc, buckets, cost, member)?;
    Ok(())
}

/// Whether anything is dearer: something was before, or this cost is.
fn is_dearer_by(is_dearer: bool, old: u32, cost: u32) -> bool
    ensures { result ≡ false → (is_dearer ≡ false) × (old ≤ cost) }
{
    is_dearer || cost < old
}

/// Whether one of some columns is dearer than a cost.
fn any_dearer(costs: &[u32], from: usize, end: usize, cost: u32) -> bool
    requires { end ≤ length costs.now }
    ensures { result ≡ false → (v : ℕ) → from ≤ v → v < end → slice_index costs.now v ≤ cost }
{
    let mut is_dearer = false;
    for v in from..end {
        is_dearer = is_dearer_by(is_dearer, costs[v], cost);
    }
    is_dearer
}

/// Lowers the costs of some columns to the sum of a level and a price.
fn lower_columns(
    alloc: Global,
    costs: &mut [u32],
    buckets: &mut Vec<Row<usize>>,
    from: usize,
    end: usize,
    level: u32,
    price: u32,
) -> Result<(), NoMemory>
    requires order { from ≤ end }
    requires end { end ≤ length costs.old }
    ensures same { length costs.new ≡ length costs.old }
    ensures each { OnOk result ((v : ℕ) → from ≤ v → v < end → slice_index costs.new v ≡ min (slice_index costs.old v) (level + price)) }
    ensures rest { OnOk result ((v : ℕ) → (v < from) ⊎ (end ≤ v) → slice_index costs.new v ≡ slice_index costs.old v) }
    ensures queued { OnOk result (AreQueuedOn costs.old buckets.old.items costs.new buckets.new.items) }
{
    if price == NONE {
        return Ok(());
    }
    // Mostly no column is dearer, and this compares many columns at a time.
    if !any_dearer(costs, from, end, level.saturating_add(price)) {
        return Ok(());
    }
    for v in from..end {
        lower_at(alloc, costs, buckets, v, level, price)?;
    }
    Ok(())
}

impl PriceRow {
    /// A row of no prices yet.
    pub(crate) fn new(alloc: Global) -> PriceRow
        ensures { result ≡ [] }
    {
        PriceRow {
            stretches: Vec::new(alloc),
        }
    }

    /// Adds the price of one more column.
    pub(crate) fn push(&mut self, price: u32) -> Result<(), NoMemory>
        requires { length self.old + 1 < 2 ^ 32 }
        ensures { OnOk result (self.new ≡ self.old ++ price ∷ []) }
    {
        let count = self.stretches.len();
        if 0 < count && self.stretches[count - 1].price == price {
            self.stretches[count - 1].columns += 1;
            return Ok(());
        }
        self.stretches.push(Stretch { columns: 1, price })?;
        Ok(())
    }

    /// The price of a column.
    pub(crate) fn price(&self, column: usize) -> u32
        requires { column < length self.now }
        ensures { result ≡ slice_index self.now column }
    {
        let mut left = column;
        for stretch in &self.stretches {
            if left < stretch.columns as usize {
                return stretch.price;
            }
            left -= stretch.columns as usize;
        }
        unreachable!()
    }

    /// The price of each column.
    pub(crate) fn prices(&self, alloc: Global) -> Result<Vec<u32>, NoMemory>
        ensures { IfOk result (λ prices. prices.items ≡ self.now) }
    {
        let mut prices = Vec::new(alloc);
        for stretch in &self.stretches {
            prices.resize(prices.len() + stretch.columns as usize, stretch.price)?;
        }
        Ok(prices)
    }

    /// Lowers the cost of each member, by going on from this one, whose cost is `level`. The members that are lowered are put into the
    /// buckets of their costs.
    pub(crate) fn relax(
        &self,
        alloc: Global,
        costs: &mut [u32],
        buckets: &mut Vec<Row<usize>>,
        level: u32,
    ) -> Result<(), NoMemory>
        requires { length self.now ≡ length costs.old }
        ensures same { length costs.new ≡ length costs.old }
        ensures each { OnOk result ((v : ℕ) → v < length costs.old
            → slice_index costs.new v ≡ min (slice_index costs.old v) (level + slice_index self.now v)) }
        ensures queued { OnOk result (AreQueuedOn costs.old buckets.old.items costs.new buckets.new.items) }
    {
        let mut from = 0;
        for stretch in &self.stretches {
            let end = from + stretch.columns as usize;
            lower_columns(alloc, costs, buckets, from, end, level, stretch.price)?;
            from = end;
        }
        Ok(())
    }
}
