//! What is met at some costs, as rows of marks. So a way at such a cost is offered to each transaction once in a search,
//! however many transactions have links there. What a row marks is open at no more than its cost. For N transactions an
//! offer to a whole row takes N / 64 steps, and one for each transaction that is new there.
ghost use Rattle.std.specs.Prelude.{◌≡◌, ◌<◌, ◌≤◌, ◌+◌, ◌*◌, ◌^◌, ℕ, true, length, All, IfOk};
ghost use Rattle.tcc_bits.specs.Bits.{is_marked, words_for};
ghost use Rattle.tcc_core.specs.{private.Marked.IsMarkWay, private.Offers.IsOffered, declared.bucket_queue.TheConstants.BUCKETS, declared.levels.TheConstants.LEVELS};
ghost use Rattle.tcc_core.specs.private.Levels.{HasRoom, IsLevel, AreLevels, IsClassWay, AreClasses};
ghost use Rattle.tcc_txn.specs.declared.limits.TheConstants.{MAX_COUNT};

use crate::marked::offer_marked;
use crate::queue::Queue;
use std::alloc::{AllocError, Global};
use tcc_bits::words_for;
use tcc_derive::Class;

/// How many costs have a row at one time. No link in a row of marks costs more than this, so the links that are offered
/// from one floor have a row each.
pub(crate) const LEVELS: usize = 16;

/// What is met at a cost; cost 0 says nothing.
#[derive(Drop)]
pub(crate) struct CostMarks {
    pub cost: u32,
    pub marks: Vec<u64>,
}

/// Clears all marks.
fn wipe(marks: &mut [u64])
    ensures same { length marks.new ≡ length marks.old }
    ensures none { (v : ℕ) → is_marked marks.new v ≡ true → ⊥ }
{
    for word in marks.iter_mut() {
        *word = 0;
    }
}

/// Rows with room for `count` transactions.
pub(crate) fn begin_levels(alloc: Global, count: u32) -> Result<Vec<CostMarks>, AllocError>
    ensures room { IfOk result (λ levels. All (HasRoom count) levels.items) }
    ensures none { IfOk result (λ levels. All (λ level. level.cost ≡ 0) levels.items) }
    ensures long { IfOk result (λ levels. length levels.items ≡ LEVELS) }
{
    let mut levels = Vec::new(alloc);
    for _level in 0..LEVELS {
        let marks = vec![in alloc; 0; words_for(count as usize)]?;
        levels.push(CostMarks { cost: 0, marks })?;
    }
    Ok(levels)
}

/// From now on nothing is recorded as met.
pub(crate) fn forget(levels: &mut [CostMarks])
    ensures same { length levels.new ≡ length levels.old }
    ensures room { (n : ℕ) → All (HasRoom n) levels.old → All (HasRoom n) levels.new }
    ensures none { All (λ level. level.cost ≡ 0) levels.new }
{
    for k in 0..levels.len() {
        levels[k].cost = 0;
    }
}

/// Offers a way at this cost to everything from the start upward that the row marks, except what is met at it.
fn offer_at(queue: &mut Queue, level: &mut CostMarks, marks: &[u64], start: u32, cost: u32)
    requires few { length queue.old.costs ≤ MAX_COUNT }
    requires level { IsLevel queue.old.costs level.old }
    requires wide { length marks.now ≡ words_for (length queue.old.costs) }
    requires within { (v : ℕ) → is_marked marks.now v ≡ true → v < length queue.old.costs }
    requires above { queue.old.floor < cost }
    requires window { cost < queue.old.floor + BUCKETS }
    ensures floor { queue.new.floor ≡ queue.old.floor }
    ensures level { IsLevel queue.new.costs level.new }
    ensures offered { IsOffered (IsMarkWay marks.now start cost) queue.old.floor queue.old.costs queue.new.costs }
{
    if level.cost != cost {
        wipe(&mut level.marks);
        level.cost = cost;
    }
    offer_marked(queue, &mut level.marks, marks, start, cost);
}

/// Offers the ways on by the links of these classes, from a transaction at cost `so_far`. They lead to transactions from
/// the start upward, by links that cost at most `left`.
pub(crate) fn offer_classes(
    queue: &mut Queue,
    levels: &mut [CostMarks],
    classes: &[Class],
    start: u32,
    so_far: u32,
    left: u32,
)
    requires few { length queue.old.costs ≤ MAX_COUNT }
    requires small { queue.old.floor < 2 ^ 31 }
    requires so_far { so_far ≤ queue.old.floor }
    requires left { left < BUCKETS }
    requires levels { AreLevels queue.old.costs levels.old }
    requires classes { AreClasses (length queue.old.costs) classes.now }
    ensures floor { queue.new.floor ≡ queue.old.floor }
    ensures levels { AreLevels queue.new.costs levels.new }
    ensures offered { IsOffered (IsClassWay classes.now start so_far left) queue.old.floor queue.old.costs queue.new.costs }
{
    for class in classes {
        let cost = so_far + class.cost as u32;
        if class.cost as u32 <= left && queue.floor() < cost {
            let level = &mut levels[cost as usize % LEVELS];
            offer_at(queue, level, class.marks.as_slice(), start, cost);
        }
    }
}
