//! The edge weights that reads of one key give, by a breadth-first sweep over rows of marks, 64 transactions in a word. After
//! a level each source of a reader at that length or a lesser one has the least length of its readers, and is marked as seen.
//! So it is found once, at the first level. A transaction takes L N + N * N / 64 steps for L levels, however many readers the
//! key has.
ghost use Rattle.std.specs.Prelude.{◌≡◌, ◌<◌, ◌≤◌, ◌+◌, ◌⊎◌, ℕ, List, true, length, slice_index, All, Contains, OnOk};
ghost use Rattle.tcc_txn.specs.declared.limits.TheConstants.{LARGE_COUNT, MAX_COUNT};
ghost use Rattle.tcc_bits.specs.Bits.{is_marked, words_for};
ghost use Rattle.tcc_near.specs.declared.walk_lengths.TheConstants.{NONE};
ghost use Rattle.tcc_derive.specs.{private.Lowering.Lowers, declared.read.Read.Read};
ghost use Rattle.tcc_derive.specs.private.Sources.{AreSources, IsCovered, LowersEach, LowersUpTo};

use crate::read::Read;
use std::alloc::{AllocError, Global};
use tcc_bits::{Row, take_fresh, words_for};
use tcc_near::NONE;
use tcc_txn::NoMemory;

/// One more than the most steps there are.
pub(crate) fn levels_of(steps: &[u16]) -> u16
    ensures { All (λ s. (s < result) ⊎ (s ≡ NONE)) steps.now }
{
    let mut levels = 0;
    for count in steps {
        if *count != NONE {
            levels = (*count + 1).max(levels);
        }
    }
    levels
}

/// Lowers the fewest steps to these to a length.
fn lower_each(nearest: &mut [u16], sources: &[u32], distance: u16)
    requires { All (λ a. a < length nearest.old) sources.now }
    ensures { LowersEach (Contains sources.now) distance nearest.old nearest.new }
{
    for source in sources {
        let least = &mut nearest[*source as usize];
        *least = (*least).min(distance);
    }
}

/// Adds the sources of a reader at a length; what was seen has no more steps than that.
fn take_reader(
    nearest: &mut [u16],
    seen: &mut [u64],
    fresh: &mut Vec<u32>,
    row: &[u64],
    distance: u16,
) -> Result<(), AllocError>
    requires same { length seen.old ≡ length row.now }
    requires few { length row.now ≤ LARGE_COUNT }
    requires inside { (a : ℕ) → is_marked row.now a ≡ true → a < length nearest.old }
    requires covered { IsCovered seen.old nearest.old distance }
    ensures same { length seen.new ≡ length seen.old }
    ensures long { length nearest.new ≡ length nearest.old }
    ensures lowered { OnOk result (LowersEach (λ a. is_marked row.now a ≡ true) distance nearest.old nearest.new) }
    ensures covered { OnOk result (IsCovered seen.new nearest.new distance) }
{
    take_fresh(fresh, seen, row)?;
    lower_each(nearest, fresh, distance);
    Ok(())
}

/// Adds the readers at a length, by the rows of marks of some reads; nearer ones were added before.
fn take_level(
    nearest: &mut [u16],
    seen: &mut [u64],
    fresh: &mut Vec<u32>,
    rows: &[Row<u64>],
    steps: &[u16],
    distance: u16,
) -> Result<(), AllocError>
    requires sources { (reads : List Read) × AreSources (length steps.now) reads rows.now × All (λ r. r.source < length nearest.old) reads }
    requires few { length steps.now ≤ MAX_COUNT }
    requires same { length seen.old ≡ words_for (length steps.now) }
    requires covered { IsCovered seen.old nearest.old distance }
    ensures same { length seen.new ≡ length seen.old }
    ensures long { length nearest.new ≡ length nearest.old }
    ensures covered { OnOk result (IsCovered seen.new nearest.new distance) }
    ensures lowered { (reads : List Read) (old : List ℕ) → AreSources (length steps.now) reads rows.now
        → LowersUpTo reads steps.now distance 0 old nearest.old
        → OnOk result (LowersUpTo reads steps.now distance (length steps.now) old nearest.new) }
{
    for (reader, row) in rows.iter().enumerate() {
        if steps[reader] == distance {
            take_reader(nearest, seen, fresh, row.as_slice(), distance)?;
        }
    }
    Ok(())
}

/// Lowers the fewest steps to the readers of each transaction by the reads of one key, whose rows of marks these are.
pub(crate) fn lower_by_levels(
    alloc: Global,
    nearest: &mut [u16],
    reads: &[Read],
    rows: &[Row<u64>],
    steps: &[u16],
    levels: u16,
) -> Result<(), NoMemory>
    requires rows { AreSources (length steps.now) reads.now rows.now }
    requires sources { All (λ r. r.source < length nearest.old) reads.now }
    requires readers { All (λ r. r.reader < length steps.now) reads.now }
    requires few { length steps.now ≤ MAX_COUNT }
    requires levels { All (λ s. (s < levels) ⊎ (s ≡ NONE)) steps.now }
    ensures { OnOk result (Lowers reads.now steps.now nearest.old nearest.new) }
{
    let mut seen = vec![in alloc; 0; words_for(steps.len())]?;
    let mut fresh = Vec::new(alloc);
    for distance in 0..levels {
        take_level(nearest, &mut seen, &mut fresh, rows, steps, distance)?;
    }
    Ok(())
}
