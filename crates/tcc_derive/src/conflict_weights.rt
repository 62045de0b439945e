//! Rows of prices, side by side in threads: what a derived link costs at least from one transaction to each. For each key that
//! the transaction writes, every read lowers the value of its source (relaxation). So after a read no source has more steps
//! than lead to its readers so far. A transaction takes N steps, and one for each read of a key that it writes, or a sweep
//! (`level_sweep`) for a key that is read very often.
ghost use Rattle.std.specs.Prelude.{◌≡◌, ◌<◌, ◌≤◌, ◌⊎◌, ℕ, length, All, IfOk, OnOk, flat_map, slice_index};
ghost use Rattle.tcc_reads.specs.History.{count};
ghost use Rattle.tcc_near.specs.{WalkLengths.IsNearOf, declared.walk_lengths.TheConstants.NONE};
ghost use Rattle.tcc_derive.specs.{private.Buckets.bucket, private.KeyTables.IsReadsOf, private.KeyTables.IsWritesOf, private.Rows.IsPriceRow, private.Rows.HasRows, private.Sources.HaveSources};
ghost use Rattle.tcc_derive.specs.private.Lowering.{one_more, HaveReads, Lowers, ArePricedBy};
ghost use Rattle.tcc_graph.specs.{Levels.judged, Tables.row_of};
ghost use Rattle.tcc_txn.specs.declared.limits.TheConstants.{MAX_COUNT};

use crate::level_sweep::{levels_of, lower_by_levels};
use crate::read::Read;
use crate::sources::Sources;
use rayon::prelude::*;
use std::alloc::Global;
use std::thread::Threads;
use tcc_bits::{ROWS_A_THREAD, Row};
use tcc_graph::Graph;
use tcc_near::{NONE, Near};
use tcc_txn::NoMemory;

/// With more levels of lengths the reads of a key are visited one by one.
const FEW_LEVELS: u16 = 64;

/// Lowers the fewest steps to the readers of each transaction by the reads of one key.
fn lower(nearest: &mut [u16], reads: &[Read], steps: &[u16])
    requires sources { All (λ r. r.source < length nearest.old) reads.now }
    requires readers { All (λ r. r.reader < length steps.now) reads.now }
    ensures { Lowers reads.now steps.now nearest.old nearest.new }
{
    for read in reads {
        let count = steps[read.reader as usize];
        let least = &mut nearest[read.source as usize];
        *least = (*least).min(count);
    }
}

/// One more step for each, as far as a row can hold them.
fn add_step(costs: &mut [u16])
    ensures same { length costs.new ≡ length costs.old }
    ensures each { (a : ℕ) → a < length costs.old → slice_index costs.new a ≡ one_more (slice_index costs.old a) }
{
    for cost in costs.iter_mut() {
        *cost = cost.saturating_add(1);
    }
}

/// Lowers the fewest steps to the readers of each transaction by the reads of one key. It goes level by level if the key has
/// rows of marks and there are few levels.
fn lower_by_key(
    alloc: Global,
    nearest: &mut [u16],
    reads: &[Row<Read>],
    sources: &[Sources],
    key_index: usize,
    steps: &[u16],
    levels: u16,
) -> Result<(), NoMemory>
    requires key { key_index < length reads.now }
    requires rows { HaveSources (length steps.now) reads.now sources.now }
    requires sources { All (λ r. r.source < length nearest.old) (bucket reads.now key_index) }
    requires readers { All (λ r. r.reader < length steps.now) (bucket reads.now key_index) }
    requires few { length steps.now ≤ MAX_COUNT }
    requires levels { All (λ s. (s < levels) ⊎ (s ≡ NONE)) steps.now }
    ensures { OnOk result (Lowers (bucket reads.now key_index) steps.now nearest.old nearest.new) }
{
    let key_reads = reads[key_index].as_slice();
    let rows = sources[key_index].as_slice();
    if rows.is_empty() || levels > FEW_LEVELS {
        lower(nearest, key_reads, steps);
        return Ok(());
    }
    lower_by_levels(alloc, nearest, key_reads, rows, steps, levels)
}

/// What derived links from `b` cost, by the keys that it writes and the lengths from it: one step more than the way to the
/// nearest reader. None leads to `b` itself.
fn price_row(
    alloc: Global,
    reads: &[Row<Read>],
    sources: &[Sources],
    written: &[usize],
    steps: &[u16],
    b: usize,
) -> Result<Row<u16>, NoMemory>
    requires reads { HaveReads (length steps.now) reads.now written.now }
    requires sources { HaveSources (length steps.now) reads.now sources.now }
    requires few { length steps.now ≤ MAX_COUNT }
    requires own { b < length steps.now }
    ensures { IfOk result (ArePricedBy (flat_map (bucket reads.now) written.now) steps.now b) }
{
    let levels = levels_of(steps);
    let mut costs = vec![in alloc; NONE; steps.len()]?;
    for key_index in written {
        lower_by_key(alloc, &mut costs, reads, sources, *key_index, steps, levels)?;
    }
    add_step(&mut costs);
    costs[b] = NONE;
    Ok(Row::new(costs))
}

/// What derived links cost, a row for each transaction that they lead from; or the error that memory is out.
pub(crate) type PriceRows = Result<Vec<Row<u16>>, NoMemory>;

/// What derived links cost, a row for each transaction that they lead from, by the reads of each key and the keys that
/// each transaction writes.
pub(crate) fn price_rows(
    rt: &(impl Threads + Sync),
    alloc: Global,
    graph: &Graph,
    reads: &[Row<Read>],
    sources: &[Sources],
    written: &[Row<usize>],
    near: &Near,
) -> PriceRows
    requires near { IsNearOf (judged graph.now near.now.level) near.now }
    requires reads { IsReadsOf graph.now reads.now }
    requires sources { HaveSources (count graph.now) reads.now sources.now }
    requires written { IsWritesOf graph.now written.now }
    ensures rows { IfOk result (λ rows. HasRows graph.now (IsPriceRow (judged graph.now near.now.level)) rows.items) }
    ensures few { IfOk result (λ rows. length rows.items ≤ MAX_COUNT) }
{
    (0..graph.count() as usize)
        .into_par_iter()
        .map(
            |b: usize| -> Result<Row<u16>, NoMemory>
                requires { (b < length near.now.rows) × (length near.now.rows ≤ MAX_COUNT) × (length written.now ≡ length near.now.rows)
                    × HaveReads (length near.now.rows) reads.now (bucket written.now b)
                    × HaveSources (length near.now.rows) reads.now sources.now }
                ensures { IfOk result
                    (ArePricedBy (flat_map (bucket reads.entry.now) (bucket written.entry.now b)) (row_of near.entry.now.rows b) b) }
            {
                let keys = written[b].as_slice();
                price_row(alloc, reads, sources, keys, near.row(b as u32), b)
            },
        )
        .with_min_len(ROWS_A_THREAD)
        .collect::<PriceRows>(rt, alloc)?
}
