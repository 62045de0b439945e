//! Vector clocks (Fidge, Mattern) of any history, even of one whose pairs have a cycle. They follow from the walk lengths,
//! session by session in threads. For N transactions of S sessions that takes N * N steps beside the walk lengths, and N * S
//! numbers.
ghost use Rattle.std.specs.Prelude.{◌≡◌, ◌<◌, ℕ, length, map, All, IfOk, MatchOption, slice_index};
ghost use Rattle.tcc_reads.specs.History.{count, owner, place};
ghost use Rattle.tcc_graph.specs.{Levels.causally, Clocks.IsClocksOf};
ghost use Rattle.tcc_near.specs.WalkLengths.{IsNearOf};
ghost use Rattle.tcc_near.specs.private.ClockRows.{AreLasts, HaveLasts, raised};

use crate::{Clocks, NONE, Near, near};
use rayon::prelude::*;
use std::alloc::{AllocError, Global};
use std::thread::Threads;
use tcc_bits::Row;
use tcc_graph::{Graph, Level};
use tcc_txn::NoMemory;

/// The place of a committed transaction in this session; none if it is of another.
fn place_in(graph: &Graph, session: u32, b: u32) -> Option<u32>
    requires committed { 0 < b }
    requires below { b < count graph.now }
    ensures { MatchOption result (owner graph.now b ≡ session → ⊥)
        (λ found. (owner graph.now b ≡ session) × (found ≡ place graph.now b)) }
{
    let (owner, place) = graph.at(b)?;
    if owner == session { Some(place) } else { None }
}

/// Raises the last place that reaches each transaction to this one if a walk leads there.
fn raise(lasts: &mut [u32], place: u32, steps: &[u16])
    requires { length steps.now ≡ length lasts.old }
    ensures long { length lasts.new ≡ length lasts.old }
    ensures each { (t : ℕ) → t < length lasts.old
        → slice_index lasts.new t ≡ raised place (slice_index steps.now t) (slice_index lasts.old t) }
{
    for (t, last) in lasts.iter_mut().enumerate() {
        if steps[t] != NONE {
            *last = place.max(*last);
        }
    }
}

/// The last place of a session that reaches each transaction.
fn lasts_of(alloc: Global, graph: &Graph, near: &Near, session: u32) -> Result<Row<u32>, AllocError>
    requires { IsNearOf (causally graph.now) near.now }
    ensures { IfOk result (AreLasts graph.now session) }
{
    let mut lasts = vec![in alloc; 0; graph.count() as usize]?;
    for b in 1..graph.count() {
        if let Some(place) = place_in(graph, session, b) {
            raise(&mut lasts, place, near.row(b));
        }
    }
    Ok(Row::new(lasts))
}

/// The last places that reach each transaction, a row for each session.
fn all_lasts(
    rt: &(impl Threads + Sync),
    alloc: Global,
    graph: &Graph,
    near: &Near,
) -> Result<Vec<Row<u32>>, AllocError>
    requires { IsNearOf (causally graph.now) near.now }
    ensures { IfOk result (λ rows. HaveLasts graph.now rows.items) }
{
    (0..graph.sessions().len() as u32)
        .into_par_iter()
        .map(
            |session: u32| -> Result<Row<u32>, AllocError>
                requires { IsNearOf (causally graph.now) near.now }
                ensures { IfOk result (AreLasts graph.entry.now session) }
            { lasts_of(alloc, graph, near, session) },
        )
        .collect::<Result<Vec<Row<u32>>, AllocError>>(rt, alloc)?
}

/// The value at one index of each row.
fn column(alloc: Global, rows: &[Row<u32>], place: u32) -> Result<Row<u32>, AllocError>
    requires { All (λ row. place < length row) rows.now }
    ensures { IfOk result (λ column. column ≡ map (λ row. slice_index row place) rows.now) }
{
    let mut column = Vec::new(alloc);
    for row in rows {
        column.push(row.as_slice()[place as usize])?;
    }
    Ok(Row::new(column))
}

/// The last places that reach each transaction, a row for each transaction.
fn clock_rows(alloc: Global, graph: &Graph, lasts: &[Row<u32>]) -> Result<Vec<Row<u32>>, AllocError>
    requires { HaveLasts graph.now lasts.now }
    ensures { IfOk result (λ rows. IsClocksOf graph.now rows.items) }
{
    let mut rows = Vec::new(alloc);
    for t in 0..graph.count() {
        rows.push(column(alloc, lasts, t)?)?;
    }
    Ok(rows)
}

/// The clocks of a graph whose walk lengths are known.
pub fn clocks_of(
    rt: &(impl Threads + Sync),
    alloc: Global,
    graph: &Graph,
    near: &Near,
) -> Result<Clocks, NoMemory>
    requires { IsNearOf (causally graph.now) near.now }
    ensures { IfOk result (IsClocksOf graph.now) }
{
    let lasts = all_lasts(rt, alloc, graph, near)?;
    let rows = clock_rows(alloc, graph, &lasts)?;
    Ok(Clocks::new(rows))
}

/// The clocks of a graph.
pub fn clocks(rt: &(impl Threads + Sync), alloc: Global, graph: &Graph) -> Result<Clocks, NoMemory>
    ensures { IfOk result (IsClocksOf graph.now) }
{
    let near = near(rt, alloc, graph, Level::Causal)?;
    clocks_of(rt, alloc, graph, &near)
}
