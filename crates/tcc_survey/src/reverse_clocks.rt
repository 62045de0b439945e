//! Of a block of sessions the first number that each transaction reaches: vector clocks (Fidge, Mattern) turned round. They
//! are worked out back along a linear extension of the causal pairs, for a block of 64 sessions at a time, and equal rows are
//! held once. For N transactions and R reads that takes at most 64 (N + R) steps a block, and 64 N numbers.
ghost use Rattle.std.specs.Prelude.{◌≡◌, ◌<◌, ◌≤◌, ◌+◌, ◌^◌, MatchOption, ℕ, List, length, set, slice_index, All, OnOk};
ghost use Rattle.std.specs.List.Sorted.{IsNonDecreasing};
ghost use Rattle.tcc_reads.specs.History.{IsBySession, count};
ghost use Rattle.tcc_graph.specs.{Relations.IsSessionPair, Tables.row_of, Orders.IsNumbering};
ghost use Rattle.tcc_clocks.specs.{Clocks.AreOwners, declared.latest.TheConstants.WIDE};
ghost use Rattle.tcc_survey.specs.private.Firsts.{AreFirstNumbers, AreFirsts, AreChildren, IsFirstRow, LeadsBackward};

use crate::block::ClockBlock;
use crate::scanning::count_before;
use std::alloc::{AllocError, Global};
use tcc_clocks::{Clock, SharedRows, Side, WIDE, put_row};
use tcc_graph::LargeGraph;
use tcc_txn::NoMemory;

/// The next transaction of its session, where there is one.
fn next_in_session(graph: &LargeGraph, a: u32) -> Option<u32>
    requires { a < count graph.now }
    ensures { MatchOption result (IsSessionPair graph.now a (a + 1) → ⊥) (λ next. (next ≡ a + 1) × IsSessionPair graph.now a (a + 1)) }
{
    let count = graph.count();
    let next = a + 1;
    if next < count && graph.session(a, next) {
        Some(next)
    } else {
        None
    }
}

/// What comes right after a transaction: its readers, and the next of its session.
fn find_children(found: &mut Vec<u32>, graph: &LargeGraph, a: u32) -> Result<(), AllocError>
    requires { a < count graph.now }
    ensures { OnOk result (AreChildren graph.now a found.new.items) }
{
    let (readers, _key_indices) = graph.readings_at(a);
    found.clear();
    found.extend_from_slice(readers)?;
    match next_in_session(graph, a) {
        Some(next) => {
            found.push(next)?;
            Ok(())
        }
        None => Ok(()),
    }
}

/// A number up to which none is of this session: its first one, where it has some.
fn first_number(owners: &[u32], session: u32) -> u32
    requires { IsNonDecreasing owners.now }
    ensures { (b : ℕ) → b < length owners.now → slice_index owners.now b ≡ session → result ≤ b }
{
    match u32::try_from(count_before(owners, session)) {
        Ok(first) => first,
        Err(_) => 0,
    }
}

/// Of each session of the block its first number: from `init` all are reached.
fn first_numbers(owners: &[u32], from: u32) -> Clock
    requires rising { IsNonDecreasing owners.now }
    requires room { from + WIDE < 2 ^ 32 }
    ensures { AreFirstNumbers owners.now from result }
{
    let mut row = [0; WIDE];
    for lane in 0..WIDE {
        row[lane] = first_number(owners, from + lane as u32);
    }
    row
}

/// Gives a transaction its row, once those of what comes after it are known.
fn put_first(
    table: &mut SharedRows,
    block: &ClockBlock<'_>,
    children: &[u32],
    a: u32,
) -> Result<(), NoMemory>
    requires numbered { IsBySession block.now.graph.now.entries }
    requires owners { AreOwners block.now.graph.now block.now.owners.now }
    requires room { block.now.from + WIDE < 2 ^ 32 }
    requires children { AreChildren block.now.graph.now a children.now }
    requires long { length table.old ≡ count block.now.graph.now }
    requires firsts { All (λ p. IsFirstRow block.now.graph.now block.now.from p (row_of table.old p)) children.now }
    requires below { a < count block.now.graph.now }
    ensures { OnOk result ((row : List ℕ) × (table.new ≡ set table.old a row) × IsFirstRow block.now.graph.now block.now.from a row) }
{
    if a == 0 {
        return table.put_like(a, &first_numbers(block.owners, block.from), &[]);
    }
    put_row(
        table,
        Side::Future,
        block.graph,
        block.owners,
        block.from,
        children,
        a,
    )
}

/// Of each transaction and each session of the block the first number of the session that it reaches; by an order in which
/// causal pairs lead backward.
pub(crate) fn find_firsts(
    alloc: Global,
    table: &mut SharedRows,
    block: &ClockBlock<'_>,
    backward: &[u32],
) -> Result<(), NoMemory>
    requires numbered { IsBySession block.now.graph.now.entries }
    requires owners { AreOwners block.now.graph.now block.now.owners.now }
    requires room { block.now.from + WIDE < 2 ^ 32 }
    requires numbering { IsNumbering (count block.now.graph.now) backward.now }
    requires backward { LeadsBackward block.now.graph.now backward.now }
    requires long { length table.old ≡ count block.now.graph.now }
    ensures { OnOk result (AreFirsts block.now.graph.now block.now.from table.new) }
{
    table.clear();
    let mut children = Vec::new(alloc);
    for number in backward {
        find_children(&mut children, block.graph, *number)?;
        put_first(table, block, &children, *number)?;
    }
    Ok(())
}
