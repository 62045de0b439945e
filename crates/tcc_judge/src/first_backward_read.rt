//! The first reads-from pair that is not in order, and the positions of an order that keeps them all.
ghost use Rattle.std.specs.Prelude.{◌<◌, ◌≡◌, length, IfOk, MatchResult};
ghost use Rattle.tcc_reads.specs.History.{count};
ghost use Rattle.tcc_cert.specs.Tables.{IsFirstAt};
ghost use Rattle.tcc_judge.specs.{Orders.BreaksPair, private.Least.IsFoundFirst, private.Least.IsLeastOf, private.Positions.IsTurned, private.Positions.KeepsPairs, private.Decoding.IsOrdered};

use crate::least::NONE;
use crate::positions::positions_of;
use std::alloc::Global;
use tcc_graph::LargeGraph;
use tcc_txn::NoMemory;

/// The least transaction that reads from `a` and does not come after it.
fn least_turned(graph: &LargeGraph, positions: &[u32], a: u32) -> u32
    requires long { length positions.now ≡ count graph.now }
    requires below { a < count graph.now }
    ensures { IsLeastOf (λ c. IsTurned graph.now positions.now (a, c)) result }
{
    let (readers, _key_indices) = graph.readings_at(a);
    let position = positions[a as usize];
    let mut least = NONE;
    for reader in readers {
        if positions[*reader as usize] <= position {
            least = (*reader).min(least);
        }
    }
    least
}

/// The first reads-from pair that is not in order.
fn first_turned(graph: &LargeGraph, positions: &[u32]) -> Option<(u32, u32)>
    requires { length positions.now ≡ count graph.now }
    ensures { IsFoundFirst (IsTurned graph.now positions.now) result }
{
    for a in 0..graph.count() {
        let least = least_turned(graph, positions, a);
        if least != NONE {
            return Some((a, least));
        }
    }
    None
}

/// The positions of an order that keeps all pairs; else its first reads-from pair that is not in order.
pub(crate) fn kept_positions(
    alloc: Global,
    graph: &LargeGraph,
    order: &[u32],
) -> Result<Result<Vec<u32>, (u32, u32)>, NoMemory>
    requires { IsOrdered graph.now order.now }
    ensures { IfOk result (λ kept. MatchResult kept
        (λ positions. KeepsPairs graph.now order.now positions.items)
        (IsFirstAt (BreaksPair graph.now order.now))) }
{
    let positions = positions_of(alloc, order, graph.count())?;
    match first_turned(graph, &positions) {
        Some(at) => Ok(Err(at)),
        None => Ok(Ok(positions)),
    }
}
