//! The first of the cheapest derived links from one transaction to another: the first key and reader that is nearest (`choices`),
//! and the first of the shortest walks there (`first_walk`).
ghost use Rattle.std.specs.Prelude.{◌<◌, IfOk, MatchOption};
ghost use Rattle.tcc_reads.specs.History.{count};
ghost use Rattle.tcc_near.specs.WalkLengths.{IsNearOf};
ghost use Rattle.tcc_graph.specs.{declared.link.Link.Link, Levels.judged};
ghost use Rattle.tcc_derive.specs.{Prices.IsDerived, Reasons.IsFirstReason};

use crate::choices::choice;
use crate::first_walk::first_walk;
use std::alloc::Global;
use tcc_graph::{Graph, Link};
use tcc_near::Near;
use tcc_txn::NoMemory;

/// A derived link from `b` to `a` that costs the price at the level of the lengths, the first by key, reader and walk; none if
/// there is no price.
pub fn reason(
    alloc: Global,
    graph: &Graph,
    near: &Near,
    b: u32,
    a: u32,
) -> Result<Option<Link>, NoMemory>
    requires near { IsNearOf (judged graph.now near.now.level) near.now }
    requires from { b < count graph.now }
    requires to { a < count graph.now }
    ensures { IfOk result (λ found. MatchOption found ((l : Link) → IsDerived (judged graph.now near.now.level) b a l → ⊥)
        (IsFirstReason (judged graph.now near.now.level) b a)) }
{
    let Some(found) = choice(graph, near.row(b), b, a) else {
        return Ok(None);
    };
    let (key, reader) = found;
    let walk = first_walk(alloc, graph, near, b, reader)?;
    Ok(Some(Link::Derived {
        from: b,
        to: a,
        key,
        reader,
        walk,
    }))
}
