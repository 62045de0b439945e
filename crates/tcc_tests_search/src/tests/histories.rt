//! What the tests start from: worked histories as the texts of their records, and what is made from them.
ghost use Rattle.tcc_near.specs.WalkLengths.{IsNearOf};
ghost use Rattle.tcc_derive.specs.Prices.{IsPricesOf};
ghost use Rattle.tcc_graph.specs.Levels.{judged};

use std::alloc::Global;
use std::process::Abort;
use std::thread::Threads;
use tcc_derive::{Prices, derive};
use tcc_graph::{Graph, Level};
use tcc_near::{Near, near};
use tcc_reads::resolve;
use tcc_rows::snapshot_of;

/// a/1 writes x, and a/2 reads the initial value of x. So a/1 has to come before `init`, which costs 2, and every other link costs 1. The
/// least cycle, over `init`, costs 3.
pub const STALE_READ: &str = "a,begin\na,w,x,1\na,commit\na,begin\na,r,x,0\na,commit\n";

/// a/1 and b/1 write x, and c/1 reads both values. So each writer has to come before the other, at a cost of 2, but no walk leads between
/// them, and no link leads to `init`. The least cycle costs 4, and starts at a/1.
pub const TWO_WRITERS: &str = "a,begin\na,w,x,1\na,commit\nb,begin\nb,w,x,2\nb,commit\n\
    c,begin\nc,r,x,1\nc,r,x,2\nc,commit\n";

/// b/1 reads what a/1 wrote, and nothing leads back.
pub const ONE_READ: &str = "a,begin\na,w,x,1\na,commit\nb,begin\nb,r,x,1\nb,commit\n";

/// a/1 writes x, b/1 passes it on, and c/1 has it from b/1, but reads the initial value of x. So a/1 has to come before `init` by a walk of
/// two pairs, which costs 3, and which `Atomic` does not allow.
pub const LONG_WALK: &str = "a,begin\na,w,x,1\na,commit\nb,begin\nb,r,x,1\nb,w,y,1\nb,commit\n\
    c,begin\nc,r,y,1\nc,r,x,0\nc,commit\n";

/// A chain of reads leads from the writer of x to a session's first, whose second reads the initial value of x.
pub const CHAIN: &str = "a,begin\na,w,x,1\na,commit\nb,begin\nb,r,x,1\nb,w,y,1\nb,commit\n\
    c,begin\nc,r,y,1\nc,commit\nc,begin\nc,r,x,0\nc,commit\n";

/// Two transactions read from each other, and the first one also reads the initial value of its own key.
pub const MUTUAL: &str =
    "a,begin\na,r,x,0\na,r,y,1\na,w,x,1\na,commit\nb,begin\nb,r,x,1\nb,w,y,1\nb,commit\n";

/// The graph of these records.
pub fn graph_of(rt: &impl Abort, alloc: Global, records: &str) -> Graph {
    let snapshot = snapshot_of(alloc, records.as_bytes()).expect(rt, records);
    let resolved = resolve(alloc, &snapshot).expect(rt, records);
    Graph::build(alloc, resolved).expect(rt, records)
}

/// The distances of a graph at a level.
pub fn near_of(
    rt: &(impl Abort + Threads + Sync),
    alloc: Global,
    graph: &Graph,
    level: Level,
) -> Near
    ensures { IsNearOf (judged graph.now level) result }
{
    near(rt, alloc, graph, level).expect(rt, "no distances")
}

/// The prices of a graph, by its distances.
pub fn prices_of(
    rt: &(impl Abort + Threads + Sync),
    alloc: Global,
    graph: &Graph,
    near: &Near,
) -> Prices
    requires { IsNearOf (judged graph.now near.now.level) near.now }
    ensures { IsPricesOf (judged graph.now near.now.level) result }
{
    derive(rt, alloc, graph, near).expect(rt, "no prices")
}

/// The prices of these records at a level.
pub fn priced(
    rt: &(impl Abort + Threads + Sync),
    alloc: Global,
    records: &str,
    level: Level,
) -> Prices {
    let graph = graph_of(rt, alloc, records);
    let near = near_of(rt, alloc, &graph, level);
    prices_of(rt, alloc, &graph, &near)
}

/// Whether the level is this one.
pub fn is_level(level: Level, wanted: Level) -> bool {
    match (level, wanted) {
        (Level::Causal, Level::Causal) | (Level::Atomic, Level::Atomic) => true,
        _ => false,
    }
}
