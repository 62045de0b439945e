//! The first commit order of a history at a level, or where it stops. It finds the links that have to be kept (`causal_links`,
//! by clocks along an order of the causal pairs, or `atomic_links`). Then it runs Kahn's algorithm (`kahn`) over causal pairs
//! and these links. For each other link there is a path of pairs and kept links, so that the order keeps it too. Its cost is
//! the sum of the costs of these three.
ghost use Rattle.std.specs.Prelude.{ℕ, IfOk, MatchOption};
ghost use Rattle.tcc_reads.specs.History.{IsBySession, count};
ghost use Rattle.tcc_graph.specs.{Orders.IsFirstOrder, Orders.IsNumbering, Routes.HasCycle, Walks.IsReached, Levels.causally, Levels.judged, declared.level.Level.Level};
ghost use Rattle.tcc_clocks.specs.{Parents.ArePrevious, Clocks.LeadsOnward};
ghost use Rattle.tcc_order.specs.{Placements.IsPlacement, Placements.IsPairPlacement, private.Found.AreFound};

use crate::atomic_links::atomic_links;
use crate::causal_links::causal_links;
use crate::kahn::{Placed, first_placing};
use crate::placement::{PairPlacement, Placement, Stuck};
use crate::shares::causal_links_by;
use std::alloc::Global;
use std::thread::Threads;
use tcc_base::Workers;
use tcc_clocks::previous_of_each;
use tcc_graph::{LargeGraph, Level};
use tcc_reads::FlatRows;
use tcc_txn::NoMemory;

/// The links at a level that are kept, or where an order stops because causal pairs alone make a cycle.
#[derive(Drop)]
enum KeptLinks {
    Kept(FlatRows<u32>),
    Circle(Stuck),
}

/// The links at `Causal` that are kept, by the first order of causal pairs alone.
fn links_by_clocks(
    alloc: Global,
    graph: &LargeGraph,
    parents: &[u32],
) -> Result<KeptLinks, NoMemory>
    requires numbered { IsBySession graph.now.entries }
    requires parents { ArePrevious graph.now parents.now }
    ensures { IfOk result (AreFound (causally graph.now)) }
{
    let none = FlatRows::empty(alloc, graph.count())?;
    match first_placing(alloc, graph, parents, &none)? {
        Placed::Order(order) => Ok(KeptLinks::Kept(causal_links(alloc, graph, parents, &order)?)),
        Placed::Stuck(placed) => Ok(KeptLinks::Circle(Stuck { kept: none, placed })),
    }
}

/// The links at a level that are kept.
fn links_kept(
    alloc: Global,
    graph: &LargeGraph,
    level: Level,
    parents: &[u32],
) -> Result<KeptLinks, NoMemory>
    requires numbered { IsBySession graph.now.entries }
    requires parents { ArePrevious graph.now parents.now }
    ensures { IfOk result (AreFound (judged graph.now level)) }
{
    match level {
        Level::Atomic => Ok(KeptLinks::Kept(atomic_links(alloc, graph, parents)?)),
        Level::Causal => links_by_clocks(alloc, graph, parents),
    }
}

/// The links at `Causal` that are kept, as `links_by_clocks` finds them, by at most this many workers.
fn links_by_workers(
    rt: &(impl Threads + Sync),
    alloc: Global,
    graph: &LargeGraph,
    parents: &[u32],
    workers: Workers,
) -> Result<KeptLinks, NoMemory>
    requires numbered { IsBySession graph.now.entries }
    requires parents { ArePrevious graph.now parents.now }
    ensures { IfOk result (AreFound (causally graph.now)) }
{
    let none = FlatRows::empty(alloc, graph.count())?;
    match first_placing(alloc, graph, parents, &none)? {
        Placed::Order(order) => {
            let kept = causal_links_by(rt, alloc, graph, parents, &order, workers)?;
            Ok(KeptLinks::Kept(kept))
        }
        Placed::Stuck(placed) => Ok(KeptLinks::Circle(Stuck { kept: none, placed })),
    }
}

/// The links at a level that are kept, by at most this many workers.
fn links_kept_by(
    rt: &(impl Threads + Sync),
    alloc: Global,
    graph: &LargeGraph,
    level: Level,
    parents: &[u32],
    workers: Workers,
) -> Result<KeptLinks, NoMemory>
    requires numbered { IsBySession graph.now.entries }
    requires parents { ArePrevious graph.now parents.now }
    ensures { IfOk result (AreFound (judged graph.now level)) }
{
    match level {
        Level::Atomic => links_kept(alloc, graph, level, parents),
        Level::Causal => links_by_workers(rt, alloc, graph, parents, workers),
    }
}

/// The order in which all transactions are placed by causal pairs and the kept links, or where it stops.
fn placed_with(
    alloc: Global,
    graph: &LargeGraph,
    level: Level,
    parents: &[u32],
    links: KeptLinks,
) -> Result<Placement, NoMemory>
    requires numbered { IsBySession graph.now.entries }
    requires parents { ArePrevious graph.now parents.now }
    requires links { AreFound (judged graph.now level) links }
    ensures { IfOk result (IsPlacement (judged graph.now level)) }
{
    let kept = match links {
        KeptLinks::Kept(kept) => kept,
        KeptLinks::Circle(stuck) => return Ok(Placement::Stuck(stuck)),
    };
    match first_placing(alloc, graph, parents, &kept)? {
        Placed::Order(order) => Ok(Placement::Order(order)),
        Placed::Stuck(placed) => Ok(Placement::Stuck(Stuck { kept, placed })),
    }
}

/// The first commit order of a history at a level, compared as lists of numbers; or where it stops. Then it returns links of
/// the level, and transactions each of which is held back by another, by causal pairs and these links.
pub fn place(alloc: Global, graph: &LargeGraph, level: Level) -> Result<Placement, NoMemory>
    ensures { IfOk result (IsPlacement (judged graph.now level)) }
{
    graph.numbered();
    let parents = previous_of_each(alloc, graph)?;
    let links = links_kept(alloc, graph, level, &parents)?;
    placed_with(alloc, graph, level, &parents, links)
}

/// What `place` returns, with its links at `Causal` found side by side, by at most this many workers: fewer if their tables
/// would take too much. The order is the first one, whatever their number.
pub fn place_by(
    rt: &(impl Threads + Sync),
    alloc: Global,
    graph: &LargeGraph,
    level: Level,
    workers: Workers,
) -> Result<Placement, NoMemory>
    ensures { IfOk result (IsPlacement (judged graph.now level)) }
{
    graph.numbered();
    let parents = previous_of_each(alloc, graph)?;
    let links = links_kept_by(rt, alloc, graph, level, &parents, workers)?;
    placed_with(alloc, graph, level, &parents, links)
}

/// The first commit order of a history at a level, compared as lists of numbers; none exactly if there is a cycle.
pub fn order(alloc: Global, graph: &LargeGraph, level: Level) -> Result<Option<Vec<u32>>, NoMemory>
    ensures { IfOk result (λ found. MatchOption found
        (HasCycle (judged graph.now level))
        (λ order. IsFirstOrder (judged graph.now level) order.items)) }
{
    graph.numbered();
    match place(alloc, graph, level)? {
        Placement::Order(order) => Ok(Some(order)),
        Placement::Stuck(_stuck) => Ok(None),
    }
}

/// An order of all transactions in which causal pairs lead onward, or where it stops: transactions each of which is held back
/// by another, by a causal pair.
pub fn place_pairs(alloc: Global, graph: &LargeGraph) -> Result<PairPlacement, NoMemory>
    ensures { IfOk result (IsPairPlacement graph.now) }
{
    graph.numbered();
    let parents = previous_of_each(alloc, graph)?;
    let none = FlatRows::empty(alloc, graph.count())?;
    match first_placing(alloc, graph, &parents, &none)? {
        Placed::Order(order) => Ok(PairPlacement::Order(order)),
        Placed::Stuck(placed) => Ok(PairPlacement::Stuck(placed)),
    }
}

/// An order of all transactions in which causal pairs lead onward; none exactly if a transaction reaches itself by them.
pub fn order_of_pairs(alloc: Global, graph: &LargeGraph) -> Result<Option<Vec<u32>>, NoMemory>
    ensures { IfOk result (λ found. MatchOption found
        ((a : ℕ) × IsReached graph.now a a)
        (λ order. IsNumbering (count graph.now) order.items × LeadsOnward graph.now order.items)) }
{
    graph.numbered();
    match place_pairs(alloc, graph)? {
        PairPlacement::Order(order) => Ok(Some(order)),
        PairPlacement::Stuck(_placed) => Ok(None),
    }
}
