//! The first answer for a snapshot of any size at a level, with its graph.
ghost use Rattle.std.specs.Prelude.{[], ◌≡◌, IfOk, MatchResult};
ghost use Rattle.tcc_reads.specs.{Faults.read_faults, Refusals.IsRefusal, Sources.history};
ghost use Rattle.tcc_graph.specs.Levels.{judged};
ghost use Rattle.tcc_answering.specs.{Answered.IsAnswered, Firsts.IsFirst};

use crate::firsts::{First, first_of};
use std::alloc::Global;
use std::thread::Threads;
use tcc_base::Workers;
use tcc_graph::{LargeGraph, Level};
use tcc_large::decide_by;
use tcc_reads::{LargeResolved, ResolveFault, resolve, resolve_large};
use tcc_txn::{
    Bounds, LargeLimits, LargeSnapshot, NoMemory, SmallLimits, Snapshot, SnapshotWithin,
};

/// The first answer for a snapshot, all of whose reads have sources.
#[derive(Drop)]
pub struct Answered {
    /// The graph of its history.
    pub graph: LargeGraph,
    /// Its first commit order or the first of its least cycles.
    pub first: First,
    /// With a cycle of at least four steps an order of all transactions may come, to judge by. It need not be trusted.
    pub order: Option<Vec<u32>>,
}

/// A snapshot seen as one within the small limits.
#[derive(Drop)]
pub enum AsSmall<'a> {
    /// It has their type already.
    Lent(&'a Snapshot),
    /// A copy of a large one.
    Copied(Snapshot),
    /// It is above them.
    Past,
}

/// Limits of snapshots that can be answered: how a snapshot is resolved, and what it is within the small limits.
pub trait AnsweredBounds: Bounds {
    ghost use Rattle.std.specs.Prelude.{[], ◌≡◌, IfOk, MatchResult};
    ghost use Rattle.tcc_reads.specs.{Faults.read_faults, Refusals.IsRefusal, Sources.history};
    ghost use Rattle.tcc_answering.specs.private.Small.{IsAsSmall};

    /// The history of a snapshot, all of whose reads have sources; or else all its read faults.
    fn resolved(
        alloc: Global,
        snapshot: &SnapshotWithin<Self>,
    ) -> Result<LargeResolved, ResolveFault>
        ensures { MatchResult result
            (λ resolved. (read_faults snapshot.now ≡ []) × (resolved ≡ history snapshot.now))
            (IsRefusal snapshot.now) };

    /// The snapshot as one within the small limits, where it keeps them.
    fn as_small<'a>(
        alloc: Global,
        snapshot: &'a SnapshotWithin<Self>,
    ) -> Result<AsSmall<'a>, NoMemory>
        ensures { IfOk result (IsAsSmall snapshot.now) };
}

impl AnsweredBounds for SmallLimits {
    fn resolved(alloc: Global, snapshot: &Snapshot) -> Result<LargeResolved, ResolveFault> {
        Ok(resolve(alloc, snapshot)?.into_large())
    }

    fn as_small<'a>(_alloc: Global, snapshot: &'a Snapshot) -> Result<AsSmall<'a>, NoMemory> {
        Ok(AsSmall::Lent(snapshot))
    }
}

impl AnsweredBounds for LargeLimits {
    fn resolved(alloc: Global, snapshot: &LargeSnapshot) -> Result<LargeResolved, ResolveFault> {
        resolve_large(alloc, snapshot)
    }

    fn as_small<'a>(alloc: Global, snapshot: &'a LargeSnapshot) -> Result<AsSmall<'a>, NoMemory> {
        match snapshot.small_copy(alloc)? {
            Some(copy) => Ok(AsSmall::Copied(copy)),
            None => Ok(AsSmall::Past),
        }
    }
}

/// The graph of a snapshot, all of whose reads have sources; or else all its read faults.
fn graph_of<B: AnsweredBounds>(
    alloc: Global,
    snapshot: &SnapshotWithin<B>,
) -> Result<LargeGraph, ResolveFault>
    ensures { MatchResult result
        (λ graph. (read_faults snapshot.now ≡ []) × (graph ≡ history snapshot.now))
        (IsRefusal snapshot.now) }
{
    let resolved = B::resolved(alloc, snapshot)?;
    Ok(LargeGraph::build(alloc, resolved)?)
}

/// The first answer for the history of a graph at a level, the same for every number of workers. With a cycle of at least four steps an
/// order of all transactions may come, to judge by. It need not be trusted.
pub fn first_of_graph(
    rt: &(impl Threads + Sync),
    alloc: Global,
    graph: &LargeGraph,
    level: Level,
    workers: Workers,
) -> Result<(First, Option<Vec<u32>>), NoMemory>
    ensures { IfOk result (λ found. IsFirst (judged graph.now level) found.0) }
{
    let (decision, order) = decide_by(rt, alloc, graph, level, workers)?;
    let first = first_of(alloc, graph, level, decision, &order)?;
    Ok((first, order))
}

/// The first answer for a snapshot within either limits, with its graph; or else all its read faults. It is the same for every number of
/// workers.
pub fn first_answer<B: AnsweredBounds>(
    rt: &(impl Threads + Sync),
    alloc: Global,
    snapshot: &SnapshotWithin<B>,
    level: Level,
    workers: Workers,
) -> Result<Answered, ResolveFault>
    ensures { MatchResult result (IsAnswered level snapshot.now) (IsRefusal snapshot.now) }
{
    let graph = graph_of(alloc, snapshot)?;
    let (first, order) = first_of_graph(rt, alloc, &graph, level, workers)?;
    Ok(Answered {
        graph,
        first,
        order,
    })
}
