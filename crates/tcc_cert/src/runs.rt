//! An order as runs, each as long as possible: one pass over the order, in O(N) for N transactions.
ghost use Rattle.std.specs.Prelude.{◌≡◌, IfOk};
ghost use Rattle.tcc_cert.specs.RunsTold.{order_claim_of, runs_told};

use crate::{Run, Runs, RunsClaim};
use std::alloc::Global;
use tcc_graph::{LargeGraph, Level};
use tcc_txn::NoMemory;

/// The runs of an order of a history. Neighbours of one session are in one run, and `init` is in none.
pub fn runs_of(alloc: Global, graph: &LargeGraph, order: &[u32]) -> Result<Runs, NoMemory>
    ensures { IfOk result (λ runs. runs ≡ runs_told graph.now order.now) }
{
    let mut done = Vec::new(alloc);
    let mut last: Option<Run> = None;
    for number in order {
        let Some((session, _)) = graph.at(*number) else {
            continue;
        };
        match last {
            Some(run) if run.session == session => {
                // No history has so many transactions.
                let Some(count) = run.count.checked_add(1) else {
                    return Err(NoMemory);
                };
                last = Some(Run { session, count });
            }
            Some(run) => {
                done.push(run)?;
                last = Some(Run { session, count: 1 });
            }
            None => last = Some(Run { session, count: 1 }),
        }
    }
    if let Some(run) = last {
        done.push(run)?;
    }
    Ok(Runs::new(done))
}

/// The claim that an order is a commit order of a history at a level.
pub fn order_claim(
    alloc: Global,
    graph: &LargeGraph,
    level: Level,
    order: &[u32],
) -> Result<RunsClaim, NoMemory>
    ensures { IfOk result (λ claim. claim ≡ order_claim_of level graph.now order.now) }
{
    Ok(RunsClaim {
        level,
        transactions: graph.count(),
        sessions: graph.sessions().len() as u32,
        runs: runs_of(alloc, graph, order)?,
    })
}
