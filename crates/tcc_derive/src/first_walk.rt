//! The first shortest walk, traced back from its end by the lengths. Each step is the first that comes from a transaction
//! whose length is one less. What was taken is the end of the first shortest walk. L steps among N transactions take L N
//! look-ups of a length.
ghost use Rattle.std.specs.Prelude.{◌≡◌, ◌≢◌, ◌<◌, ◌+◌, ℕ, true, [], length, Contains, IfOk, MatchOption, slice_index};
ghost use Rattle.tcc_reads.specs.History.{count};
ghost use Rattle.tcc_graph.specs.{declared.step.Step.Step, Levels.judged, Tables.row_of};
ghost use Rattle.tcc_graph.specs.Walks.{step_from, step_to, IsStep, IsReached};
ghost use Rattle.tcc_near.specs.{WalkLengths.IsNearOf, declared.walk_lengths.TheConstants.NONE};
ghost use Rattle.tcc_derive.specs.{Names.IsFirstName, Backwards.IsFirstWalk};
ghost use Rattle.tcc_derive.specs.private.LeadingBack.{IsFirstStep, IsLastStep, stands_at};

use std::alloc::Global;
use tcc_graph::{Graph, Step, Walk};
use tcc_near::Near;
use tcc_txn::{Name, NoMemory};

/// The first of the names; none if there are none.
pub fn first_name(names: &[Name]) -> Option<Name>
    ensures { MatchOption result (length names.now ≡ 0) (IsFirstName names.now) }
{
    names.iter().copied().min()
}

/// The first step from one transaction to another; none if there is no causal pair.
fn first_step(graph: &Graph, from: u32, to: u32) -> Option<Step>
    requires from { from < count graph.now }
    requires to { to < count graph.now }
    ensures { MatchOption result ((o : Step) → IsStep graph.now o → step_from o ≡ from → step_to o ≡ to → ⊥) (IsFirstStep graph.now from to) }
{
    if graph.session(from, to) {
        return Some(Step::Session { from, to });
    }
    let key = first_name(graph.reads_from(from, to))?;
    Some(Step::Reads { from, to, key })
}

/// Whether `left` steps lead to the transaction from `b`, and no fewer; no steps lead only to `b`.
fn stands_at(steps: &[u16], b: u32, transaction: u32, left: u16) -> bool
    requires { transaction < length steps.now }
    ensures { result ≡ stands_at steps.now b transaction left }
{
    if left == 0 {
        transaction == b
    } else {
        steps[transaction as usize] == left
    }
}

/// The first step to `end` from a transaction to which `left` steps lead from `b`.
fn last_step(graph: &Graph, steps: &[u16], b: u32, end: u32, left: u16) -> Option<Step>
    requires end { end < count graph.now }
    requires long { length steps.now ≡ count graph.now }
    ensures { MatchOption result ((o : Step) → IsStep graph.now o → step_to o ≡ end → stands_at steps.now b (step_from o) left ≡ true → ⊥)
        (IsLastStep graph.now steps.now b end left) }
{
    for start in 0..graph.count() {
        if stands_at(steps, b, start, left) {
            if let Some(step) = first_step(graph, start, end) {
                return Some(step);
            }
        }
    }
    None
}

/// The first of the shortest walks from `b` to `c` that the level allows, picked from the last step backwards.
pub(crate) fn first_walk(
    alloc: Global,
    graph: &Graph,
    near: &Near,
    b: u32,
    c: u32,
) -> Result<Walk, NoMemory>
    requires near { IsNearOf (judged graph.now near.now.level) near.now }
    requires from { b < count graph.now }
    requires to { c < count graph.now }
    requires reached { slice_index (row_of near.now.rows b) c < NONE }
    ensures { IfOk result (IsFirstWalk (judged graph.now near.now.level) b c) }
{
    let steps = near.row(b);
    let total = steps[c as usize];
    let mut end = c;
    let mut taken = Vec::new(alloc);
    for done in 0..total {
        let Some(step) = last_step(graph, steps, b, end, total - done - 1) else {
            unreachable!()
        };
        end = step.from();
        taken.push(step)?;
    }
    taken.reverse();
    Ok(Walk::new(taken))
}
