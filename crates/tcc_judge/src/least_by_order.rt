//! The rules that no cycle costs less, above a cost of 4. The order that runs encode keeps all pairs. A cycle that costs less then goes
//! through `init`, or else a derived link leads back in the order over each of its transactions, and each of them is near to such links. So
//! it is looked for there.
ghost use Rattle.std.specs.Prelude.{◌<◌, ◌≤◌, ◌⊎◌, ◌↔◌, ℕ, IfOk, IsTrue, MatchOption};
ghost use Rattle.tcc_graph.specs.Levels.{judged};
ghost use Rattle.tcc_lanes.specs.{Among.HasCheaperAmong, Among.HasCheaperIntoInit, declared.limits.TheConstants.MOST_MEMBERS, declared.limits.TheConstants.MOST_STEPS};
ghost use Rattle.tcc_judge.specs.{private.Contradicted.AreContradicted, private.Members.AreListed, private.Members.AreThose, private.Members.IsMarked, private.Onward.HasAllBelow, private.Onward.onward_rules, private.Positions.ArePositions, private.Positions.KeepsPairs, private.Decoding.IsOrdered, private.Sources.AreSources};
ghost use Rattle.tcc_reads.specs.History.{count};
ghost use Rattle.tcc_judge.specs.Spanned.{HasFewMembers, IsBounded, IsLeadingBack, IsLedBack, IsMember, IsStaleKey};
ghost use Rattle.tcc_rules.specs.Asked.{IsVerdictOf};

use crate::contradicted::{ContradictedReads, contradicted_along};
use crate::first_backward_read::kept_positions;
use crate::members::{all_marked, both_marked, marked, marked_led, marked_under};
use crate::verdict::{rejected, rejected_at};
use crate::{LargeJudging, LargeRule, LargeVerdict};
use std::alloc::Global;
use tcc_base::Progress;
use tcc_graph::{LargeGraph, Level};
use tcc_lanes::{
    MOST_MEMBERS, MOST_STEPS, MOST_SWEPT, has_cheaper_among, has_cheaper_into_init, near,
};
use tcc_txn::NoMemory;

/// Where a cycle that costs less can be.
#[derive(Drop)]
pub(crate) struct Narrowed {
    /// The transactions over which a derived link leads back and that are near, ascending.
    pub(crate) members: Vec<u32>,
    /// The keys by which a derived link leads into `init`, ascending.
    pub(crate) key_indices: Vec<u32>,
}

/// Marks the transactions that a cycle which costs less can have: a derived link leads back over each of them, and they are near. Such
/// links begin at these sources and end at these targets.
fn member_marks(
    alloc: Global,
    graph: &LargeGraph,
    level: Level,
    order: &[u32],
    positions: &[u32],
    found: &ContradictedReads,
    most: u32,
    sources: &[u32],
    targets: &[u32],
) -> Result<Vec<bool>, NoMemory>
    requires ordered { IsOrdered graph.now order.now }
    requires positions { ArePositions (count graph.now) order.now positions.now }
    requires found { AreContradicted graph.now order.now positions.now found.now.lasts.items found.now.stale.items }
    requires sources { AreListed (IsLeadingBack graph.now order.now) sources.now }
    requires targets { AreListed (IsLedBack graph.now order.now) targets.now }
    ensures { IfOk result (λ marks. (v : ℕ) → IsMarked marks.items v ↔ IsMember (judged graph.now level) order.now positions.now most v) }
{
    let near = near(
        alloc, graph, level, most, order, positions, sources, targets,
    )?;
    let marks = marked_under(alloc, graph.count(), order, &found.lasts)?;
    let both = both_marked(alloc, &marks, &near)?;
    Ok(both)
}

/// The transactions that a cycle which costs less can have, ascending; none where there are too many sources, targets or transactions.
fn members(
    alloc: Global,
    graph: &LargeGraph,
    level: Level,
    order: &[u32],
    positions: &[u32],
    found: &ContradictedReads,
    most: u32,
) -> Result<Option<Vec<u32>>, NoMemory>
    requires ordered { IsOrdered graph.now order.now }
    requires positions { ArePositions (count graph.now) order.now positions.now }
    requires found { AreContradicted graph.now order.now positions.now found.now.lasts.items found.now.stale.items }
    requires leading { AreSources graph.now order.now found.now.sources.items }
    requires some { 0 < most }
    ensures { IfOk result (λ found. MatchOption found
        (HasFewMembers (judged graph.now level) order.now most → ⊥)
        (λ members. HasFewMembers (judged graph.now level) order.now most
        × AreThose MOST_MEMBERS (IsMember (judged graph.now level) order.now positions.now most) members.items)) }
{
    let Some(sources) = marked(alloc, &found.sources, MOST_SWEPT / most as usize)? else {
        return Ok(None);
    };
    let led = marked_led(alloc, graph.count(), order, &found.lasts)?;
    let Some(targets) = marked(alloc, &led, MOST_MEMBERS)? else {
        return Ok(None);
    };
    let marks = member_marks(
        alloc, graph, level, order, positions, found, most, &sources, &targets,
    )?;
    let Some(members) = marked(alloc, &marks, MOST_MEMBERS)? else {
        return Ok(None);
    };
    Ok(Some(members))
}

/// Where a cycle that costs less can be, by what the order contradicts, however much that is.
pub(crate) fn narrow_on(
    alloc: Global,
    graph: &LargeGraph,
    level: Level,
    order: &[u32],
    positions: &[u32],
    found: &ContradictedReads,
    most: u32,
) -> Result<Narrowed, NoMemory>
    requires ordered { IsOrdered graph.now order.now }
    requires kept { KeepsPairs graph.now order.now positions.now }
    requires found { AreContradicted graph.now order.now positions.now found.now.lasts.items found.now.stale.items }
    requires leading { AreSources graph.now order.now found.now.sources.items }
    ensures { IfOk result (λ there. HasAllBelow (judged graph.now level) most there.members.items there.key_indices.items) }
{
    let sources = all_marked(alloc, &found.sources)?;
    let led = marked_led(alloc, graph.count(), order, &found.lasts)?;
    let targets = all_marked(alloc, &led)?;
    let marks = member_marks(
        alloc, graph, level, order, positions, found, most, &sources, &targets,
    )?;
    let members = all_marked(alloc, &marks)?;
    let key_indices = all_marked(alloc, &found.stale)?;
    Ok(Narrowed {
        members,
        key_indices,
    })
}

/// Where a cycle that costs less can be, by what the order contradicts; none where that is above the limits.
fn narrow(
    alloc: Global,
    graph: &LargeGraph,
    level: Level,
    order: &[u32],
    positions: &[u32],
    found: &ContradictedReads,
    most: u32,
) -> Result<Option<Narrowed>, NoMemory>
    requires ordered { IsOrdered graph.now order.now }
    requires positions { ArePositions (count graph.now) order.now positions.now }
    requires found { AreContradicted graph.now order.now positions.now found.now.lasts.items found.now.stale.items }
    requires leading { AreSources graph.now order.now found.now.sources.items }
    requires some { 0 < most }
    requires most { most ≤ MOST_STEPS }
    ensures { IfOk result (λ found. MatchOption found
        (IsBounded (judged graph.now level) order.now most → ⊥)
        (λ narrowed. IsBounded (judged graph.now level) order.now most
        × (AreThose MOST_MEMBERS (IsMember (judged graph.now level) order.now positions.now most) narrowed.members.items
        × AreThose MOST_MEMBERS (IsStaleKey graph.now) narrowed.key_indices.items))) }
{
    let Some(key_indices) = marked(alloc, &found.stale, MOST_MEMBERS)? else {
        return Ok(None);
    };
    let Some(members) = members(alloc, graph, level, order, positions, found, most)? else {
        return Ok(None);
    };
    Ok(Some(Narrowed {
        members,
        key_indices,
    }))
}

/// Where a cycle that costs less can be; none where that is above the limits.
fn narrow_down<P: Progress>(
    alloc: Global,
    graph: &LargeGraph,
    level: Level,
    order: &[u32],
    positions: &[u32],
    most: u32,
    progress: &P,
) -> Result<Option<Narrowed>, NoMemory>
    requires ordered { IsOrdered graph.now order.now }
    requires kept { KeepsPairs graph.now order.now positions.now }
    requires some { 0 < most }
    ensures { IfOk result (λ found. MatchOption found
        (IsBounded (judged graph.now level) order.now most → ⊥)
        (λ narrowed. IsBounded (judged graph.now level) order.now most
        × (AreThose MOST_MEMBERS (IsMember (judged graph.now level) order.now positions.now most) narrowed.members.items
        × AreThose MOST_MEMBERS (IsStaleKey graph.now) narrowed.key_indices.items))) }
{
    if most > MOST_STEPS {
        return Ok(None);
    }
    let found = contradicted_along(alloc, graph, order, positions, progress)?;
    narrow(alloc, graph, level, order, positions, &found, most)
}

/// Whether a cycle there costs less.
fn has_cheaper(
    alloc: Global,
    graph: &LargeGraph,
    level: Level,
    narrowed: &Narrowed,
    most: u32,
) -> Result<bool, NoMemory>
    requires { HasAllBelow (judged graph.now level) most narrowed.now.members.items narrowed.now.key_indices.items }
    ensures { IfOk result (λ found. IsTrue found
        ↔ (HasCheaperAmong (judged graph.now level) narrowed.now.members.items most
        ⊎ HasCheaperIntoInit (judged graph.now level) narrowed.now.key_indices.items most)) }
{
    if has_cheaper_into_init(alloc, graph, level, &narrowed.key_indices, most)? {
        return Ok(true);
    }
    let found = has_cheaper_among(alloc, graph, level, &narrowed.members, most)?;
    Ok(found)
}

/// The verdict of the rules that no cycle costs less, with an order that has each transaction once, and every session pair in order. While
/// it is worked out what the order contradicts, `progress` is given the number of blocks of sessions done.
pub(crate) fn onward_verdict<P: Progress>(
    alloc: Global,
    graph: &LargeGraph,
    level: Level,
    most: u32,
    order: &[u32],
    progress: &P,
) -> LargeJudging
    requires ordered { IsOrdered graph.now order.now }
    requires some { 0 < most }
    ensures { IfOk result (IsVerdictOf (onward_rules (judged graph.now level) order.now most)) }
{
    let positions = match kept_positions(alloc, graph, order)? {
        Ok(positions) => positions,
        Err(at) => return Ok(rejected_at(LargeRule::Onward, at)),
    };
    let Some(narrowed) = narrow_down(alloc, graph, level, order, &positions, most, progress)? else {
        return Ok(rejected(LargeRule::Limits));
    };
    if has_cheaper(alloc, graph, level, &narrowed, most)? {
        return Ok(rejected(LargeRule::Cheaper));
    }
    Ok(LargeVerdict::Accepted)
}
