//! The rules on a claim that a list is a commit order.
ghost use Rattle.std.specs.Prelude.{ℕ, ◌≡◌, ◌<◌, ◌≤◌, ◌↔◌, ◌^◌, List, length, slice_index, IsTrue, IfOk, MatchOption};
ghost use Rattle.tcc_txn.specs.declared.limits.TheConstants.{MAX_COUNT, MAX_SESSIONS};
ghost use Rattle.tcc_reads.specs.History.{IsBySession, count};
ghost use Rattle.tcc_graph.specs.{Relations.IsCausalPair, Relations.IsReadsPair, declared.level.Level.TheVariants.Causal};
ghost use Rattle.tcc_cert.specs.Tables.{entry, HasSize, IsFirstAt};
ghost use Rattle.tcc_cert.specs.OrderRules.{HasClocks, HasInClock, MayReach, HasOrderSizes, KeepsPairs, BreaksAxiom};
ghost use Rattle.tcc_cert.specs.Rules.{HoldsEverywhere};
ghost use Rattle.tcc_rules.specs.Asked.{IsVerdictOf};
ghost use Rattle.tcc_check.specs.{private.Searches.IsFoundBelow, private.Readings.AreReadings, Verdicts.order_rules};
ghost use Rattle.tcc_check.specs.private.Positions.{ArePositions, IsKept, IsBehind};

use crate::groups::Groups;
use crate::latest::keeps_axiom;
use crate::links_from::{contradicted_weights, pair_weights};
use crate::positions::positions_of;
use crate::readings::readings_of;
use crate::sizes::has_size;
use crate::verdict::rejected;
use std::alloc::Global;
use tcc_cert::{Numbers, OrderClaim};
use tcc_graph::{LargeGraph, Level};
use tcc_rules::{Rule, Verdict};
use tcc_txn::NoMemory;

/// How much of a session a clock has.
fn clock_at(clocks: &[Numbers], number: u32, session: u32) -> u32
    requires { number < length clocks.now }
    ensures { result ≡ entry clocks.now number session }
{
    let clock = clocks[number as usize].as_slice();
    clock.get(session as usize).copied().unwrap_or(0)
}

/// How much is missing from the clock of `c` to have `b`: nothing where, by the clock, `b` may reach `c`.
pub(crate) fn clock_gap(graph: &LargeGraph, clocks: &[Numbers], b: u32, c: u32) -> u32
    requires b { b < count graph.now }
    requires c { c < length clocks.now }
    ensures { (result ≡ 0) ↔ MayReach graph.now Causal clocks.now b c }
{
    match graph.at(b) {
        None => 0,
        Some((session, place)) => place.saturating_sub(clock_at(clocks, c, session)),
    }
}

/// Whether no value of the one clock is above that of the other.
fn is_clock_below(one: &[u32], other: &[u32]) -> bool
    requires { length one.now ≡ length other.now }
    ensures { IsTrue result ↔ ((session : ℕ) → session < length one.now → slice_index one.now session ≤ slice_index other.now session) }
{
    for (session, value) in one.iter().enumerate() {
        if other[session] < *value {
            return false;
        }
    }
    true
}

/// Whether the clock of `c` has that of `b` and `b` itself.
fn is_in_clock(graph: &LargeGraph, clocks: &[Numbers], b: u32, c: u32) -> bool
    requires clocks { HasSize (count graph.now) (length graph.now.sessions) clocks.now }
    requires b { b < count graph.now }
    requires c { c < count graph.now }
    ensures { IsTrue result ↔ HasInClock graph.now clocks.now b c }
{
    is_clock_below(clocks[b as usize].as_slice(), clocks[c as usize].as_slice())
        && clock_gap(graph, clocks, b, c) == 0
}

/// Whether `b` comes before `c`, and the clock of `c`, where there are clocks, has that of `b` and `b` itself.
fn is_kept(graph: &LargeGraph, claim: &OrderClaim, positions: &[u32], b: u32, c: u32) -> bool
    requires positions { length positions.now ≡ count graph.now }
    requires sizes { HasOrderSizes graph.now claim.now }
    requires b { b < count graph.now }
    requires c { c < count graph.now }
    ensures { IsTrue result ↔ IsKept graph.now claim.now.level positions.now claim.now.clocks b c }
{
    if positions[c as usize] <= positions[b as usize] {
        return false;
    }
    match claim.level {
        Level::Causal => is_in_clock(graph, claim.clocks.as_slice(), b, c),
        Level::Atomic => true,
    }
}

/// Whether all reads-from pairs that end at `c` are kept.
fn keeps_sources(graph: &LargeGraph, claim: &OrderClaim, positions: &[u32], c: u32) -> bool
    requires positions { length positions.now ≡ count graph.now }
    requires sizes { HasOrderSizes graph.now claim.now }
    requires c { c < count graph.now }
    ensures { IsTrue result ↔ ((b : ℕ) (x : List ℕ) → IsReadsPair graph.now b c x → IsKept graph.now claim.now.level positions.now claim.now.clocks b c) }
{
    for (_key, source) in graph.reads_at(c) {
        if !is_kept(graph, claim, positions, *source, c) {
            return false;
        }
    }
    true
}

/// Whether all causal pairs that end at `c` are kept, where those that end before it are. For session order it is enough to
/// check the last transaction before `c`.
fn keeps_pairs_to(graph: &LargeGraph, claim: &OrderClaim, positions: &[u32], c: u32) -> bool
    requires numbered { IsBySession graph.now.entries }
    requires positions { length positions.now ≡ count graph.now }
    requires sizes { HasOrderSizes graph.now claim.now }
    requires c { c < count graph.now }
    requires earlier { (b : ℕ) (end : ℕ) → end < c → IsCausalPair graph.now b end → IsKept graph.now claim.now.level positions.now claim.now.clocks b end }
    ensures { IsTrue result ↔ ((b : ℕ) → IsCausalPair graph.now b c → IsKept graph.now claim.now.level positions.now claim.now.clocks b c) }
{
    if 0 < c && !is_kept(graph, claim, positions, graph.previous(c), c) {
        return false;
    }
    keeps_sources(graph, claim, positions, c)
}

/// Whether all causal pairs are kept.
fn keeps_pairs(graph: &LargeGraph, claim: &OrderClaim, positions: &[u32]) -> bool
    requires numbered { IsBySession graph.now.entries }
    requires positions { length positions.now ≡ count graph.now }
    requires sizes { HasOrderSizes graph.now claim.now }
    ensures { IsTrue result ↔ ((b : ℕ) (c : ℕ) → IsCausalPair graph.now b c → IsKept graph.now claim.now.level positions.now claim.now.clocks b c) }
{
    for c in 0..graph.count() {
        if !keeps_pairs_to(graph, claim, positions, c) {
            return false;
        }
    }
    true
}

/// How much is missing from the clock of each transaction to have `b`.
fn clock_gaps(
    alloc: Global,
    graph: &LargeGraph,
    clocks: &[Numbers],
    b: u32,
) -> Result<Vec<u32>, NoMemory>
    requires b { b < count graph.now }
    requires clocks { length clocks.now ≡ count graph.now }
    ensures long { IfOk result (λ row. length row.items ≡ count graph.now) }
    ensures none { IfOk result (λ row. (c : ℕ) → c < count graph.now → (slice_index row.items c ≡ 0) ↔ MayReach graph.now Causal clocks.now b c) }
{
    let mut row = Vec::new(alloc);
    for c in 0..graph.count() {
        row.push(clock_gap(graph, clocks, b, c))?;
    }
    Ok(row)
}

/// How much is missing for `b` to reach each transaction, as far as the level asks. At `Atomic` there are no clocks, and
/// nothing is missing for causal pairs alone.
fn gaps(
    alloc: Global,
    graph: &LargeGraph,
    level: Level,
    clocks: &[Numbers],
    b: u32,
) -> Result<Vec<u32>, NoMemory>
    requires b { b < count graph.now }
    requires clocks { HasClocks level (count graph.now) (length graph.now.sessions) clocks.now }
    ensures long { IfOk result (λ row. length row.items ≡ count graph.now) }
    ensures none { IfOk result (λ row. (c : ℕ) → c < count graph.now → (slice_index row.items c ≡ 0) ↔ MayReach graph.now level clocks.now b c) }
{
    match level {
        Level::Causal => clock_gaps(alloc, graph, clocks, b),
        Level::Atomic => pair_weights(alloc, graph, b),
    }
}

/// The first transaction that `b` contradicts by these weights and does not precede.
fn first_behind(positions: &[u32], weights: &[u32], b: u32) -> Option<u32>
    requires size { length weights.now ≡ length positions.now }
    requires b { b < length positions.now }
    requires few { length positions.now < 2 ^ 32 }
    ensures { IsFoundBelow (length positions.now) (IsBehind weights.now positions.now b) result }
{
    for (a, position) in positions.iter().enumerate() {
        if weights[a] == 0 && *position <= positions[b as usize] {
            return Some(a as u32);
        }
    }
    None
}

/// The first transaction that `b` has to precede by the axiom, and does not.
fn broken_by(
    alloc: Global,
    graph: &LargeGraph,
    claim: &OrderClaim,
    readings: &[Option<Groups>],
    positions: &[u32],
    b: u32,
) -> Result<Option<u32>, NoMemory>
    requires few { count graph.now ≤ MAX_COUNT }
    requires readings { AreReadings graph.now readings.now }
    requires sizes { HasOrderSizes graph.now claim.now }
    requires positions { ArePositions claim.now.order positions.now }
    requires b { b < count graph.now }
    ensures { IfOk result (IsFoundBelow (count graph.now) (λ a. BreaksAxiom graph.now claim.now (b, a))) }
{
    let row = gaps(alloc, graph, claim.level, claim.clocks.as_slice(), b)?;
    let weights = contradicted_weights(alloc, graph, readings, &row, b)?;
    Ok(first_behind(positions, &weights, b))
}

/// Where the axiom is broken first.
fn broken_axiom(
    alloc: Global,
    graph: &LargeGraph,
    claim: &OrderClaim,
    positions: &[u32],
) -> Result<Option<(u32, u32)>, NoMemory>
    requires few { count graph.now ≤ MAX_COUNT }
    requires sizes { HasOrderSizes graph.now claim.now }
    requires positions { ArePositions claim.now.order positions.now }
    ensures { IfOk result (λ found. MatchOption found
        (HoldsEverywhere (BreaksAxiom graph.now claim.now)) (IsFirstAt (BreaksAxiom graph.now claim.now))) }
{
    let readings = readings_of(alloc, graph)?;
    for b in 0..graph.count() {
        if let Some(a) = broken_by(alloc, graph, claim, &readings, positions, b)? {
            return Ok(Some((b, a)));
        }
    }
    Ok(None)
}

/// Whether the clocks have the size of the history; at `Atomic` there are none.
fn has_clocks(level: Level, clocks: &[Numbers], count: usize, sessions: usize) -> bool
    ensures { IsTrue result ↔ HasClocks level count sessions clocks.now }
{
    match level {
        Level::Causal => has_size(clocks, count, sessions),
        Level::Atomic => clocks.is_empty(),
    }
}

/// Whether the order, the number of sessions and the clocks are those of the history.
fn has_order_sizes(graph: &LargeGraph, claim: &OrderClaim) -> bool
    ensures numbered { IsBySession graph.now.entries }
    ensures sizes { IsTrue result ↔ HasOrderSizes graph.now claim.now }
{
    let count = graph.count() as usize;
    let all = graph.sessions().len();
    claim.order.as_slice().len() == count
        && claim.sessions as usize == all
        && has_clocks(claim.level, claim.clocks.as_slice(), count, all)
}

/// The position of each number, none where a number is there twice or a causal pair is not kept.
fn kept_positions(
    alloc: Global,
    graph: &LargeGraph,
    claim: &OrderClaim,
) -> Result<Option<Vec<u32>>, NoMemory>
    requires numbered { IsBySession graph.now.entries }
    requires few { count graph.now ≤ MAX_COUNT }
    requires sizes { HasOrderSizes graph.now claim.now }
    ensures { IfOk result (λ found. MatchOption found
        (KeepsPairs graph.now claim.now → ⊥) (λ positions. ArePositions claim.now.order positions.items × KeepsPairs graph.now claim.now)) }
{
    let Some(positions) = positions_of(alloc, claim.order.as_slice())? else {
        return Ok(None);
    };
    if !keeps_pairs(graph, claim, &positions) {
        return Ok(None);
    }
    Ok(Some(positions))
}

/// Judges a claim that a list is a commit order.
pub(crate) fn order_verdict(
    alloc: Global,
    graph: &LargeGraph,
    claim: &OrderClaim,
) -> Result<Verdict, NoMemory>
    requires few { count graph.now ≤ MAX_COUNT }
    requires few_sessions { length graph.now.sessions ≤ MAX_SESSIONS }
    ensures { IfOk result (IsVerdictOf (order_rules graph.now claim.now)) }
{
    if !has_order_sizes(graph, claim) {
        return Ok(rejected(Rule::Sizes, 0));
    }
    let Some(positions) = kept_positions(alloc, graph, claim)? else {
        return Ok(rejected(Rule::Pairs, 0));
    };
    let kept = keeps_axiom(
        alloc,
        graph,
        claim.level,
        &positions,
        claim.clocks.as_slice(),
    )?;
    if kept {
        return Ok(Verdict::Accepted);
    }
    match broken_axiom(alloc, graph, claim, &positions)? {
        Some(at) => Ok(Verdict::Rejected {
            rule: Rule::Axiom,
            at,
        }),
        None => Ok(Verdict::Accepted),
    }
}
