//! The links at `Causal` that are kept: for each transaction and each session the last one that has to be before it, unless it
//! reaches it. Only readings that may show one are examined (`news`). A link that an earlier transaction of the same session
//! has too is kept there alone. If the readers of both are alike, the later one isn't examined. For N transactions of S
//! sessions, R reads, of which P pairs of a source and a key have such readings, and W writers of a key that takes O(S (N + R
//! + P log W)). A block of sessions is passed over if none of them writes a key that is read from another transaction.
ghost use Rattle.std.specs.Prelude.{◌≡◌, ◌≢◌, ◌<◌, ◌≤◌, ◌+◌, ◌-◌, ◌*◌, ◌⊎◌, ℕ, length, slice_index, slice_index_or, All, IfOk, OnOk};
ghost use Rattle.tcc_reads.specs.History.{IsBySession, count, owner};
ghost use Rattle.tcc_graph.specs.{Relations.IsReadsPair, Levels.causally, Tables.row_of, Orders.IsNumbering};
ghost use Rattle.tcc_clocks.specs.{Parents.ArePrevious, Spans.AreBounds, declared.latest.TheConstants.WIDE};
ghost use Rattle.tcc_clocks.specs.Clocks.{AreOwners, AreClocks, LeadsOnward};
ghost use Rattle.tcc_order.specs.private.CausalLinks.{IsOverwritten, IsLifted, AreDerived, AreEnough, AreLinks, AreLinksFrom, AreStillKept, IsFrom, Overwrites, lifted_by, AreOrdered, CanLift, IsLastUpTo, IsLastBut, AreLatestPast, KeepsNews, IsBegun};
ghost use Rattle.tcc_order.specs.private.Sweeps.{IsSweep};
ghost use Rattle.tcc_order.specs.private.News.{AreNews, AreNewsOf};
ghost use Rattle.tcc_order.specs.private.ByKey.{past_of, IsTop, AreAlike, IsLikeBefore, key_index_in, reader_in};
ghost use Rattle.std.specs.List.Sorted.{IsNonDecreasing, IsPartitionPoint};
ghost use Rattle.std.specs.Prelude.{nat_le, true, false, ◌∷◌, []};

use crate::news::{find_news, no_writers};
use crate::rows::refill;
use crate::sweep::Sweep;
use std::alloc::Global;
use tcc_clocks::{Clock, SharedRows, WIDE, between, block_bounds, raise_each, span_of};
use tcc_graph::LargeGraph;
use tcc_reads::FlatRows;
use tcc_txn::NoMemory;

/// Up to this many writers of a key are visited one by one.
const FEW: usize = 128;

/// Raises the number of a session to that of a writer other than `a`, if the clock reaches it.
fn lift_writer(need: &mut [u32], owners: &[u32], from: u32, clock: &[u32], b: u32, a: u32)
    requires same { length need.old ≡ length clock.now }
    requires inside { b < length owners.now }
    ensures same { length need.new ≡ length need.old }
    ensures each { (k : ℕ) → k < length need.old → slice_index need.new k ≡ lifted_by owners.now from clock.now a b k (slice_index need.old k) }
{
    let owner = owners[b as usize];
    if b > 0 && b != a && owner >= from {
        let column = (owner - from) as usize;
        if column < need.len() && b <= clock[column] {
            need[column] = b.max(need[column]);
        }
    }
}

/// Raises the number of a session to each of these writers in turn, if the clock reaches it.
fn lift_each(need: &mut [u32], owners: &[u32], from: u32, clock: &[u32], writers: &[u32], a: u32)
    requires same { length need.old ≡ length clock.now }
    requires inside { All (λ b. b < length owners.now) writers.now }
    ensures same { length need.new ≡ length need.old }
    ensures each { (k : ℕ) → k < length need.old → IsLifted owners.now from clock.now writers.now a k (slice_index need.old k) (slice_index need.new k) }
{
    for writer in writers {
        lift_writer(need, owners, from, clock, *writer, a);
    }
}

/// How many of these, which ascend, are at most `top`.
fn count_up_to(numbers: &[u32], top: u32) -> usize
    requires { IsNonDecreasing numbers.now }
    ensures bound { result ≤ length numbers.now }
    ensures point { IsPartitionPoint (λ b. nat_le b top ≡ true) (λ b. nat_le b top ≡ false) numbers.now result }
{
    numbers.partition_point(|number| *number <= top)
}

/// The last of these, which ascend, that is at most `top`, or 0.
pub(crate) fn last_up_to(numbers: &[u32], top: u32) -> u32
    requires { IsNonDecreasing numbers.now }
    ensures { IsLastUpTo numbers.now top result }
{
    let count = count_up_to(numbers, top);
    if count == 0 {
        return 0;
    }
    numbers[count - 1]
}

/// The last of these, which ascend, that is at most `top` and is not `a`, or 0.
fn last_but(numbers: &[u32], top: u32, a: u32) -> u32
    requires { IsNonDecreasing numbers.now }
    ensures { IsLastBut numbers.now top a result }
{
    let last = last_up_to(numbers, top);
    if last == a && a > 0 {
        return last_up_to(numbers, a - 1);
    }
    last
}

/// The number of a session, raised to that of the last writer other than `a` that its clock reaches.
pub(crate) fn lift_session(
    owners: &[u32],
    session: usize,
    top: u32,
    writers: &[u32],
    a: u32,
    number: u32,
) -> u32
    requires ordered { AreOrdered owners.now }
    requires rising { IsNonDecreasing writers.now }
    requires inside { All (λ b. b < length owners.now) writers.now }
    requires top { (top ≡ 0) ⊎ ((top < length owners.now) × (slice_index owners.now top ≡ session)) }
    ensures { IsLifted owners.now session (top ∷ []) writers.now a 0 number result }
{
    if top <= number {
        return number;
    }
    let last = last_but(writers, top, a);
    if last > number && owners[last as usize] as usize == session {
        return last;
    }
    number
}

/// Raises the number of each session to that of the last writer, other than `a`, that the clock reaches.
fn lift_sessions(
    need: &mut [u32],
    owners: &[u32],
    from: u32,
    clock: &[u32],
    writers: &[u32],
    a: u32,
)
    requires { CanLift owners.now from clock.now writers.now need.old }
    ensures same { length need.new ≡ length need.old }
    ensures each { (k : ℕ) → k < length need.old → IsLifted owners.now from clock.now writers.now a k (slice_index need.old k) (slice_index need.new k) }
{
    for (column, number) in need.iter_mut().enumerate() {
        let session = from as usize + column;
        *number = lift_session(owners, session, clock[column], writers, a, *number);
    }
}

/// Raises the numbers of the sessions to those of writers, other than `a`, that the clock reaches. It goes writer by writer if
/// they are few, and else session by session.
fn lift_writers(need: &mut [u32], owners: &[u32], from: u32, clock: &[u32], writers: &[u32], a: u32)
    requires { CanLift owners.now from clock.now writers.now need.old }
    ensures same { length need.new ≡ length need.old }
    ensures each { (k : ℕ) → k < length need.old → IsLifted owners.now from clock.now writers.now a k (slice_index need.old k) (slice_index need.new k) }
{
    if writers.len() <= FEW {
        lift_each(need, owners, from, clock, writers, a);
    } else {
        lift_sessions(need, owners, from, clock, writers, a);
    }
}

/// The end of the readings of one key that begin at `start`.
fn end_of_key(readings: &[(u32, u32)], start: usize) -> usize
    requires { start < length readings.now }
    ensures past { start < result }
    ensures within { result ≤ length readings.now }
    ensures same { (k : ℕ) → start ≤ k → k < result → key_index_in readings.now k ≡ key_index_in readings.now start }
{
    let key_index = readings[start].1;
    for index in start + 1..readings.len() {
        if readings[index].1 != key_index {
            return index;
        }
    }
    readings.len()
}

/// Keeps for each session only a number that is past what is known.
fn keep_past(top: &mut [u32], known: &[u32])
    requires { length top.old ≡ length known.now }
    ensures same { length top.new ≡ length top.old }
    ensures each { (k : ℕ) → k < length top.old → slice_index top.new k ≡ past_of (slice_index known.now k) (slice_index top.old k) }
{
    for (session, last) in top.iter_mut().enumerate() {
        *last = if *last <= known[session] { 0 } else { *last };
    }
}

/// For each session of the block the greatest number that reaches one of the readers from `start` to below `end`, if it is
/// past the clock of `a`. A reader with that clock is passed over.
fn top_of(table: &SharedRows, readings: &[(u32, u32)], start: usize, end: usize, a: u32) -> Clock
    requires upto { start ≤ end }
    requires within { end ≤ length readings.now }
    requires readers { (k : ℕ) → k < length readings.now → reader_in readings.now k < length table.now }
    requires wide { (c : ℕ) → c < length table.now → length (row_of table.now c) ≡ WIDE }
    requires below { a < length table.now }
    ensures wide { length result ≡ WIDE }
    ensures tops { (k : ℕ) → k < WIDE → IsTop table.now readings.now start end (row_of table.now a) k (slice_index result k) }
{
    let known = table.get(a);
    let mut top = [0; WIDE];
    for index in start..end {
        let reader = readings[index].0;
        if !table.are_same(reader, a) {
            raise_each(&mut top, table.get(reader));
        }
    }
    keep_past(&mut top, known);
    top
}

/// What has to be before `a` by what was read from it. For each session of the block it is the last writer that reaches a
/// reader of its key from `a`, and that is past those that reach `a`. The readers of one key are handled together, so that its
/// writers are visited once.
fn needed(
    need: &mut [u32],
    graph: &LargeGraph,
    owners: &[u32],
    from: u32,
    bounds: (usize, usize),
    table: &SharedRows,
    readings: &[(u32, u32)],
    a: u32,
)
    requires wide { length need.old ≡ WIDE }
    requires numbered { IsBySession graph.now.entries }
    requires owners { AreOwners graph.now owners.now }
    requires clocks { AreClocks graph.now from table.now }
    requires bounds { AreBounds owners.now from bounds.0 bounds.1 }
    requires readings { AreNewsOf graph.now from table.now a readings.now }
    requires below { a < count graph.now }
    ensures { AreLatestPast graph.now (IsOverwritten graph.now (IsReadsPair graph.now a) a) from (row_of table.now a) need.new }
{
    need.fill(0);
    let mut start = 0;
    while start < readings.len() {
        let end = end_of_key(readings, start);
        let top = top_of(table, readings, start, end, a);
        let key_index = readings[start].1;
        let all = graph.writers_at(key_index);
        let writers = between(all, span_of(all, bounds.0, bounds.1));
        lift_writers(need, owners, from, &top, writers, a);
        start = end;
    }
}

/// The number before `c`, if it is of the same session, or else 0.
pub(crate) fn before_in_session(owners: &[u32], c: u32) -> u32
    requires { c < length owners.now }
    ensures low { result ≤ c }
    ensures own { (result ≡ 0) ⊎ ((result ≡ c - 1) × (slice_index owners.now result ≡ slice_index owners.now c)) }
    ensures first { result ≡ 0 → (c ≡ 0) ⊎ ((c ≡ 1) ⊎ (slice_index owners.now (c - 1) ≢ slice_index owners.now c)) }
{
    if c > 0 && owners[(c - 1) as usize] == owners[c as usize] {
        c - 1
    } else {
        0
    }
}

/// Begins the run anew if `a` is the first transaction of its session.
fn begin_session(run: &mut [u32], owners: &[u32], a: u32)
    requires { a < length owners.now }
    ensures same { length run.new ≡ length run.old }
    ensures begun { IsBegun owners.now a run.old run.new }
{
    if before_in_session(owners, a) > 0 {
        return;
    }
    run.fill(0);
}

/// Whether these are readers of the same keys, and at each index both are known to have one row.
fn are_alike(table: &SharedRows, readings: &[(u32, u32)], others: &[(u32, u32)]) -> bool
    requires readers { All (λ reading. reading.0 < length table.now) readings.now }
    requires others { All (λ reading. reading.0 < length table.now) others.now }
    ensures { result ≡ true → AreAlike table.now readings.now others.now }
{
    if readings.len() != others.len() {
        return false;
    }
    for index in 0..readings.len() {
        if readings[index].1 != others[index].1 {
            return false;
        }
        if !table.are_same(readings[index].0, others[index].0) {
            return false;
        }
    }
    true
}

/// Whether the readers of `a` are like those of the transaction before it in its session.
fn is_like_before(
    owners: &[u32],
    table: &SharedRows,
    readings: &FlatRows<(u32, u32)>,
    a: u32,
) -> bool
    requires below { a < length owners.now }
    requires long { length readings.now ≡ length owners.now }
    requires readers { All (λ row. All (λ reading. reading.0 < length table.now) row) readings.now }
    ensures { result ≡ true → IsLikeBefore owners.now table.now readings.now a }
{
    let before = before_in_session(owners, a);
    if before == 0 {
        return false;
    }
    let from_a = readings.row(a as usize);
    let from_before = readings.row(before as usize);
    are_alike(table, from_a, from_before)
}

/// Whether more may have to be before `a` than what its clock holds, and than what has to be before the transaction before it
/// in its session.
fn has_more(owners: &[u32], table: &SharedRows, readings: &FlatRows<(u32, u32)>, a: u32) -> bool
    requires below { a < length owners.now }
    requires long { length readings.now ≡ length owners.now }
    requires readers { All (λ row. All (λ reading. reading.0 < length table.now) row) readings.now }
    ensures { result ≡ false → (row_of readings.now a ≡ []) ⊎ IsLikeBefore owners.now table.now readings.now a }
{
    if readings.row(a as usize).is_empty() {
        return false;
    }
    !is_like_before(owners, table, readings, a)
}

/// Keeps the numbers that are greater than those of the clock and those of the run: what the run holds is kept already, into
/// an earlier transaction of the session.
fn keep(kept: &mut Vec<u32>, need: &[u32], clock: &[u32], run: &mut [u32]) -> Result<(), NoMemory>
    requires long { length need.now ≡ length clock.now }
    requires runs { length run.old ≡ length need.now }
    ensures same { length run.new ≡ length run.old }
    ensures kept { OnOk result (KeepsNews need.now clock.now run.old run.new kept.old.items kept.new.items (length need.now)) }
{
    for (session, number) in need.iter().enumerate() {
        let known = clock[session].max(run[session]);
        if *number > known {
            kept.push(*number)?;
            run[session] = *number;
        }
    }
    Ok(())
}

/// The links that were kept, with those from the sessions of a block.
fn keep_block(
    alloc: Global,
    kept: &FlatRows<u32>,
    graph: &LargeGraph,
    owners: &[u32],
    from: u32,
    table: &SharedRows,
    readings: &FlatRows<(u32, u32)>,
) -> Result<FlatRows<u32>, NoMemory>
    requires numbered { IsBySession graph.now.entries }
    requires owners { AreOwners graph.now owners.now }
    requires clocks { AreClocks graph.now from table.now }
    requires readings { AreNews graph.now from table.now readings.now }
    requires long { length kept.now ≡ count graph.now }
    requires derived { AreDerived (Overwrites graph.now) kept.now }
    ensures same { IfOk result (λ more. length more ≡ length kept.now) }
    ensures derived { IfOk result (AreDerived (Overwrites graph.now)) }
    ensures still { IfOk result (AreStillKept kept.now) }
    ensures enough { IfOk result (AreEnough graph.now (Overwrites graph.now) (IsFrom graph.now from (from + WIDE))) }
{
    let mut need = [0; WIDE];
    let mut run = [0; WIDE];
    let mut row = Vec::new(alloc);
    let mut more = FlatRows::with_room(alloc, graph.count())?;
    let bounds = block_bounds(owners, from);
    for a in 0..graph.count() {
        begin_session(&mut run, owners, a);
        let before = kept.row(a as usize);
        if !has_more(owners, table, readings, a) {
            more.push(before)?;
            continue;
        }
        let from_a = readings.row(a as usize);
        needed(&mut need, graph, owners, from, bounds, table, from_a, a);
        refill(&mut row, before)?;
        keep(&mut row, &need, table.get(a), &mut run)?;
        more.push(&row)?;
    }
    Ok(more)
}

/// Whether a block may have such links.
fn is_needed(needed: &[bool], block: usize) -> bool
    ensures { result ≡ false → slice_index_or needed.now block false ≡ false }
{
    match needed.get(block) {
        Some(is_needed) => *is_needed,
        None => true,
    }
}

/// The links that are kept from the blocks of sessions from `first` to below `end`. No other blocks are examined.
pub(crate) fn links_from(
    alloc: Global,
    sweep: &Sweep<'_>,
    first: usize,
    end: usize,
) -> Result<FlatRows<u32>, NoMemory>
    requires { IsSweep sweep.now }
    ensures { IfOk result (AreLinksFrom sweep.now.graph.now (first * WIDE) (end * WIDE)) }
{
    let graph = sweep.graph;
    let blocks = graph.sessions().len().div_ceil(WIDE);
    let mut kept = FlatRows::empty(alloc, graph.count())?;
    let mut table = SharedRows::new(alloc, graph.count())?;
    let mut last = no_writers(alloc, graph)?;
    let mut heads = vec![in alloc; 0; last.len()]?;
    for block in first..end.min(blocks) {
        if !is_needed(&sweep.needed, block) {
            continue;
        }
        let from = (block * WIDE) as u32;
        let readings = find_news(alloc, &mut last, &mut heads, sweep, from, &mut table)?;
        kept = keep_block(alloc, &kept, graph, &sweep.owners, from, &table, &readings)?;
    }
    Ok(kept)
}

/// The links at `Causal` that are kept, by an order in which causal pairs lead onward.
pub(crate) fn causal_links(
    alloc: Global,
    graph: &LargeGraph,
    parents: &[u32],
    order: &[u32],
) -> Result<FlatRows<u32>, NoMemory>
    requires parents { ArePrevious graph.now parents.now }
    requires numbering { IsNumbering (count graph.now) order.now }
    requires onward { LeadsOnward graph.now order.now }
    ensures { IfOk result (AreLinks (causally graph.now)) }
{
    let sweep = Sweep::new(alloc, graph, parents, order)?;
    links_from(alloc, &sweep, 0, graph.sessions().len().div_ceil(WIDE))
}
