//! Which readings may tell more of the transaction that they read from than its clock does. The last writers of each key, by
//! session, are noted along an order of the causal pairs (a sweep), and a reader is examined at its turn. The test for new
//! transactions comes first: if no writer noted so far is past the clock of the source, the reading is done. That takes one
//! comparison of 64 numbers. If all writers noted so far reach one transaction, the head, as is usual, it takes a comparison
//! with the head alone. For N transactions, R reads and W writes it takes N + 64 R + W steps a block of 64 sessions. A key has
//! a row of 64 numbers. Above `SLOTS` keys several share one, which then holds more than it must: some readings are examined
//! in vain.
ghost use Rattle.std.specs.Prelude.{◌≡◌, ◌<◌, ◌≤◌, false, true, ℕ, List, min, length, replicate, slice_index, All, IfOk, OnOk};
ghost use Rattle.std.specs.List.Sorted.{IsNonDecreasing};
ghost use Rattle.tcc_reads.specs.History.{count};
ghost use Rattle.tcc_graph.specs.{Relations.IsReadsPair, Keys.keys, Keys.key_at, Tables.row_of, Orders.IsNumbering, Walks.IsReached};
ghost use Rattle.tcc_clocks.specs.{Parents.AreSteps, Parents.parents};
ghost use Rattle.tcc_clocks.specs.Clocks.{AreClocks, LeadsOnward};
ghost use Rattle.tcc_clocks.specs.{private.Rows.with_own, declared.latest.TheConstants.WIDE, declared.side.Side.TheVariants.Past};
ghost use Rattle.tcc_order.specs.private.{Blocks.IsBlock, CausalLinks.HasNone, Sweeps.IsSweep};
ghost use Rattle.tcc_order.specs.private.News.{AreNews, AreNoted, AreRaised, AreReadingsOf, AreWider, HasClock, HasHeads, HaveHeads, HaveRisen, IsFloor, IsHead, IsHeld, IsKnown, IsTold, KeepHeads, KeepsHead, NoneBefore, TellsNone, known_of};

use crate::block_start::{block_start, zeros_before};
use crate::reading_rows::{Readings, sorted};
use crate::sweep::Sweep;
use std::alloc::{AllocError, Global};
use tcc_clocks::{
    Clock, SharedRows, Side, Steps, WIDE, between, block_bounds, put_row, raise_each,
};
use tcc_graph::LargeGraph;
use tcc_reads::FlatRows;
use tcc_txn::NoMemory;

/// How many rows of last writers there are at most: 32 MiB.
const SLOTS: usize = 131_072;

/// A block of sessions, as the search sees it.
#[derive(Clone, Copy)]
struct NewsBlock<'a> {
    graph: &'a LargeGraph,
    /// The session of each transaction.
    owners: &'a [u32],
    /// The first session of the block.
    from: u32,
    /// A number that is less than all transactions of the block.
    floor: u32,
}

/// Raises the number of a session to that of its transaction `a`, if the session is in the block.
fn raise_own(row: &mut [u32], owners: &[u32], from: u32, a: u32)
    requires inside { a < length owners.now }
    ensures same { length row.new ≡ length row.old }
    ensures each { (k : ℕ) → k < length row.old → slice_index row.new k ≡ with_own Past owners.now from a k (slice_index row.old k) }
{
    let owner = owners[a as usize];
    if a > 0 && owner >= from {
        let column = (owner - from) as usize;
        if column < row.len() {
            row[column] = a.max(row[column]);
        }
    }
}

/// For each session of the block the greatest number that reaches `a`, or `a` itself in its own session. Each is at least the
/// floor, which is less than all numbers of the block.
fn known_by(block: &NewsBlock<'_>, table: &SharedRows, a: u32) -> Clock
    requires inside { a < length block.now.owners.now }
    requires long { length table.now ≡ length block.now.owners.now }
    requires wide { length (row_of table.now a) ≡ WIDE }
    ensures wide { length result ≡ WIDE }
    ensures each { (k : ℕ) → k < WIDE → slice_index result k ≡ known_of block.now.owners.now block.now.from block.now.floor (row_of table.now a) a k }
{
    let mut known = [block.floor; WIDE];
    raise_each(&mut known, table.get(a));
    raise_own(&mut known, block.owners, block.from, a);
    known
}

/// Whether some number that was noted, and that the reader's clock holds, is past what is known.
fn is_past(last: &[u32], reader: &[u32], known: &[u32]) -> bool
    requires readers { length reader.now ≡ length last.now }
    requires known { length known.now ≡ length last.now }
    ensures { result ≡ false → (k : ℕ) → k < length last.now → min (slice_index reader.now k) (slice_index last.now k) ≤ slice_index known.now k }
{
    let mut any = false;
    for (session, number) in last.iter().enumerate() {
        any |= reader[session].min(*number) > known[session];
    }
    any
}

/// No writers yet: a row for each key, or for several keys.
pub(crate) fn no_writers(alloc: Global, graph: &LargeGraph) -> Result<Vec<Clock>, AllocError>
    ensures { IfOk result (λ last. 0 < length last.items) }
{
    let slots = graph.keys().len().clamp(1, SLOTS);
    vec![in alloc; [0; WIDE]; slots]
}

/// A number that is less than all transactions of the block.
fn floor_of(owners: &[u32], from: u32) -> u32
    requires { IsNonDecreasing owners.now }
    ensures { IsFloor owners.now from result }
{
    let bounds = block_bounds(owners, from);
    u32::try_from(bounds.0).unwrap_or(0).saturating_sub(1)
}

/// Whether `z` is a transaction of the block that a clock holds.
fn is_held(owners: &[u32], from: u32, clock: &[u32], z: u32) -> bool
    ensures { result ≡ true → IsHeld owners.now from clock.now z }
{
    let Some(owner) = owners.get(z as usize) else {
        return false;
    };
    if *owner < from {
        return false;
    }
    let column = (*owner - from) as usize;
    column < clock.len() && z <= clock[column]
}

/// Whether `z` is at most the floor, so no transaction of the block, or is `a`, or is held by the clock.
fn is_known(block: &NewsBlock<'_>, clock: &[u32], a: u32, z: u32) -> bool
    ensures { result ≡ true → IsKnown block.now.owners.now block.now.from block.now.floor clock.now a z }
{
    if z <= block.floor || z == a {
        return true;
    }
    is_held(block.owners, block.from, clock, z)
}

/// Whether `c`, as it reads the key at an index from `a`, may tell that more has to be before `a` than its clock holds.
fn may_tell(
    last: &[Clock],
    heads: &[u32],
    block: &NewsBlock<'_>,
    table: &SharedRows,
    c: u32,
    key_index: u32,
    a: u32,
) -> bool
    requires block { IsBlock block.now }
    requires table { length table.now ≡ count block.now.graph.now }
    requires clock { HasClock block.now.graph.now block.now.from table.now c }
    requires source_clock { HasClock block.now.graph.now block.now.from table.now a }
    requires noted { AreNoted block.now.graph.now block.now.from (λ b. IsReached block.now.graph.now b c) last.now }
    requires heads { HaveHeads block.now.graph.now block.now.from block.now.floor (λ b. IsReached block.now.graph.now b c) heads.now }
    requires beside { length heads.now ≡ length last.now }
    requires some { 0 < length last.now }
    requires reader { c < count block.now.graph.now }
    requires source { a < count block.now.graph.now }
    requires key { key_index < length (keys block.now.graph.now) }
    ensures { result ≡ false → TellsNone block.now.graph.now block.now.from table.now a c (key_at block.now.graph.now key_index) }
{
    if table.are_same(c, a) {
        return false;
    }
    let slot = key_index as usize % last.len();
    let clock = table.get(a);
    if is_known(block, clock, a, heads[slot]) {
        return false;
    }
    let known = known_by(block, table, a);
    let reader = table.get(c);
    is_past(&last[slot], reader, &known)
}

/// Whether `c` isn't `init`, and those that it reads from, all but the first of these, are known to have its row.
fn are_sources_same(table: &SharedRows, found: &[u32], c: u32) -> bool
    requires inside { All (λ p. p < length table.now) found.now }
    requires below { c < length table.now }
    ensures some { result ≡ true → 0 < c }
    ensures same { result ≡ true → (k : ℕ) → 0 < k → k < length found.now → row_of table.now (slice_index found.now k) ≡ row_of table.now c }
{
    if c == 0 {
        return false;
    }
    for index in 1..found.len() {
        if !table.are_same(found[index], c) {
            return false;
        }
    }
    true
}

/// Adds the reads of a transaction that may tell more of what it reads from: none if the transactions that it reads from have
/// its row.
fn add_readings(
    rows: &mut Readings,
    last: &[Clock],
    heads: &[u32],
    block: &NewsBlock<'_>,
    table: &SharedRows,
    found: &[u32],
    c: u32,
) -> Result<(), NoMemory>
    requires block { IsBlock block.now }
    requires table { length table.now ≡ count block.now.graph.now }
    requires clock { HasClock block.now.graph.now block.now.from table.now c }
    requires clocks { All (HasClock block.now.graph.now block.now.from table.now) found.now }
    requires noted { AreNoted block.now.graph.now block.now.from (λ b. IsReached block.now.graph.now b c) last.now }
    requires heads { HaveHeads block.now.graph.now block.now.from block.now.floor (λ b. IsReached block.now.graph.now b c) heads.now }
    requires beside { length heads.now ≡ length last.now }
    requires some { 0 < length last.now }
    requires reader { c < count block.now.graph.now }
    requires found { found.now ≡ parents block.now.graph.now c }
    requires inside { All (λ p. p < count block.now.graph.now) found.now }
    requires long { length rows.old ≡ count block.now.graph.now }
    requires sound { (a : ℕ) → AreReadingsOf block.now.graph.now a (row_of rows.old a) }
    ensures same { length rows.new ≡ length rows.old }
    ensures wider { OnOk result (AreWider rows.old rows.new) }
    ensures sound { OnOk result ((a : ℕ) → AreReadingsOf block.now.graph.now a (row_of rows.new a)) }
    ensures told { OnOk result ((a : ℕ) (x : List ℕ) → IsReadsPair block.now.graph.now a c x → IsTold block.now.graph.now block.now.from table.now a (row_of rows.new a) c x) }
{
    if are_sources_same(table, found, c) {
        return Ok(());
    }
    for read in block.graph.reads_at(c) {
        let (key_index, a) = *read;
        if may_tell(last, heads, block, table, c, key_index, a) {
            rows.push(a, (c, key_index))?;
        }
    }
    Ok(())
}

/// The head of a row after a transaction was noted there: this transaction, if all that were noted reach it, or else none.
fn head_after(row: &[u32], head: u32, block: &NewsBlock<'_>, table: &SharedRows, c: u32) -> u32
    requires block { IsBlock block.now }
    requires table { length table.now ≡ count block.now.graph.now }
    requires clock { HasClock block.now.graph.now block.now.from table.now c }
    requires wide { length row.now ≡ WIDE }
    requires below { c < count block.now.graph.now }
    requires above { block.now.floor < c }
    ensures own { IsHead block.now.graph.now block.now.floor c result }
    ensures kept { KeepsHead block.now.graph.now block.now.from block.now.floor row.now head result }
{
    let clock = table.get(c);
    if is_known(block, clock, c, head) {
        return c;
    }
    let none = block.graph.count();
    if head < none {
        return none;
    }
    let known = known_by(block, table, c);
    if is_past(row, row, &known) { none } else { c }
}

/// Notes a transaction as the last writer of these keys in its session.
fn raise_keys(
    last: &mut [Clock],
    heads: &mut [u32],
    key_indices: &[u32],
    session: usize,
    block: &NewsBlock<'_>,
    table: &SharedRows,
    c: u32,
)
    requires block { IsBlock block.now }
    requires table { length table.now ≡ count block.now.graph.now }
    requires clock { HasClock block.now.graph.now block.now.from table.now c }
    requires beside { length heads.old ≡ length last.old }
    requires some { 0 < length last.old }
    requires session { session < WIDE }
    requires below { c < count block.now.graph.now }
    requires above { block.now.floor < c }
    ensures same { length last.new ≡ length last.old }
    ensures heads { length heads.new ≡ length heads.old }
    ensures raised { AreRaised key_indices.now session c last.old last.new }
    ensures kept { KeepHeads block.now.graph.now block.now.from block.now.floor last.old heads.old heads.new }
    ensures own { HasHeads block.now.graph.now block.now.floor c key_indices.now heads.new }
{
    for key_index in key_indices {
        let slot = *key_index as usize % last.len();
        heads[slot] = head_after(&last[slot], heads[slot], block, table, c);
        let row = &mut last[slot];
        row[session] = c.max(row[session]);
    }
}

/// Notes a transaction as the last writer of its keys, if its session is in the block.
fn note_writer(
    last: &mut [Clock],
    heads: &mut [u32],
    block: &NewsBlock<'_>,
    table: &SharedRows,
    c: u32,
)
    requires block { IsBlock block.now }
    requires table { length table.now ≡ count block.now.graph.now }
    requires clock { HasClock block.now.graph.now block.now.from table.now c }
    requires beside { length heads.old ≡ length last.old }
    requires some { 0 < length last.old }
    requires below { c < count block.now.graph.now }
    ensures same { length last.new ≡ length last.old }
    ensures heads { length heads.new ≡ length heads.old }
    ensures rise { HaveRisen last.old last.new }
    ensures noted { AreNoted block.now.graph.now block.now.from (λ b. b ≡ c) last.new }
    ensures kept { KeepHeads block.now.graph.now block.now.from block.now.floor last.old heads.old heads.new }
    ensures own { HaveHeads block.now.graph.now block.now.from block.now.floor (λ b. b ≡ c) heads.new }
{
    let owner = block.owners[c as usize];
    if c > 0 && owner >= block.from {
        let session = (owner - block.from) as usize;
        if session < WIDE {
            let key_indices = block.graph.writes_at(c);
            raise_keys(last, heads, key_indices, session, block, table, c);
        }
    }
}

/// Computes the clocks along an order in which causal pairs lead onward, from the position on at which the block begins. It
/// adds the readings that may tell more of their source than its clock does. What was noted before in other blocks may still
/// be there.
fn add_along(
    rows: &mut Readings,
    last: &mut [Clock],
    heads: &mut [u32],
    block: &NewsBlock<'_>,
    table: &mut SharedRows,
    order: &[u32],
    start: usize,
    steps: &Steps,
) -> Result<(), NoMemory>
    requires block { IsBlock block.now }
    requires numbering { IsNumbering (count block.now.graph.now) order.now }
    requires onward { LeadsOnward block.now.graph.now order.now }
    requires steps { AreSteps block.now.graph.now order.now steps.now.spans.items steps.now.numbers.items (length order.now) }
    requires begun { NoneBefore block.now.owners.now block.now.from order.now start }
    requires within { start ≤ length order.now }
    requires table { length table.old ≡ count block.now.graph.now }
    requires zeros { (j : ℕ) → j < start → row_of table.old (slice_index order.now j) ≡ replicate WIDE 0 }
    requires beside { length heads.old ≡ length last.old }
    requires some { 0 < length last.old }
    requires long { length rows.old ≡ count block.now.graph.now }
    requires none { HasNone rows.old }
    ensures same { length rows.new ≡ length rows.old }
    ensures rows { length last.new ≡ length last.old }
    ensures heads { length heads.new ≡ length heads.old }
    ensures clocks { OnOk result (AreClocks block.now.graph.now block.now.from table.new) }
    ensures news { OnOk result (AreNews block.now.graph.now block.now.from table.new rows.new) }
{
    for position in start..order.len() {
        let c = order[position];
        let found = between(&steps.numbers, steps.spans[position]);
        put_row(
            table,
            Side::Past,
            block.graph,
            block.owners,
            block.from,
            found,
            c,
        )?;
        add_readings(rows, last, heads, block, table, found, c)?;
        note_writer(last, heads, block, table, c);
    }
    Ok(())
}

/// Finds the clocks of a block of sessions, and the readings that may tell more of their source than its clock does, grouped
/// by key. It goes along an order in which causal pairs lead onward.
pub(crate) fn find_news(
    alloc: Global,
    last: &mut [Clock],
    heads: &mut [u32],
    sweep: &Sweep<'_>,
    from: u32,
    table: &mut SharedRows,
) -> Result<FlatRows<(u32, u32)>, NoMemory>
    requires sweep { IsSweep sweep.now }
    requires table { length table.old ≡ count sweep.now.graph.now }
    requires beside { length heads.old ≡ length last.old }
    requires some { 0 < length last.old }
    ensures rows { length last.new ≡ length last.old }
    ensures heads { length heads.new ≡ length heads.old }
    ensures clocks { OnOk result (AreClocks sweep.now.graph.now from table.new) }
    ensures news { IfOk result (AreNews sweep.now.graph.now from table.new) }
{
    let graph = sweep.graph;
    let owners = sweep.owners.as_slice();
    let order = sweep.order;
    let start = block_start(order, owners, from);
    zeros_before(table, order, start)?;
    let mut found = Readings::new(alloc, graph.count())?;
    let block = NewsBlock {
        graph,
        owners,
        from,
        floor: floor_of(owners, from),
    };
    add_along(
        &mut found,
        last,
        heads,
        &block,
        table,
        order,
        start,
        &sweep.steps,
    )?;
    let rows = sorted(alloc, &found, graph.count())?;
    Ok(rows)
}
