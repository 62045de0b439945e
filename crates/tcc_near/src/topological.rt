//! All walk lengths along a topological order of the pairs, backwards. The row of a transaction is the least, by column, of
//! the rows of those that its pairs lead to, plus one. It has N rows of N lengths, and makes one pass over a row for each pair
//! that is needed. So it takes N (N + R) steps for N transactions and R reads. If pairs have a cycle, breadth-first search
//! from one head breaks it.
//!
//! It goes backwards from the ends of sessions. Each session has a transaction as its head, after which all have their
//! lengths. A head whose readers have theirs too is next. If there is none, since pairs have a cycle, the lengths from one
//! head are searched.
ghost use Rattle.std.specs.Prelude.{◌≡◌, ◌<◌, ◌≤◌, ◌+◌, ℕ, true, min, length, slice_index, replicate, All, IfOk, IfSome, IsTrue, OnOk};
ghost use Rattle.tcc_reads.specs.History.{History, count};
ghost use Rattle.tcc_graph.specs.{Relations.IsSessionPair, Levels.causally, Tables.row_of};
ghost use Rattle.tcc_near.specs.private.Breadth.{ArePairs, HasLengths, HaveLengths, IsBoundFrom};
ghost use Rattle.tcc_near.specs.private.Backwards.{IsLeastFrom, IsLowered, IsNextOrOne, IsFromOn, AreOthers, AreKnown, IsThere, AreHeads};
ghost use Rattle.tcc_near.specs.declared.walk_lengths.TheConstants.{NONE};
ghost use Rattle.tcc_txn.specs.declared.limits.TheConstants.{MAX_COUNT};

use crate::NONE;
use crate::adjacency::Pairs;
use crate::breadth_first::lengths_from;
use std::alloc::{AllocError, Global};
use tcc_bits::Row;

/// The lesser value of the two rows at each index.
fn lower(row: &mut [u16], other: &[u16])
    requires { length row.old ≡ length other.now }
    ensures long { length row.new ≡ length row.old }
    ensures each { (c : ℕ) → c < length row.old → slice_index row.new c ≡ min (slice_index other.now c) (slice_index row.old c) }
{
    for (c, least) in row.iter_mut().enumerate() {
        *least = other[c].min(*least);
    }
}

/// Adds the steps from one more transaction, which has these lengths.
fn take_in_one(row: &mut [u16], lengths: &[u16], from: u32)
    requires same { length row.old ≡ length lengths.now }
    requires inside { from < length row.old }
    ensures { IsLowered row.old lengths.now from row.new }
{
    lower(row, lengths);
    row[from as usize] = 0;
}

/// Adds the steps from each of these, which have their lengths, to those from what session pairs lead to.
fn take_in_each(row: &mut [u16], rows: &[Row<u16>], numbers: &[u32])
    requires same { length rows.now ≡ length row.old }
    requires there { All (IsThere rows.now (length row.old)) numbers.now }
    ensures { (h : History) (a : ℕ) → count h ≤ MAX_COUNT → AreKnown h rows.now → IsLeastFrom h (IsSessionPair h a) row.old
        → IsLeastFrom h (IsNextOrOne h a numbers.now) row.new }
{
    for number in numbers {
        take_in_one(row, rows[*number as usize].as_slice(), *number);
    }
}

/// One more step to each transaction to which steps lead.
fn lengthen(row: &mut [u16])
    ensures long { length row.new ≡ length row.old }
    ensures each { (c : ℕ) → c < length row.old → slice_index row.new c ≡ min (slice_index row.old c + 1) NONE }
{
    for least in row.iter_mut() {
        *least = least.saturating_add(1);
    }
}

/// The lengths from a transaction whose readers have theirs, by the least numbers of steps from those after it in its session.
fn row_over(
    alloc: Global,
    run: &[u16],
    rows: &[Row<u16>],
    readers: &[u32],
) -> Result<Row<u16>, AllocError>
    requires same { length rows.now ≡ length run.now }
    requires there { All (IsThere rows.now (length run.now)) readers.now }
    ensures { (h : History) (a : ℕ) → count h ≤ MAX_COUNT → AreKnown h rows.now → IsLeastFrom h (IsSessionPair h a) run.now → AreOthers h a readers.now
        → IfOk result (HasLengths (causally h) a) }
{
    let mut row = run.to_vec(alloc)?;
    take_in_each(&mut row, rows, readers);
    lengthen(&mut row);
    Ok(Row::new(row))
}

/// The least numbers of steps from a transaction, which has these lengths, and from those after it in its session.
fn next_run(alloc: Global, run: &[u16], lengths: &[u16], from: u32) -> Result<Row<u16>, AllocError>
    requires same { length run.now ≡ length lengths.now }
    requires inside { from < length run.now }
    ensures { (h : History) → count h ≤ MAX_COUNT → IsLeastFrom h (IsSessionPair h from) run.now → HasLengths (causally h) from lengths.now
        → IfOk result (IsLeastFrom h (IsFromOn h from)) }
{
    let mut row = run.to_vec(alloc)?;
    take_in_one(&mut row, lengths, from);
    Ok(Row::new(row))
}

/// Whether each of these numbers has a row of this length.
fn are_there(rows: &[Row<u16>], numbers: &[u32], count: usize) -> bool
    ensures { IsTrue result → All (IsThere rows.now count) numbers.now }
{
    for number in numbers {
        match rows.get(*number as usize) {
            Some(row) if row.as_slice().len() == count => {}
            _ => return false,
        }
    }
    true
}

/// A row that has a value for each transaction to which walks lead from the head of a session. If a later transaction of the
/// session reaches the head, walks from the head lead only to what walks from later ones lead to. Otherwise all have a value.
fn bound_from(alloc: Global, run: &[u16], head: u32) -> Result<Row<u16>, AllocError>
    requires { head < length run.now }
    ensures { (h : History) → IsLeastFrom h (IsSessionPair h head) run.now → IfOk result (IsBoundFrom h head) }
{
    if run[head as usize] == NONE {
        let all = vec![in alloc; 0; run.len()]?;
        return Ok(Row::new(all));
    }
    let row = run.to_vec(alloc)?;
    Ok(Row::new(row))
}

/// The lengths from the head of a session: by those of its readers if they have theirs, else by a search.
fn row_of_head(
    alloc: Global,
    pairs: &Pairs<'_>,
    rows: &[Row<u16>],
    run: &[u16],
    head: u32,
) -> Result<Row<u16>, AllocError>
    requires pairs { ArePairs pairs.now }
    requires below { head < count pairs.now.history }
    requires known { AreKnown pairs.now.history rows.now }
    requires run { IsLeastFrom pairs.now.history (IsSessionPair pairs.now.history head) run.now }
    ensures { IfOk result (HasLengths (causally pairs.now.history) head) }
{
    let readers = pairs.readers(head);
    if are_there(rows, readers, pairs.count()) {
        row_over(alloc, run, rows, readers)
    } else {
        let bound = bound_from(alloc, run, head)?;
        lengths_from(alloc, pairs, head, bound.as_slice())
    }
}

/// The next session: one whose head's readers have their lengths, or else any that has a head.
fn next_session(pairs: &Pairs<'_>, heads: &[u32], rows: &[Row<u16>]) -> Option<usize>
    requires pairs { ArePairs pairs.now }
    requires heads { (s : ℕ) → s < length heads.now → slice_index heads.now s < count pairs.now.history }
    ensures { IfSome result (λ s. (s < length heads.now) × (0 < slice_index heads.now s)) }
{
    let mut open = None;
    for (session, head) in heads.iter().enumerate() {
        if *head == 0 {
            continue;
        }
        if are_there(rows, pairs.readers(*head), pairs.count()) {
            return Some(session);
        }
        open = Some(session);
    }
    open
}

/// The transaction right before this one in its session, 0 if there is none.
fn previous(ends: &[u32], number: u32) -> u32
    requires some { 0 < number }
    requires below { number < length ends.now }
    ensures below { result < number }
    ensures next { 0 < result → (number ≡ result + 1) × (slice_index ends.now result ≡ slice_index ends.now number) }
{
    let before = number - 1;
    if ends[before as usize] == ends[number as usize] {
        before
    } else {
        0
    }
}

/// The transactions that no session pair leads from.
fn last_of_each(alloc: Global, ends: &[u32]) -> Result<Vec<u32>, AllocError>
    requires { length ends.now ≤ MAX_COUNT }
    ensures { IfOk result (λ heads. All (λ b. (b < length ends.now) × (slice_index ends.now b ≡ b + 1)) heads.items) }
{
    let mut heads = Vec::new(alloc);
    for (number, end) in ends.iter().enumerate() {
        if *end as usize == number + 1 {
            heads.push(number as u32)?;
        }
    }
    Ok(heads)
}

/// This many rows of a width, with `NONE` throughout.
fn blank_rows(alloc: Global, count: usize, width: usize) -> Result<Vec<Row<u16>>, AllocError>
    ensures long { IfOk result (λ rows. length rows.items ≡ count) }
    ensures each { IfOk result (λ rows. All (λ row. row ≡ replicate width NONE) rows.items) }
{
    let mut rows = Vec::new(alloc);
    for _row in 0..count {
        rows.push(Row::new(vec![in alloc; NONE; width]?))?;
    }
    Ok(rows)
}

/// Puts the lengths from the head of a session into the rows. The transaction before it is the head from now on.
fn take_in_head(
    alloc: Global,
    pairs: &Pairs<'_>,
    rows: &mut [Row<u16>],
    heads: &mut [u32],
    runs: &mut [Row<u16>],
    session: usize,
) -> Result<(), AllocError>
    requires pairs { ArePairs pairs.now }
    requires known { AreKnown pairs.now.history rows.old }
    requires heads { AreHeads pairs.now.history heads.old runs.old }
    requires session { session < length heads.old }
    requires some { 0 < slice_index heads.old session }
    ensures known { OnOk result (AreKnown pairs.now.history rows.new) }
    ensures heads { OnOk result (AreHeads pairs.now.history heads.new runs.new) }
{
    let head = heads[session];
    let run = runs[session].as_slice();
    let row = row_of_head(alloc, pairs, rows, run, head)?;
    runs[session] = next_run(alloc, run, row.as_slice(), head)?;
    heads[session] = previous(pairs.ends(), head);
    rows[head as usize] = row;
    Ok(())
}

/// The lengths from transactions other than `init`.
fn rows_of_sessions(alloc: Global, pairs: &Pairs<'_>) -> Result<Vec<Row<u16>>, AllocError>
    requires { ArePairs pairs.now }
    ensures { IfOk result (λ rows. AreKnown pairs.now.history rows.items) }
{
    let mut heads = last_of_each(alloc, pairs.ends())?;
    let mut runs = blank_rows(alloc, heads.len(), pairs.count())?;
    let mut rows = blank_rows(alloc, pairs.count(), 0)?;
    for _ in 0..pairs.count() {
        let Some(session) = next_session(pairs, &heads, &rows) else {
            return Ok(rows);
        };
        take_in_head(alloc, pairs, &mut rows, &mut heads, &mut runs, session)?;
    }
    Ok(rows)
}

/// The lengths from each transaction: these, and the others by a search.
pub(crate) fn rows_backwards(alloc: Global, pairs: &Pairs<'_>) -> Result<Vec<Row<u16>>, AllocError>
    requires { ArePairs pairs.now }
    ensures { IfOk result (λ rows. HaveLengths (causally pairs.now.history) rows.items) }
{
    let mut rows = rows_of_sessions(alloc, pairs)?;
    let all = vec![in alloc; 0; pairs.count()]?;
    for source in 0..pairs.count() {
        if rows[source].as_slice().len() == pairs.count() {
            continue;
        }
        rows[source] = lengths_from(alloc, pairs, source as u32, all.as_slice())?;
    }
    Ok(rows)
}
