//! All walk lengths of a graph, from each transaction. They are found by breadth-first search over rows of marks, 64
//! transactions in a word, or from the lengths of those that pairs lead to (`topological`). A breadth-first search from one
//! transaction takes N / 64 steps a round and one step for each reads-from pair, since it goes only through the suffix of each
//! session that isn't marked yet. It ends once all that can be reached have their lengths.
ghost use Rattle.std.specs.Prelude.{◌≡◌, ◌<◌, ◌≤◌, ◌≢◌, ◌↔◌, ℕ, true, length, All, Contains, IfOk, OnOk, slice_index};
ghost use Rattle.tcc_reads.specs.History.{count};
ghost use Rattle.tcc_graph.specs.Levels.{causally, atomically, judged};
ghost use Rattle.tcc_near.specs.{WalkLengths.IsNearOf, declared.walk_lengths.TheConstants.NONE};
ghost use Rattle.tcc_near.specs.private.Breadth.{AreMarks, IsBoundFrom, ArePairs, HasLengths, HaveLengths, IsLedTo, IsRound, IsSeen, one_step, unnumbered};
ghost use Rattle.tcc_bits.specs.Bits.{is_marked};
ghost use Rattle.tcc_txn.specs.declared.limits.TheConstants.{LARGE_COUNT};

use crate::adjacency::{Pairs, first_marks, take_in};
use crate::topological::rows_backwards;
use crate::{NONE, Near};
use rayon::prelude::*;
use std::alloc::{AllocError, Global};
use std::thread::Threads;
use tcc_bits::{ROWS_A_THREAD, Row, is_marked, take_fresh};
use tcc_graph::{Graph, Level};
use tcc_txn::NoMemory;

/// Gives the length to each of these, which have none.
fn number(steps: &mut [u16], fresh: &[u32], distance: u16)
    requires new { All (λ number. (number < length steps.old) × (slice_index steps.old number ≡ NONE)) fresh.now }
    requires walk { distance < NONE }
    ensures each { (b : ℕ) → Contains fresh.now b → slice_index steps.new b ≡ distance }
    ensures others { (b : ℕ) → (Contains fresh.now b → ⊥) → slice_index steps.new b ≡ slice_index steps.old b }
    ensures fewer { 0 < length fresh.now → unnumbered steps.new < unnumbered steps.old }
{
    for number in fresh {
        steps[*number as usize] = distance;
    }
}

/// Gives the length of this round to what is marked and has none. These are the fresh ones, which count as seen from now on.
fn number_fresh(
    steps: &mut [u16],
    seen: &mut [u64],
    words: &[u64],
    fresh: &mut Vec<u32>,
    distance: u16,
) -> Result<(), AllocError>
    requires walk { distance < NONE }
    requires inside { (b : ℕ) → is_marked words.now b ≡ true → b < length steps.old }
    requires same { length seen.old ≡ length words.now }
    requires few { length words.now ≤ LARGE_COUNT }
    requires seen { IsSeen steps.old seen.old }
    ensures long { length steps.new ≡ length steps.old }
    ensures same { length seen.new ≡ length seen.old }
    ensures round { OnOk result (IsRound words.now steps.old steps.new seen.new fresh.new.items distance) }
{
    take_fresh(fresh, seen, words)?;
    number(steps, fresh, distance);
    Ok(())
}

/// Marks those to which a causal pair leads from one of these.
fn spread(pairs: &Pairs<'_>, words: &mut [u64], suffixes: &mut [u32], fresh: &[u32])
    requires pairs { ArePairs pairs.now }
    requires below { All (λ number. number < count pairs.now.history) fresh.now }
    requires marks { AreMarks (count pairs.now.history) words.old suffixes.old }
    ensures marks { AreMarks (count pairs.now.history) words.new suffixes.new }
    ensures each { (b : ℕ) → (is_marked words.new b ≡ true) ↔ IsLedTo pairs.now.history words.old (Contains fresh.now) b }
{
    for number in fresh {
        take_in(pairs, words, suffixes, *number);
    }
}

/// The first transaction from this index on that has a value in `bound` and no length; the count of all if there is none.
fn next_open(bound: &[u16], steps: &[u16], from: usize) -> usize
    requires same { length bound.now ≡ length steps.now }
    requires within { from ≤ length bound.now }
    ensures within { result ≤ length bound.now }
    ensures closed { (b : ℕ) → from ≤ b → b < result → slice_index bound.now b ≢ NONE → slice_index steps.now b ≢ NONE }
{
    for number in from..bound.len() {
        if bound[number] != NONE && steps[number] == NONE {
            return number;
        }
    }
    bound.len()
}

/// The lengths from one transaction by causal walks, which lead only to transactions that have a value in `bound`. A round
/// numbers what is marked for the first time, and marks what the next step reaches from there. The search ends if there is
/// nothing to number, or nothing left that can be reached.
pub(crate) fn lengths_from(
    alloc: Global,
    pairs: &Pairs<'_>,
    source: u32,
    bound: &[u16],
) -> Result<Row<u16>, AllocError>
    requires pairs { ArePairs pairs.now }
    requires source { source < count pairs.now.history }
    requires bound { IsBoundFrom pairs.now.history source bound.now }
    ensures { IfOk result (HasLengths (causally pairs.now.history) source) }
{
    let (mut words, mut suffixes) = first_marks(alloc, pairs, source)?;
    let mut steps = vec![in alloc; NONE; pairs.count()]?;
    let mut seen = vec![in alloc; 0; words.len()]?;
    let mut fresh = Vec::new(alloc);
    let mut next = 0;
    for before in 0..pairs.count() {
        number_fresh(&mut steps, &mut seen, &words, &mut fresh, before as u16 + 1)?;
        if fresh.is_empty() {
            return Ok(Row::new(steps));
        }
        next = next_open(bound, steps.as_slice(), next);
        if next == bound.len() {
            return Ok(Row::new(steps));
        }
        spread(pairs, &mut words, &mut suffixes, &fresh);
    }
    Ok(Row::new(steps))
}

/// The lengths from one transaction to the first `count` by walks of one step: 1 for what is marked.
fn steps_to(alloc: Global, marks: &[u64], count: usize) -> Result<Row<u16>, AllocError>
    ensures { IfOk result (λ row. (length row ≡ count) × ((b : ℕ) → b < count → slice_index row b ≡ one_step (is_marked marks.now b))) }
{
    let mut steps = Vec::new(alloc);
    steps.reserve(count)?;
    for number in 0..count {
        steps.push(if is_marked(marks, number) { 1 } else { NONE })?;
    }
    Ok(Row::new(steps))
}

/// The lengths from one transaction by walks of one step.
fn row_of_steps(alloc: Global, pairs: &Pairs<'_>, source: u32) -> Result<Row<u16>, AllocError>
    requires pairs { ArePairs pairs.now }
    requires source { source < count pairs.now.history }
    ensures { IfOk result (HasLengths (atomically pairs.now.history) source) }
{
    let (words, _suffixes) = first_marks(alloc, pairs, source)?;
    steps_to(alloc, &words, pairs.count())
}

/// The lengths from each transaction by walks of one step, in several threads.
fn rows_of_steps(
    rt: &(impl Threads + Sync),
    alloc: Global,
    pairs: &Pairs<'_>,
) -> Result<Vec<Row<u16>>, AllocError>
    requires { ArePairs pairs.now }
    ensures { IfOk result (λ rows. HaveLengths (atomically pairs.now.history) rows.items) }
{
    (0..pairs.count())
        .into_par_iter()
        .map(
            |source: usize| -> Result<Row<u16>, AllocError>
                requires pairs { ArePairs pairs.now }
                requires source { source < count pairs.now.history }
                ensures { IfOk result (HasLengths (atomically pairs.entry.now.history) source) }
            { row_of_steps(alloc, pairs, source as u32) },
        )
        .with_min_len(ROWS_A_THREAD)
        .collect::<Result<Vec<Row<u16>>, AllocError>>(rt, alloc)?
}

/// The lengths from each transaction.
fn all_lengths(
    rt: &(impl Threads + Sync),
    alloc: Global,
    pairs: &Pairs<'_>,
    level: Level,
) -> Result<Vec<Row<u16>>, AllocError>
    requires { ArePairs pairs.now }
    ensures { IfOk result (λ rows. IsNearOf (judged pairs.now.history level) (record { level = level; rows = rows.items })) }
{
    match level {
        Level::Causal => rows_backwards(alloc, pairs),
        Level::Atomic => rows_of_steps(rt, alloc, pairs),
    }
}

/// The lengths of a graph at a level. From each transaction to each, itself among them, this is the least number of steps of a
/// walk that the level allows; none if there is no such walk.
pub fn near(
    rt: &(impl Threads + Sync),
    alloc: Global,
    graph: &Graph,
    level: Level,
) -> Result<Near, NoMemory>
    ensures { IfOk result (IsNearOf (judged graph.now level)) }
{
    let pairs = Pairs::of(alloc, graph)?;
    let rows = all_lengths(rt, alloc, &pairs, level)?;
    Ok(Near::new(level, rows))
}
