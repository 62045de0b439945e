//! The links at `Atomic` that are kept: for each read the last earlier writer of its key in the reader's session, and the
//! writers that the reader reads from. A number is kept once by a sparse set (Briggs and Torczon): the index at which it was
//! added last shows at once whether it is there. So each source of a reader is visited once, however many keys are read from
//! it. For R reads, each by a transaction with S sources, among W writers of a key that takes O(R S log W).
ghost use Rattle.std.specs.Prelude.{◌≡◌, ◌<◌, ◌-◌, ◌⊎◌, ◌↔◌, ◌∷◌, [], ℕ, true, length, slice_index, All, Contains, IfOk, OnOk, IsTrue};
ghost use Rattle.std.specs.List.Sorted.{IsNonDecreasing};
ghost use Rattle.tcc_reads.specs.History.{IsBySession, count};
ghost use Rattle.tcc_graph.specs.Keys.{keys, key_at, writers};
ghost use Rattle.tcc_graph.specs.Levels.{atomically};
ghost use Rattle.tcc_clocks.specs.{Parents.ArePrevious, Clocks.AreOwners};
ghost use Rattle.tcc_order.specs.private.CausalLinks.{IsLifted, AreLinks, AreOrdered};
ghost use Rattle.tcc_order.specs.private.AtomicLinks.{IsOther, IsReader, HaveParents, KeepsRead, KeepsInto};

use crate::causal_links::{before_in_session, last_up_to, lift_session};
use std::alloc::Global;
use tcc_bits::Row;
use tcc_clocks::{find_parents, owners};
use tcc_graph::LargeGraph;
use tcc_reads::FlatRows;
use tcc_txn::NoMemory;

/// The last writer other than `a` before `c` in its session, or 0 if there is none.
fn last_writer(owners: &[u32], writers: &[u32], c: u32, a: u32) -> u32
    requires ordered { AreOrdered owners.now }
    requires rising { IsNonDecreasing writers.now }
    requires writers { All (λ b. b < length owners.now) writers.now }
    requires reader { c < length owners.now }
    ensures { IsLifted owners.now (slice_index owners.now c) ((c - 1) ∷ []) writers.now a 0 0 result }
{
    let top = before_in_session(owners, c);
    lift_session(owners, owners[c as usize] as usize, top, writers, a, 0)
}

/// Whether a number is in a row, at the index where it was added last.
fn is_held(kept: &Row<u32>, places: &[usize], b: u32) -> bool
    requires { b < length places.now }
    ensures { result ≡ true → Contains kept.now b }
{
    let row = kept.as_slice();
    match row.get(places[b as usize]) {
        Some(number) => *number == b,
        None => false,
    }
}

/// Keeps a number, once.
fn keep_one(kept: &mut Row<u32>, places: &mut [usize], b: u32) -> Result<(), NoMemory>
    requires { b < length places.old }
    ensures same { length places.new ≡ length places.old }
    ensures kept { OnOk result ((d : ℕ) → Contains kept.new d ↔ (Contains kept.old d ⊎ (d ≡ b))) }
{
    if is_held(kept, places, b) {
        return Ok(());
    }
    places[b as usize] = kept.as_slice().len();
    kept.push(b)?;
    Ok(())
}

/// Whether a committed transaction other than `a` is one of these writers, which ascend.
fn is_other(writers: &[u32], b: u32, a: u32) -> bool
    requires { IsNonDecreasing writers.now }
    ensures { IsTrue result ↔ IsOther writers.now a b }
{
    b > 0 && b != a && last_up_to(writers, b) == b
}

/// Keeps a transaction that is one of these writers, other than `a`.
fn keep_other(
    kept: &mut Row<u32>,
    places: &mut [usize],
    writers: &[u32],
    b: u32,
    a: u32,
) -> Result<(), NoMemory>
    requires rising { IsNonDecreasing writers.now }
    requires inside { b < length places.old }
    ensures same { length places.new ≡ length places.old }
    ensures kept { OnOk result ((d : ℕ) → Contains kept.new d ↔ (Contains kept.old d ⊎ ((d ≡ b) × IsOther writers.now a b))) }
{
    if !is_held(kept, places, b) && is_other(writers, b, a) {
        keep_one(kept, places, b)?;
    }
    Ok(())
}

/// Keeps those of these transactions that are writers, other than `a`.
fn keep_others(
    kept: &mut Row<u32>,
    places: &mut [usize],
    writers: &[u32],
    numbers: &[u32],
    a: u32,
) -> Result<(), NoMemory>
    requires rising { IsNonDecreasing writers.now }
    requires inside { All (λ b. b < length places.old) numbers.now }
    ensures same { length places.new ≡ length places.old }
    ensures kept { OnOk result ((b : ℕ) → Contains kept.new b
        ↔ (Contains kept.old b ⊎ (Contains numbers.now b × IsOther writers.now a b))) }
{
    for number in numbers {
        keep_other(kept, places, writers, *number, a)?;
    }
    Ok(())
}

/// Keeps the last writer, if there is one.
fn keep_last(kept: &mut Row<u32>, places: &mut [usize], last: u32) -> Result<(), NoMemory>
    requires { last < length places.old }
    ensures same { length places.new ≡ length places.old }
    ensures kept { OnOk result ((b : ℕ) → Contains kept.new b ↔ (Contains kept.old b ⊎ ((0 < last) × (b ≡ last)))) }
{
    if last > 0 {
        keep_one(kept, places, last)?;
    }
    Ok(())
}

/// Keeps the links into what a read reads from.
fn keep_read(
    kept: &mut Row<u32>,
    places: &mut [usize],
    graph: &LargeGraph,
    owners: &[u32],
    numbers: &[u32],
    c: u32,
    key: u32,
    a: u32,
) -> Result<(), NoMemory>
    requires reader { IsReader graph.now owners.now numbers.now c }
    requires key { key < length (keys graph.now) }
    requires long { length places.old ≡ count graph.now }
    ensures same { length places.new ≡ length places.old }
    ensures kept { OnOk result (KeepsRead graph.now c (key_at graph.now key) a kept.old kept.new) }
{
    let writers = graph.writers_at(key);
    let last = last_writer(owners, writers, c, a);
    keep_last(kept, places, last)?;
    keep_others(kept, places, writers, numbers, a)
}

/// These numbers, each once.
fn once(alloc: Global, places: &mut [usize], numbers: &[u32]) -> Result<Row<u32>, NoMemory>
    requires inside { All (λ b. b < length places.old) numbers.now }
    ensures same { length places.new ≡ length places.old }
    ensures listed { IfOk result (λ row. (b : ℕ) → Contains row b ↔ Contains numbers.now b) }
{
    let mut row = Row::new(Vec::new(alloc));
    for number in numbers {
        keep_one(&mut row, places, *number)?;
    }
    Ok(row)
}

/// The transactions right before each one, each once.
fn parents_of_each(
    alloc: Global,
    graph: &LargeGraph,
    parents: &[u32],
) -> Result<FlatRows<u32>, NoMemory>
    requires numbered { IsBySession graph.now.entries }
    requires parents { ArePrevious graph.now parents.now }
    ensures { IfOk result (HaveParents graph.now (count graph.now)) }
{
    let mut places = vec![in alloc; 0usize; graph.count() as usize]?;
    let mut found = Vec::new(alloc);
    let mut rows = FlatRows::with_room(alloc, graph.count())?;
    for c in 0..graph.count() {
        find_parents(&mut found, graph, parents, c)?;
        let row = once(alloc, &mut places, &found)?;
        rows.push(row.as_slice())?;
    }
    Ok(rows)
}

/// The links into a transaction that are kept.
fn links_into(
    alloc: Global,
    places: &mut [usize],
    graph: &LargeGraph,
    owners: &[u32],
    rows: &FlatRows<u32>,
    a: u32,
) -> Result<Row<u32>, NoMemory>
    requires numbered { IsBySession graph.now.entries }
    requires owners { AreOwners graph.now owners.now }
    requires rows { HaveParents graph.now (count graph.now) rows.now }
    requires long { length places.old ≡ count graph.now }
    requires below { a < count graph.now }
    ensures same { length places.new ≡ length places.old }
    ensures kept { IfOk result (KeepsInto graph.now a) }
{
    let mut kept = Row::new(Vec::new(alloc));
    let (readers, key_indices) = graph.readings_at(a);
    for (index, reader) in readers.iter().enumerate() {
        let before = rows.row(*reader as usize);
        keep_read(
            &mut kept,
            places,
            graph,
            owners,
            before,
            *reader,
            key_indices[index],
            a,
        )?;
    }
    Ok(kept)
}

/// The links at `Atomic` that are kept.
pub(crate) fn atomic_links(
    alloc: Global,
    graph: &LargeGraph,
    parents: &[u32],
) -> Result<FlatRows<u32>, NoMemory>
    requires numbered { IsBySession graph.now.entries }
    requires parents { ArePrevious graph.now parents.now }
    ensures { IfOk result (AreLinks (atomically graph.now)) }
{
    let owners = owners(alloc, graph)?;
    let rows = parents_of_each(alloc, graph, parents)?;
    let mut places = vec![in alloc; 0usize; graph.count() as usize]?;
    let mut kept = FlatRows::with_room(alloc, graph.count())?;
    for a in 0..graph.count() {
        let into = links_into(alloc, &mut places, graph, &owners, &rows, a)?;
        kept.push(into.as_slice())?;
    }
    Ok(kept)
}
