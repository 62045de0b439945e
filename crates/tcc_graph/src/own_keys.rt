//! The keys of a history, among the names that its resolver knows. One pass marks those that its transactions write or read.
//! Usually all are marked, and then the indices stay as they are. Otherwise the marked ones are kept, and each index becomes a
//! rank: how many before it are marked. With n operations and k names it takes n + k steps.
ghost use Rattle.std.specs.Prelude.{◌≡◌, ◌<◌, ◌≤◌, ◌++◌, ◌∷◌, [], ℕ, Bool, true, length, map, All, IfOk};
ghost use Rattle.std.specs.List.Sorted.{IsStrictlySortedBy};
ghost use Rattle.std.specs.Ordering.{nat_cmp};
ghost use Rattle.std.specs.Cmp.Lexicographic.{slice_cmp};
ghost use Rattle.tcc_reads.specs.Indexed.{IsWithin, entries_of, indexed_of};
ghost use Rattle.tcc_graph.specs.private.Marks.{is_marked, kept_of, moved_by, rank_at, ranks_from};
ghost use Rattle.tcc_graph.specs.{Keys.keys, private.ReadTables.AreIndexed, private.ReadTables.MarksOnly, private.ReadTables.UsesOnly, private.ReadTables.over};

use std::alloc::Global;
use tcc_reads::Transactions;
use tcc_txn::{Name, NoMemory};

/// Marks the keys at these indices.
fn mark_written(marks: &mut [bool], written: &[u32])
    requires { All (λ k. k < length marks.old) written.now }
    ensures long { length marks.new ≡ length marks.old }
    ensures only { (passes : ℕ → Bool) → All (λ k. passes k ≡ true) written.now → MarksOnly passes marks.old → MarksOnly passes marks.new }
    ensures kept { (k : ℕ) → is_marked marks.old k ≡ true → is_marked marks.new k ≡ true }
    ensures all { All (λ k. is_marked marks.new k ≡ true) written.now }
{
    for key in written {
        marks[*key as usize] = true;
    }
}

/// Marks the keys that are read.
fn mark_read(marks: &mut [bool], reads: &[(u32, u32)])
    requires { All (λ read. read.0 < length marks.old) reads.now }
    ensures long { length marks.new ≡ length marks.old }
    ensures only { (passes : ℕ → Bool) → All (λ read. passes read.0 ≡ true) reads.now → MarksOnly passes marks.old → MarksOnly passes marks.new }
    ensures kept { (k : ℕ) → is_marked marks.old k ≡ true → is_marked marks.new k ≡ true }
    ensures all { All (λ read. is_marked marks.new read.0 ≡ true) reads.now }
{
    for (key, _) in reads {
        marks[*key as usize] = true;
    }
}

/// Marks the keys that the transactions write or read.
fn mark_all(marks: &mut [bool], transactions: &Transactions)
    requires { All (IsWithin (length marks.old)) transactions.now }
    ensures long { length marks.new ≡ length marks.old }
    ensures only { (passes : ℕ → Bool) → All (UsesOnly passes) transactions.now → MarksOnly passes marks.old → MarksOnly passes marks.new }
    ensures all { All (UsesOnly (is_marked marks.new)) transactions.now }
{
    for number in 0..transactions.len() {
        mark_written(marks, transactions.writes(number));
        mark_read(marks, transactions.reads(number));
    }
}

/// The marks of this many keys, by what the transactions write or read.
fn marks_of(alloc: Global, count: usize, transactions: &Transactions) -> Result<Vec<bool>, NoMemory>
    requires { All (IsWithin count) transactions.now }
    ensures long { IfOk result (λ marks. length marks.items ≡ count) }
    ensures only { IfOk result (λ marks. (passes : ℕ → Bool) → All (UsesOnly passes) transactions.now → MarksOnly passes marks.items) }
    ensures all { IfOk result (λ marks. All (UsesOnly (is_marked marks.items)) transactions.now) }
{
    let mut marks = vec![in alloc; false; count]?;
    mark_all(&mut marks, transactions);
    Ok(marks)
}

/// Whether all are marked.
fn all_marked(marks: &[bool]) -> bool
    ensures { result ≡ true → All (λ mark. mark ≡ true) marks.now }
{
    for mark in marks {
        if !*mark {
            return false;
        }
    }
    true
}

/// Some names of a list, and for each name of the list how many of them are before it.
#[derive(Drop)]
struct KeptKeys {
    names: Vec<Name>,
    ranks: Vec<u32>,
}

/// The marked names.
fn kept_names(alloc: Global, names: &[Name], marks: &[bool]) -> Result<KeptKeys, NoMemory>
    requires long { length marks.now ≡ length names.now }
    requires few { length names.now ≤ u32.MAX }
    ensures names { IfOk result (λ kept. kept.names.items ≡ kept_of names.now marks.now) }
    ensures ranks { IfOk result (λ kept. kept.ranks.items ≡ ranks_from 0 marks.now) }
{
    let mut kept = Vec::new(alloc);
    let mut ranks = Vec::with_capacity(alloc, names.len())?;
    for (index, name) in names.iter().enumerate() {
        ranks.push(kept.len() as u32)?;
        if marks[index] {
            kept.push(*name)?;
        }
    }
    Ok(KeptKeys { names: kept, ranks })
}

/// The ranks at these indices.
fn ranks_at(alloc: Global, ranks: &[u32], indices: &[u32]) -> Result<Vec<u32>, NoMemory>
    requires { All (λ k. k < length ranks.now) indices.now }
    ensures { IfOk result (λ found. found.items ≡ map (rank_at ranks.now) indices.now) }
{
    let mut found = Vec::with_capacity(alloc, indices.len())?;
    for index in indices {
        found.push(ranks[*index as usize])?;
    }
    Ok(found)
}

/// Reads by the ranks at their indices, each with its source.
fn reads_by_rank(
    alloc: Global,
    ranks: &[u32],
    reads: &[(u32, u32)],
) -> Result<Vec<(u32, u32)>, NoMemory>
    requires { All (λ read. read.0 < length ranks.now) reads.now }
    ensures { IfOk result (λ found. found.items ≡ map (λ read. (rank_at ranks.now read.0, read.1)) reads.now) }
{
    let mut found = Vec::with_capacity(alloc, reads.len())?;
    for (index, source) in reads {
        found.push((ranks[*index as usize], *source))?;
    }
    Ok(found)
}

/// These, and the transaction of a number by the ranks at its indices.
fn with_renumbered(
    alloc: Global,
    moved: Transactions,
    ranks: &[u32],
    transactions: &Transactions,
    number: usize,
) -> Result<Transactions, NoMemory>
    requires below { number < length transactions.now }
    requires within { IsWithin (length ranks.now) (indexed_of transactions.now number) }
    ensures { IfOk result (λ more. more ≡ moved ++ moved_by ranks.now (indexed_of transactions.now number) ∷ []) }
{
    let place = transactions.place(number);
    let writes = ranks_at(alloc, ranks, transactions.writes(number))?;
    let reads = reads_by_rank(alloc, ranks, transactions.reads(number))?;
    let more = moved.with(place, &writes, &reads)?;
    Ok(more)
}

/// The transactions by the ranks at their indices.
fn all_renumbered(
    alloc: Global,
    ranks: &[u32],
    transactions: &Transactions,
) -> Result<Transactions, NoMemory>
    requires { All (IsWithin (length ranks.now)) transactions.now }
    ensures { IfOk result (λ moved. moved ≡ map (moved_by ranks.now) transactions.now) }
{
    let mut moved = Transactions::new(alloc);
    for number in 0..transactions.len() {
        moved = with_renumbered(alloc, moved, ranks, transactions, number)?;
    }
    Ok(moved)
}

/// The keys of a history, in byte order, and its transactions by their indices.
#[derive(Drop)]
pub(crate) struct OwnKeys {
    pub keys: Vec<Name>,
    pub indexed: Transactions,
}

/// The keys that the transactions write and read, in byte order, each once, and the transactions by their indices. The given
/// transactions are by the indices of these names, which may be more.
pub(crate) fn with_own_keys(
    alloc: Global,
    names: Vec<Name>,
    transactions: Transactions,
) -> Result<OwnKeys, NoMemory>
    requires within { All (IsWithin (length names.items)) transactions }
    requires sorted { IsStrictlySortedBy (slice_cmp nat_cmp) names.items }
    requires few { length names.items ≤ u32.MAX }
    ensures value { IfOk result (λ own. own.keys.items ≡ keys (over (entries_of names.items transactions))) }
    ensures sorted { IfOk result (λ own. IsStrictlySortedBy (slice_cmp nat_cmp) own.keys.items) }
    ensures indexed { IfOk result (λ own. AreIndexed own.keys.items (entries_of names.items transactions) own.indexed) }
{
    let marks = marks_of(alloc, names.len(), &transactions)?;
    if all_marked(&marks) {
        return Ok(OwnKeys {
            keys: names,
            indexed: transactions,
        });
    }
    let kept = kept_names(alloc, &names, &marks)?;
    let indexed = all_renumbered(alloc, &kept.ranks, &transactions)?;
    Ok(OwnKeys {
        keys: kept.names,
        indexed,
    })
}
