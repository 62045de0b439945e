//! Bit matrices of keys: the sources from which each transaction reads a key, as rows of marks. They are kept for keys of
//! which transactions read many values: for a key with more reads than half the words of its matrix. Making one takes N + R
//! steps for N transactions and R reads.
ghost use Rattle.std.specs.Prelude.{◌≡◌, ◌<◌, ◌≤◌, ◌⊎◌, ◌↔◌, ℕ, true, length, All, Contains, IfOk};
ghost use Rattle.tcc_bits.specs.Bits.{is_marked, words_for};
ghost use Rattle.tcc_derive.specs.private.Sources.{AreByReader, AreSources, HaveSources};

use crate::bucket::empty_buckets;
use crate::read::Read;
use std::alloc::Global;
use tcc_bits::{Row, mark_each, words_for};
use tcc_txn::{ListOf, NoMemory};

/// A key's rows of marks, one for each transaction, with the sources from which it reads the key; or no rows.
pub(crate) type Sources = ListOf<Row<u64>>;

/// The sources of a key's reads, a bucket for each transaction that may read it.
fn by_reader(alloc: Global, reads: &[Read], count: usize) -> Result<Vec<Row<u32>>, NoMemory>
    requires { All (λ r. r.reader < count) reads.now }
    ensures { IfOk result (λ rows. AreByReader count reads.now rows.items) }
{
    let mut rows = empty_buckets(alloc, count)?;
    for read in reads {
        rows[read.reader as usize].push(u32::from(read.source))?;
    }
    Ok(rows)
}

/// A row in which these are marked.
fn marks_of(alloc: Global, numbers: &[u32], count: usize) -> Result<Row<u64>, NoMemory>
    requires { All (λ number. number < count) numbers.now }
    ensures wide { IfOk result (λ row. length row ≡ words_for count) }
    ensures each { IfOk result (λ row. (a : ℕ) → (is_marked row a ≡ true) ↔ Contains numbers.now a) }
{
    let mut marks = vec![in alloc; 0; words_for(count)]?;
    mark_each(&mut marks, numbers);
    Ok(Row::new(marks))
}

/// The rows of marks of a key with these reads.
fn sources_of(alloc: Global, reads: &[Read], count: usize) -> Result<Sources, NoMemory>
    requires sources { All (λ r. r.source < count) reads.now }
    requires readers { All (λ r. r.reader < count) reads.now }
    ensures { IfOk result (AreSources count reads.now) }
{
    let buckets = by_reader(alloc, reads, count)?;
    let mut rows = Vec::new(alloc);
    for bucket in &buckets {
        rows.push(marks_of(alloc, bucket.as_slice(), count)?)?;
    }
    Ok(Sources::new(rows))
}

/// The rows of marks of a key with these reads, if it has more reads than half the words of all these rows; else none.
fn sources_at(alloc: Global, reads: &[Read], count: usize) -> Result<Sources, NoMemory>
    requires sources { All (λ r. r.source < count) reads.now }
    requires readers { All (λ r. r.reader < count) reads.now }
    ensures { IfOk result (λ rows. (length rows ≡ 0) ⊎ AreSources count reads.now rows) }
{
    if reads.len() / words_for(count) > count / 2 {
        sources_of(alloc, reads, count)
    } else {
        Ok(Sources::new(Vec::new(alloc)))
    }
}

/// The rows of marks of each key, or none for a key with few reads.
pub(crate) fn source_table(
    alloc: Global,
    reads: &[Row<Read>],
    count: usize,
) -> Result<Vec<Sources>, NoMemory>
    requires sources { All (λ bucket. All (λ r. r.source < count) bucket) reads.now }
    requires readers { All (λ bucket. All (λ r. r.reader < count) bucket) reads.now }
    ensures { IfOk result (λ table. HaveSources count reads.now table.items) }
{
    let mut table = Vec::new(alloc);
    for bucket in reads {
        table.push(sources_at(alloc, bucket.as_slice(), count)?)?;
    }
    Ok(table)
}
