//! The adjacency of a history's causal pairs, and a row of marks (a bit set) to which they are added. Session pairs lead to
//! whole suffixes of sessions. So for each session the number is kept from which on all are marked: what a session pair leads
//! to is marked once.
ghost use Rattle.std.specs.Prelude.{◌≡◌, ◌<◌, ◌≤◌, ◌+◌, ◌*◌, ◌/◌, ◌↔◌, ◌⊎◌, ℕ, true, length, IfOk, slice_index};
ghost use Rattle.tcc_reads.specs.History.{count};
ghost use Rattle.tcc_graph.specs.Relations.{causal_pair};
ghost use Rattle.tcc_bits.specs.Bits.{is_marked};
ghost use Rattle.tcc_near.specs.private.Breadth.{AreMarks, IsSessionEnd, AreEnds, IsPairsFrom, AreReaders, ArePairs, AreSuffixes, IsMarked};
ghost use Rattle.tcc_txn.specs.declared.limits.TheConstants.{MAX_COUNT};

use std::alloc::{AllocError, Global};
use std::marker::Model;
use tcc_bits::{Row, mark, mark_each, take_fresh, words_for};
use tcc_graph::Graph;

/// The causal pairs from each transaction of a graph: the end of the numbers that session pairs lead to, and the readers among
/// the others.
#[derive(Drop)]
pub(crate) struct Pairs<'a> {
    graph: &'a Graph,
    ends: Vec<u32>,
    readers: Vec<Row<u32>>,
}

impl<'a> Model for Pairs<'a> {
    ghost use Rattle.tcc_near.specs.private.Breadth.{PairTables};

    ghost Value = { PairTables };

    ghost view = { λ p. record { history = p.graph.now; ends = p.ends.items; readers = p.readers.items } };
}

impl<'a> Pairs<'a> {
    /// The pairs of a graph.
    pub(crate) fn of(alloc: Global, graph: &'a Graph) -> Result<Pairs<'a>, AllocError>
        ensures pairs { IfOk result ArePairs }
        ensures graph { IfOk result (λ pairs. pairs.history ≡ graph.now) }
    {
        let ends = session_ends(alloc, graph)?;
        let readers = readers_apart(alloc, graph, &ends)?;
        Ok(Pairs {
            graph,
            ends,
            readers,
        })
    }

    /// How many transactions there are.
    pub(crate) fn count(&self) -> usize
        requires { ArePairs self.now }
        ensures { result ≡ count self.now.history }
    {
        self.ends.len()
    }

    /// The end of the numbers that session pairs lead to, for each transaction.
    pub(crate) fn ends(&self) -> &[u32]
        ensures { result.now ≡ self.now.ends }
    {
        &self.ends
    }

    /// The readers of a transaction that no session pair leads to.
    pub(crate) fn readers(&self, from: u32) -> &[u32]
        requires pairs { ArePairs self.now }
        requires below { from < count self.now.history }
        ensures { IsPairsFrom self.now.history from (slice_index self.now.ends from) result.now }
    {
        self.readers[from as usize].as_slice()
    }
}

/// The end of the numbers that session pairs lead to, for each transaction.
fn session_ends(alloc: Global, graph: &Graph) -> Result<Vec<u32>, AllocError>
    ensures ends { IfOk result (λ ends. AreEnds graph.now ends.items) }
    ensures few { count graph.now ≤ MAX_COUNT }
{
    let mut ends = Vec::new(alloc);
    for from in 0..graph.count() {
        let (_first, end) = graph.later(from);
        ends.push(end)?;
    }
    Ok(ends)
}

/// Marks the numbers from `first` to before `end`.
fn mark_between(words: &mut [u64], first: u32, end: u32)
    requires order { first ≤ end }
    requires wide { end ≤ 64 * length words.old }
    ensures same { length words.new ≡ length words.old }
    ensures each { (b : ℕ) → (is_marked words.new b ≡ true) ↔ ((is_marked words.old b ≡ true) ⊎ ((first ≤ b) × (b < end))) }
{
    for number in first..end {
        mark(words, number as usize);
    }
}

/// The readers of this transaction that no session pair leads to, each once. Session pairs lead to those before `end`.
fn other_readers(alloc: Global, graph: &Graph, from: u32, end: u32) -> Result<Row<u32>, AllocError>
    requires below { from < count graph.now }
    requires end { IsSessionEnd graph.now from end }
    requires few { count graph.now ≤ MAX_COUNT }
    ensures { IfOk result (IsPairsFrom graph.now from end) }
{
    let words = words_for(graph.count() as usize);
    let mut later = vec![in alloc; 0; words]?;
    mark_between(&mut later, from + 1, end);
    let mut readers = vec![in alloc; 0; words]?;
    mark_each(&mut readers, graph.readings(from).0);
    let mut others = Vec::new(alloc);
    take_fresh(&mut others, &mut later, &readers)?;
    Ok(Row::new(others))
}

/// The readers of each transaction that no session pair leads to, each once.
fn readers_apart(alloc: Global, graph: &Graph, ends: &[u32]) -> Result<Vec<Row<u32>>, AllocError>
    requires ends { AreEnds graph.now ends.now }
    requires few { count graph.now ≤ MAX_COUNT }
    ensures { IfOk result (λ readers. AreReaders graph.now ends.now readers.items) }
{
    let mut readers = Vec::new(alloc);
    for (from, end) in ends.iter().enumerate() {
        readers.push(other_readers(alloc, graph, from as u32, *end)?)?;
    }
    Ok(readers)
}

/// Marks the transactions of a session from `first` to before `end`, where the session ends. It marks those before the suffix,
/// since the suffix is marked.
fn mark_later(words: &mut [u64], suffixes: &mut [u32], first: u32, end: u32)
    requires order { first ≤ end }
    requires some { 0 < end }
    requires within { end ≤ length suffixes.old }
    requires wide { end ≤ 64 * length words.old }
    requires suffixes { AreSuffixes suffixes.old words.old }
    ensures same { length words.new ≡ length words.old }
    ensures long { length suffixes.new ≡ length suffixes.old }
    ensures suffixes { AreSuffixes suffixes.new words.new }
    ensures each { (b : ℕ) → (is_marked words.new b ≡ true) ↔ ((is_marked words.old b ≡ true) ⊎ ((first ≤ b) × (b < end))) }
{
    let last = end as usize - 1;
    let known = suffixes[last].min(end);
    if first < known {
        mark_between(words, first, known);
        suffixes[last] = first;
    }
}

/// Marks the transactions to which a causal pair leads from this one: those of the session pairs, and its readers.
pub(crate) fn take_in(pairs: &Pairs<'_>, words: &mut [u64], suffixes: &mut [u32], from: u32)
    requires pairs { ArePairs pairs.now }
    requires below { from < count pairs.now.history }
    requires marks { AreMarks (count pairs.now.history) words.old suffixes.old }
    ensures marks { AreMarks (count pairs.now.history) words.new suffixes.new }
    ensures each { (b : ℕ) → (is_marked words.new b ≡ true) ↔ ((is_marked words.old b ≡ true) ⊎ (causal_pair pairs.now.history from b ≡ true)) }
{
    mark_later(words, suffixes, from + 1, pairs.ends()[from as usize]);
    mark_each(words, pairs.readers(from));
}

/// The marks of the transactions to which a causal pair leads from this one, with the suffixes of sessions that they have.
pub(crate) fn first_marks(
    alloc: Global,
    pairs: &Pairs<'_>,
    from: u32,
) -> Result<(Vec<u64>, Vec<u32>), AllocError>
    requires pairs { ArePairs pairs.now }
    requires below { from < count pairs.now.history }
    ensures marks { IfOk result (λ made. AreMarks (count pairs.now.history) made.0.items made.1.items) }
    ensures inside { IfOk result (λ made. (b : ℕ) → is_marked made.0.items b ≡ true → b < count pairs.now.history) }
    ensures marked { IfOk result (λ made. IsMarked pairs.now.history from 1 made.0.items) }
{
    let count = pairs.count();
    let mut words = vec![in alloc; 0; words_for(count)]?;
    let mut suffixes = vec![in alloc; u32::MAX; count]?;
    take_in(pairs, &mut words, &mut suffixes, from);
    Ok((words, suffixes))
}
