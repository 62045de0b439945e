//! Which blocks of 64 sessions have a writer that some read may set against another transaction: a writer of a key that is
//! read from another one. The other blocks are passed over: none of their transactions has to be before another by a read, and
//! none contradicts one. For W writes and R reads that takes O(W + R) steps.
ghost use Rattle.std.specs.Prelude.{◌≡◌, ◌≢◌, ◌<◌, ◌≤◌, ◌*◌, ℕ, true, length, slice_index, All, Contains, IfOk, OnOk};
ghost use Rattle.tcc_reads.specs.History.{count};
ghost use Rattle.tcc_graph.specs.{Keys.keys};
ghost use Rattle.tcc_clocks.specs.declared.latest.TheConstants.{WIDE};
ghost use Rattle.tcc_clocks.specs.Clocks.{AreOwners};
ghost use Rattle.tcc_clocks.specs.Needed.{AreMarked, AreNeeded, AreSourcesRead, HaveGrown, HasSourcesRead, IsMarked, IsSourceOf};

use crate::latest::WIDE;
use std::alloc::{AllocError, Global};
use tcc_graph::LargeGraph;
use tcc_txn::NoMemory;

/// The transactions from which a key is read.
#[derive(Clone, Copy)]
pub enum KeySources {
    /// No transaction.
    Nobody,
    /// This transaction alone.
    One(u32),
    /// Several transactions.
    Several,
}

impl KeySources {
    /// The sources with one more.
    pub fn with(self, source: u32) -> KeySources
        ensures new { IsSourceOf result source }
        ensures kept { (a : ℕ) → IsSourceOf self a → IsSourceOf result a }
    {
        match self {
            KeySources::Nobody => KeySources::One(source),
            KeySources::One(other) if other == source => self,
            KeySources::One(_) | KeySources::Several => KeySources::Several,
        }
    }

    /// Whether there may be another source than this one.
    fn has_other(self, b: u32) -> bool
        ensures { (a : ℕ) → IsSourceOf self a → b ≢ a → result ≡ true }
    {
        match self {
            KeySources::Nobody => false,
            KeySources::One(source) => source != b,
            KeySources::Several => true,
        }
    }
}

/// Marks the block of a transaction, if that is needed.
fn mark_where(needed: &mut [bool], owners: &[u32], b: u32, is_needed: bool)
    requires below { b < length owners.now }
    requires room { slice_index owners.now b < length needed.old * WIDE }
    ensures same { length needed.new ≡ length needed.old }
    ensures new { is_needed ≡ true → IsMarked needed.new (slice_index owners.now b) }
    ensures kept { (s : ℕ) → IsMarked needed.old s → IsMarked needed.new s }
{
    if is_needed {
        needed[owners[b as usize] as usize / WIDE] = true;
    }
}

/// Marks the blocks of the writers of a key that has another source.
fn mark_key(needed: &mut [bool], owners: &[u32], writers: &[u32], sources: KeySources)
    requires below { All (λ b. b < length owners.now) writers.now }
    requires room { (b : ℕ) → b < length owners.now → slice_index owners.now b < length needed.old * WIDE }
    ensures same { length needed.new ≡ length needed.old }
    ensures kept { (s : ℕ) → IsMarked needed.old s → IsMarked needed.new s }
    ensures new { (a b : ℕ) → IsSourceOf sources a → Contains writers.now b → b ≢ a → IsMarked needed.new (slice_index owners.now b) }
{
    for b in writers {
        mark_where(needed, owners, *b, sources.has_other(*b));
    }
}

/// Marks the blocks of all writers of a key that has another source.
fn mark_keys(
    needed: &mut [bool],
    graph: &LargeGraph,
    owners: &[u32],
    sources: &[KeySources],
) -> Result<(), NoMemory>
    requires long { length sources.now ≡ length (keys graph.now) }
    requires owners { length owners.now ≡ count graph.now }
    requires room { (b : ℕ) → b < length owners.now → slice_index owners.now b < length needed.old * WIDE }
    ensures same { length needed.new ≡ length needed.old }
    ensures marked { OnOk result (AreMarked graph.now owners.now sources.now (length sources.now) needed.new) }
{
    for (index, each) in sources.iter().enumerate() {
        let Ok(key_index) = u32::try_from(index) else {
            return Err(NoMemory);
        };
        mark_key(needed, owners, graph.writers_at(key_index), *each);
    }
    Ok(())
}

/// For each block of sessions, whether it has a writer of a key that has another one of these sources.
pub fn mark_blocks(
    alloc: Global,
    graph: &LargeGraph,
    owners: &[u32],
    sources: &[KeySources],
) -> Result<Vec<bool>, NoMemory>
    requires owners { AreOwners graph.now owners.now }
    requires sources { length sources.now ≡ length (keys graph.now) }
    ensures long { IfOk result (λ needed. length graph.now.sessions ≤ length needed.items * WIDE) }
    ensures marked { IfOk result (λ needed. AreMarked graph.now owners.now sources.now (length sources.now) needed.items) }
{
    let blocks = graph.sessions().len().div_ceil(WIDE);
    let mut needed = vec![in alloc; false; blocks + 1]?;
    mark_keys(&mut needed, graph, owners, sources)?;
    Ok(needed)
}

/// Adds the source of each read of a transaction.
fn add_sources_read(sources: &mut [KeySources], graph: &LargeGraph, c: u32)
    requires below { c < count graph.now }
    requires long { length sources.old ≡ length (keys graph.now) }
    ensures same { length sources.new ≡ length sources.old }
    ensures grown { HaveGrown sources.old sources.new }
    ensures read { HasSourcesRead graph.now c sources.new }
{
    for read in graph.reads_at(c) {
        let index = read.0 as usize;
        sources[index] = sources[index].with(read.1);
    }
}

/// The sources of each key.
fn sources_read(alloc: Global, graph: &LargeGraph) -> Result<Vec<KeySources>, AllocError>
    ensures long { IfOk result (λ sources. length sources.items ≡ length (keys graph.now)) }
    ensures read { IfOk result (λ sources. AreSourcesRead graph.now (count graph.now) sources.items) }
{
    let mut sources = vec![in alloc; KeySources::Nobody; graph.keys().len()]?;
    for c in 0..graph.count() {
        add_sources_read(&mut sources, graph, c);
    }
    Ok(sources)
}

/// For each block of sessions, whether it has a writer of a key that a transaction reads from another one.
pub fn needed_blocks(
    alloc: Global,
    graph: &LargeGraph,
    owners: &[u32],
) -> Result<Vec<bool>, NoMemory>
    requires { AreOwners graph.now owners.now }
    ensures long { IfOk result (λ needed. length graph.now.sessions ≤ length needed.items * WIDE) }
    ensures needed { IfOk result (λ needed. AreNeeded graph.now needed.items) }
{
    let sources = sources_read(alloc, graph)?;
    let needed = mark_blocks(alloc, graph, owners, &sources)?;
    Ok(needed)
}
