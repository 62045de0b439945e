//! The graph of a resolved history that keeps the small limits.
ghost use Rattle.std.specs.Prelude.{◌≡◌, ◌≤◌, ◌<◌, ℕ, length, All, IfOk};
ghost use Rattle.tcc_txn.specs.declared.limits.TheConstants.{MAX_COUNT, MAX_SESSIONS};
ghost use Rattle.tcc_reads.specs.History.{IsBySession, count, entry_at, owner};
ghost use Rattle.tcc_graph.specs.{Relations.reads_from, Readings.AreReadings};

use crate::LargeGraph;
use crate::named::{Named, named_by};
use std::alloc::Global;
use std::marker::Model;
use std::ops::Deref;
use tcc_reads::Resolved;
use tcc_txn::{Name, NoMemory};

/// The graph of a history that keeps the small limits. It dereferences to a graph within the large limits, which has the calls
/// for a graph of any size. Its own calls say how few transactions and sessions there are, and return what these write and
/// read by the names of the keys.
#[derive(Drop)]
pub struct Graph {
    large: LargeGraph,
    names: Vec<Named>,
}

impl Model for Graph {
    ghost use Rattle.std.specs.Prelude.{◌≤◌, length};
    ghost use Rattle.tcc_txn.specs.declared.limits.TheConstants.{MAX_COUNT, MAX_SESSIONS};
    ghost use Rattle.tcc_reads.specs.History.{History, count};
    ghost use Rattle.tcc_graph.specs.private.Graphs.{AreNamed};

    ghost Value = { History };

    ghost view = { λ g. g.large };

    ghost invariant = { λ g. (count g.large ≤ MAX_COUNT) × (length g.large.sessions ≤ MAX_SESSIONS) × AreNamed g.large (count g.large) g.names.items };
}

impl Deref for Graph {
    type Target = LargeGraph;

    ghost use Rattle.std.specs.Prelude.{◌≡◌};

    ghost deref_gives = { λ graph large. large ≡ graph };

    fn deref(&self) -> &LargeGraph
        ensures value { result.now ≡ self.now }
        ensures few { count result.now ≤ MAX_COUNT }
        ensures few_sessions { length result.now.sessions ≤ MAX_SESSIONS }
    {
        &self.large
    }
}

impl Graph {
    /// The graph of a history.
    ///
    /// ```rust
    /// let resolved = resolve(alloc, snapshot)?;
    /// let graph = Graph::build(alloc, resolved)?;
    /// let mut readers = Vec::new(alloc);
    /// for n in 0..graph.count() {
    ///     if !graph.reads(n).is_empty() {
    ///         readers.push(graph.label(alloc, n)?)?;
    ///     }
    /// }
    /// Ok(readers)
    /// ```
    pub fn build(alloc: Global, resolved: Resolved) -> Result<Graph, NoMemory>
        ensures { IfOk result (λ g. g ≡ resolved) }
    {
        let large = LargeGraph::build(alloc, resolved.into_large())?;
        let names = named_by(alloc, &large)?;
        Ok(Graph { large, names })
    }

    /// How many transactions there are, `init` among them.
    pub fn count(&self) -> u32
        ensures value { result ≡ count self.now }
        ensures some { 0 < result }
        ensures few { result ≤ MAX_COUNT }
    {
        self.large.count()
    }

    /// The names of the sessions, in byte order, also of those without committed transactions. Transactions are numbered
    /// by session in this order, and in a session by place.
    pub fn sessions(&self) -> &[Name]
        ensures value { result.now ≡ self.now.sessions }
        ensures few { length result.now ≤ MAX_SESSIONS }
        ensures numbered { IsBySession self.now.entries }
        ensures owners { (n : ℕ) → 0 < n → n < count self.now → owner self.now n < length result.now }
    {
        self.large.sessions()
    }

    /// The keys that `b` reads from `a`, in byte order.
    pub fn reads_from(&self, a: u32, b: u32) -> &[Name]
        requires from { a < count self.now }
        requires to { b < count self.now }
        ensures { result.now ≡ reads_from self.now a b }
    {
        self.names[a as usize].readings.get(b)
    }

    /// The keys that a transaction reads, each with the transaction that it reads it from.
    pub fn reads(&self, c: u32) -> &[(Name, u32)]
        requires { c < count self.now }
        ensures value { result.now ≡ (entry_at self.now c).reads }
        ensures sources { All (λ read. read.1 < count self.now) result.now }
    {
        &self.names[c as usize].reads
    }

    /// The keys that a transaction writes visibly; none for `init`, which writes every key.
    pub fn writes(&self, b: u32) -> &[Name]
        requires { b < count self.now }
        ensures { result.now ≡ (entry_at self.now b).writes }
    {
        &self.names[b as usize].writes
    }

    /// Who reads from `a`, by ascending number, and beside each a key that it reads there: for one reader in byte order, each
    /// once.
    pub fn readings(&self, a: u32) -> (&[u32], &[Name])
        requires { a < count self.now }
        ensures { AreReadings self.now a result.0.now result.1.now }
    {
        let readings = &self.names[a as usize].readings;
        (readings.groups(), readings.values())
    }
}
