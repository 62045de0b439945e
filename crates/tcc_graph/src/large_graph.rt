//! The graph of a resolved history within the large limits.
ghost use Rattle.std.specs.Prelude.{◌≡◌, ◌≤◌, ◌<◌, ◌+◌, ◌++◌, ◌⊎◌, ◌↔◌, ℕ, List, length, map, zip, All, IfOk, IsTrue, string_bytes};
ghost use Rattle.std.specs.List.Sorted.{IsNonDecreasing};
ghost use Rattle.tcc_graph.specs.{private.Grouped.of_group, Readings.AreReadingsByIndex, Readings.AreReadingsOfKey, Levels.judged, Numbers.at, Numbers.label, Links.IsLink};
ghost use Rattle.tcc_graph.specs.Relations.{IsCausalPair, IsSessionPair, session_pair, previous, reads_from, causal_pair};
ghost use Rattle.tcc_graph.specs.Walks.{IsStep, step_from, step_to};
ghost use Rattle.tcc_graph.specs.Keys.{IsWriter, keys, key_at, writers, readers};
ghost use Rattle.tcc_txn.specs.declared.limits.TheConstants.{LARGE_COUNT, LARGE_SESSIONS};
ghost use Rattle.tcc_reads.specs.History.{History, IsBySession, count, entry_at, owner};

use crate::grouped_rows::{FilledRows, GroupedRows};
use crate::key_table::{key_index_of, key_readers, key_writers};
use crate::own_keys::{OwnKeys, with_own_keys};
use crate::tables::{index_table, parts_of};
use crate::validity::{is_link, is_writer};
use crate::{Level, Link, Step};
use std::alloc::Global;
use std::marker::Model;
use tcc_reads::{HistoryParts, LargeResolved, Transactions};
use tcc_txn::{Name, NoMemory};

/// The session order and the reads-from pairs of a history whose reads are resolved, up to the large limits. Number 0 is the
/// initial transaction, `init`. The committed transactions follow by session name in byte order and by place. Each name is
/// held once: keys are known by their indices in byte order.
#[derive(Drop)]
pub struct LargeGraph {
    sessions: Vec<Name>,
    keys: Vec<Name>,
    indexed: Transactions,
    key_indices: GroupedRows<u32>,
    /// The groups of the row of a key are its writers. They have no values.
    writers: FilledRows<()>,
    readers: GroupedRows<u32>,
}

impl Model for LargeGraph {
    ghost use Rattle.tcc_reads.specs.History.{History};
    ghost use Rattle.tcc_reads.specs.Indexed.{entries_of};
    ghost use Rattle.tcc_graph.specs.{private.ReadTables.history_of, private.Graphs.IsGraph};

    ghost Value = { History };

    ghost view = { λ g. history_of g.sessions.items g.keys.items g.indexed };

    ghost invariant = { λ g. IsGraph g.sessions.items (entries_of g.keys.items g.indexed) g.keys.items g.indexed g.key_indices g.writers.rows g.readers };
}

impl LargeGraph {
    /// The graph of a history.
    pub fn build(alloc: Global, resolved: LargeResolved) -> Result<LargeGraph, NoMemory>
        ensures { IfOk result (λ g. g ≡ resolved) }
    {
        let HistoryParts {
            sessions,
            keys,
            transactions,
        } = parts_of(resolved);
        let OwnKeys { keys, indexed } = with_own_keys(alloc, keys, transactions)?;
        let key_indices = index_table(alloc, &indexed)?;
        let writers = key_writers(alloc, keys.len(), &indexed)?;
        let readers = key_readers(alloc, keys.len(), &key_indices)?;
        Ok(LargeGraph {
            sessions,
            keys,
            indexed,
            key_indices,
            writers,
            readers,
        })
    }

    /// How many transactions there are, `init` among them.
    pub fn count(&self) -> u32
        ensures value { result ≡ count self.now }
        ensures some { 0 < result }
        ensures few { result ≤ LARGE_COUNT }
    {
        self.indexed.len() as u32
    }

    /// The names of the sessions, in byte order, also of those without committed transactions. Transactions are numbered
    /// by session in this order, and in a session by place.
    pub fn sessions(&self) -> &[Name]
        ensures value { result.now ≡ self.now.sessions }
        ensures few { length result.now ≤ LARGE_SESSIONS }
        ensures numbered { IsBySession self.now.entries }
        ensures owners { (n : ℕ) → 0 < n → n < count self.now → owner self.now n < length result.now }
    {
        &self.sessions
    }

    /// Transactions are numbered by session and by place, and each but `init` is of a session.
    pub fn numbered(&self)
        ensures numbered { IsBySession self.now.entries }
        ensures owners { (n : ℕ) → 0 < n → n < count self.now → owner self.now n < length self.now.sessions }
    {
        // This read shows the proof how the transactions are numbered.
        let _ = &self.sessions;
    }

    /// The index of the session and the place of a committed transaction; none for `init` and past the last number.
    pub fn at(&self, n: u32) -> Option<(u32, u32)>
        ensures { result ≡ at self.now n }
    {
        if n == 0 {
            return None;
        }
        let place = self.indexed.places().get(n as usize)?;
        Some(*place)
    }

    /// Whether `a` is before `b` in session order: `init` before all others, and in one session the lower place first.
    pub fn session(&self, a: u32, b: u32) -> bool
        requires from { a < count self.now }
        requires to { b < count self.now }
        ensures { result ≡ session_pair self.now a b }
    {
        if a == 0 || b == 0 {
            return b != 0;
        }
        let from = self.indexed.place(a as usize);
        let to = self.indexed.place(b as usize);
        from.0 == to.0 && from.1 < to.1
    }

    /// The transaction right before another in session order: the one before it in its session, or else `init`.
    pub fn previous(&self, c: u32) -> u32
        requires some { 0 < c }
        requires below { c < count self.now }
        ensures value { result ≡ previous self.now c }
        ensures before { result < c }
        ensures beside { (result ≡ 0) ⊎ (result + 1 ≡ c) }
        ensures pair { IsSessionPair self.now result c }
        ensures last { (b : ℕ) → IsSessionPair self.now b c → (b ≡ result) ⊎ IsSessionPair self.now b result }
    {
        // This read shows the proof how the transactions are numbered.
        let _ = &self.indexed;
        if self.session(c - 1, c) { c - 1 } else { 0 }
    }

    /// The range of the numbers with a session pair from `u`: its first number, and one past its last. Both are `u + 1` if
    /// there is none.
    pub fn later(&self, u: u32) -> (u32, u32)
        requires { u < count self.now }
        ensures first { result.0 ≡ u + 1 }
        ensures order { result.0 ≤ result.1 }
        ensures few { result.1 ≤ count self.now }
        ensures pairs { (v : ℕ) → IsSessionPair self.now u v ↔ ((result.0 ≤ v) × (v < result.1)) }
    {
        if u == 0 {
            return (1, self.count());
        }
        let (owner, _place) = self.indexed.place(u as usize);
        let places = self.indexed.places();
        let end = places.partition_point(|place| place.0 <= owner);
        (u + 1, end as u32)
    }

    /// Whether `a` is before `b` in session order, or `b` reads a key from `a`.
    pub fn causal(&self, a: u32, b: u32) -> bool
        requires from { a < count self.now }
        requires to { b < count self.now }
        ensures { result ≡ causal_pair self.now a b }
    {
        self.session(a, b) || self.key_indices.has(a as usize, b)
    }

    /// The step from one transaction to another by a pair: by session order if they are a session pair.
    pub fn step(&self, from: u32, to: u32) -> Step
        requires { IsCausalPair self.now from to }
        ensures from { step_from result ≡ from }
        ensures to { step_to result ≡ to }
        ensures step { IsStep self.now result }
    {
        if self.session(from, to) {
            return Step::Session { from, to };
        }
        let key_index = self.reads_from_at(from, to)[0];
        let key = self.keys[key_index as usize];
        Step::Reads { from, to, key }
    }

    /// The keys in operations of committed transactions, in byte order, each once.
    pub fn keys(&self) -> &[Name]
        ensures { result.now ≡ keys self.now }
    {
        &self.keys
    }

    /// The transactions that write the key visibly, ascending, `init` first; none if it is not a key of the history.
    pub fn writers(&self, key: &Name) -> &[u32]
        ensures { result.now ≡ writers self.now key.now }
    {
        match key_index_of(&self.keys, key) {
            Some(key_index) => self.writers.groups(key_index),
            None => &[],
        }
    }

    /// The transactions that read the key from `a`, ascending.
    pub fn readers(&self, a: u32, key: &Name) -> &[u32]
        requires { a < count self.now }
        ensures { result.now ≡ readers self.now a key.now }
    {
        match key_index_of(&self.keys, key) {
            Some(key_index) => self.readers.get(key_index, a),
            None => &[],
        }
    }

    /// Whether a transaction writes the key visibly. `init` writes each key, even one that is not a key of the history. Any
    /// number may be asked for: past the last there is no writer.
    pub fn is_writer(&self, b: u32, key: &Name) -> bool
        ensures { IsTrue result ↔ IsWriter self.now b key.now }
    {
        is_writer(self, b, key)
    }

    /// Whether the link is one of the history at the level. Its numbers may be any: past the last there is no link.
    pub fn is_link(&self, level: Level, link: &Link) -> bool
        ensures { IsTrue result ↔ IsLink (judged self.now level) link.now }
    {
        is_link(self, level, link)
    }

    /// The transactions that write the key at an index visibly, ascending, `init` first.
    pub fn writers_at(&self, key_index: u32) -> &[u32]
        requires { key_index < length (keys self.now) }
        ensures { result.now ≡ writers self.now (key_at self.now key_index) }
    {
        self.writers.groups(key_index as usize)
    }

    /// Who reads the key at an index: the sources by ascending number, and beside each a reader of the key from it. For one
    /// source the readers are by ascending number, each once.
    pub fn readings_of(&self, key_index: u32) -> (&[u32], &[u32])
        requires { key_index < length (keys self.now) }
        ensures { AreReadingsOfKey self.now key_index result.0.now result.1.now }
    {
        let row = key_index as usize;
        (self.readers.groups(row), self.readers.values(row))
    }

    /// Who reads from `a`, and beside each the index of a key that it reads there.
    pub(crate) fn read_at(&self, a: u32) -> (&[u32], &[u32])
        requires { a < count self.now }
        ensures readings { AreReadingsByIndex self.now a result.0.now result.1.now }
        ensures from { (b : ℕ) → b < count self.now
            → map (key_at self.now) (of_group (zip result.0.now result.1.now) b) ≡ reads_from self.now a b }
        ensures order { IsNonDecreasing result.0.now }
    {
        let row = a as usize;
        (self.key_indices.groups(row), self.key_indices.values(row))
    }

    /// Who reads from `a`, by ascending number, and beside each the index of a key that it reads there: for one reader
    /// ascending, each once.
    pub fn readings_at(&self, a: u32) -> (&[u32], &[u32])
        requires { a < count self.now }
        ensures { AreReadingsByIndex self.now a result.0.now result.1.now }
    {
        self.read_at(a)
    }

    /// The indices of the keys that `b` reads from `a`, ascending.
    pub fn reads_from_at(&self, a: u32, b: u32) -> &[u32]
        requires from { a < count self.now }
        requires to { b < count self.now }
        ensures value { map (key_at self.now) result.now ≡ reads_from self.now a b }
        ensures within { All (λ key_index. key_index < length (keys self.now)) result.now }
    {
        self.key_indices.get(a as usize, b)
    }

    /// The indices of the keys that a transaction reads, each with the transaction that it reads it from.
    pub fn reads_at(&self, c: u32) -> &[(u32, u32)]
        requires { c < count self.now }
        ensures value { map (λ read. (key_at self.now read.0, read.1)) result.now ≡ (entry_at self.now c).reads }
        ensures within { All (λ read. (read.0 < length (keys self.now)) × (read.1 < count self.now)) result.now }
    {
        self.indexed.reads(c as usize)
    }

    /// The indices of the keys that a transaction writes visibly, ascending; none for `init`, which writes every key.
    pub fn writes_at(&self, b: u32) -> &[u32]
        requires { b < count self.now }
        ensures value { map (key_at self.now) result.now ≡ (entry_at self.now b).writes }
        ensures within { All (λ key_index. key_index < length (keys self.now)) result.now }
    {
        self.indexed.writes(b as usize)
    }

    /// `init` for number 0, else the name of the session, a slash and the place.
    pub fn label(&self, alloc: Global, n: u32) -> Result<String, NoMemory>
        requires { n < count self.now }
        ensures { IfOk result (λ text. string_bytes text ≡ label self.now n) }
    {
        if n == 0 {
            return Ok(format!(in alloc; "init")?);
        }
        let (owner, place) = self.indexed.place(n as usize);
        let session = self.sessions[owner as usize];
        Ok(format!(in alloc; "{session}/{place}")?)
    }
}
