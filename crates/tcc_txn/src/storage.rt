//! How the sessions of a snapshot are stored: each in a vector of its transactions, or packed.
ghost use Rattle.std.specs.Prelude.{◌≡◌, ◌≤◌, ◌<◌, ◌⊎◌, ◌++◌, ◌∷◌, [], T, None, IfErr, IfOk, OnErr, OnOk, length, option_map, slice_get, unwrap_or};
ghost use Rattle.std.specs.Cmp.Lexicographic.{slice_cmp};
ghost use Rattle.std.specs.FinMap.Entries.{find, is_sorted, put};
ghost use Rattle.std.specs.Ordering.{nat_cmp};
ghost use Rattle.tcc_txn.specs.{Limits.most_sessions, Snapshots.listed_at, Snapshots.parts_of, KeyNumbers.AreNumbers, KeyNumbers.keys_in, private.Storing.IsPlain, private.Storing.parts_in, declared.limits.Limits.TheVariants.Small};

use crate::key_numbers::numbered;
use crate::packed::PackedSessions;
use crate::snapshot::add_to;
use crate::{GrowFault, KeyHints, KeyNumbers, Limits, Name, NoMemory, Recorded, Txn};
use std::alloc::Global;

/// The sessions of a snapshot.
#[derive(Drop)]
pub(crate) enum Storage {
    Plain(Vec<(Name, Vec<Txn>)>),
    Packed(PackedSessions),
}

/// The name of the part at the index.
fn name_at(parts: &[(Name, Vec<Txn>)], i: u32) -> Option<&Name>
    ensures { option_map (λ name. name.now) result ≡ option_map (λ named. named.0) (slice_get (parts_of parts.now) i) }
{
    match parts.get(i as usize) {
        Some(part) => Some(&part.0),
        None => None,
    }
}

/// The transactions of the part at the index; none past the last part.
fn transactions_at(parts: &[(Name, Vec<Txn>)], i: u32) -> &[Txn]
    ensures { result.now ≡ listed_at (parts_of parts.now) i }
{
    match parts.get(i as usize) {
        Some(part) => &part.1,
        None => &[],
    }
}

/// The transaction at the index of a list.
fn recorded_at(txns: &[Txn], index: usize) -> Option<Recorded<'_>>
    ensures { result ≡ slice_get txns.now index }
{
    match txns.get(index) {
        Some(txn) => Some(txn.recorded()),
        None => None,
    }
}

impl Storage {
    /// No sessions, with the storage that the limits ask for.
    pub(crate) fn new(alloc: Global, limits: Limits) -> Storage
        ensures parts { parts_in result ≡ [] }
        ensures plain { limits ≡ Small → IsPlain result }
    {
        match limits {
            Limits::Small => Storage::Plain(Vec::new(alloc)),
            Limits::Large => Storage::Packed(PackedSessions::new(alloc)),
        }
    }

    /// How many sessions there are.
    pub(crate) fn len(&self) -> usize
        ensures { result ≡ length (parts_in self.now) }
    {
        match self {
            Storage::Plain(parts) => parts.len(),
            Storage::Packed(sessions) => sessions.len(),
        }
    }

    /// The name of the session at the index.
    pub(crate) fn name(&self, i: u32) -> Option<&Name>
        ensures { option_map (λ name. name.now) result ≡ option_map (λ named. named.0) (slice_get (parts_in self.now) i) }
    {
        match self {
            Storage::Plain(parts) => name_at(parts, i),
            Storage::Packed(sessions) => sessions.name(i),
        }
    }

    /// How many transactions the session at the index has; none past the last session.
    pub(crate) fn finished(&self, i: u32) -> usize
        ensures { result ≡ length (listed_at (parts_in self.now) i) }
    {
        match self {
            Storage::Plain(parts) => transactions_at(parts, i).len(),
            Storage::Packed(sessions) => sessions.finished(i),
        }
    }

    /// The transaction at an index, counted from 0, of the session at the index `i`.
    pub(crate) fn recorded(&self, i: u32, index: usize) -> Option<Recorded<'_>>
        ensures { result ≡ slice_get (listed_at (parts_in self.now) i) index }
    {
        match self {
            Storage::Plain(parts) => recorded_at(transactions_at(parts, i), index),
            Storage::Packed(sessions) => sessions.recorded(i, index),
        }
    }

    /// The keys, and the number of the key of each operation.
    pub(crate) fn key_numbers(&self, alloc: Global) -> Result<KeyNumbers, NoMemory>
        ensures { IfOk result (λ keys. AreNumbers keys.names.items keys.numbers.items (keys_in (parts_in self.now))) }
    {
        match self {
            Storage::Plain(parts) => numbered(alloc, parts),
            Storage::Packed(sessions) => sessions.key_numbers(alloc),
        }
    }

    /// The session has one more transaction.
    pub(crate) fn add(
        &mut self,
        limits: Limits,
        alloc: Global,
        session: Name,
        txn: Txn,
        told: KeyHints<'_>,
    ) -> Result<(), GrowFault>
        requires { T (is_sorted (slice_cmp nat_cmp) (parts_in self.old)) }
        ensures added { OnOk result (parts_in self.new ≡ put (slice_cmp nat_cmp) session
            (unwrap_or (find (slice_cmp nat_cmp) session (parts_in self.old)) [] ++ txn ∷ []) (parts_in self.old)) }
        ensures kept { OnErr result (parts_in self.new ≡ parts_in self.old) }
        ensures few { OnOk result ((find (slice_cmp nat_cmp) session (parts_in self.old) ≡ None) → length (parts_in self.old) < most_sessions limits) }
        ensures refused { IfErr result
            (λ k. (k ≡ GrowFault.NoMemory) ⊎ ((most_sessions limits ≤ length (parts_in self.old))
            × (find (slice_cmp nat_cmp) session (parts_in self.old) ≡ None))) }
        ensures plain { IsPlain self.old → IsPlain self.new }
    {
        match self {
            Storage::Plain(parts) => add_to(parts, limits, alloc, session, txn),
            Storage::Packed(sessions) => sessions.add(limits, alloc, session, &txn, told),
        }
    }
}
