//! Histories whose reads are resolved.
ghost use Rattle.std.specs.Prelude.{◌≡◌, ◌<◌, ◌≤◌, ◌+◌, length, All, IfOk};
ghost use Rattle.std.specs.List.Sorted.{IsStrictlySortedBy};
ghost use Rattle.tcc_txn.specs.declared.limits.TheConstants.{MAX_COUNT, MAX_SESSIONS, LARGE_COUNT, LARGE_SESSIONS};
ghost use Rattle.tcc_reads.specs.History.{count, entry_at, initial, IsBySession, places_of};
ghost use Rattle.tcc_reads.specs.{Indexed.IsWithin, Indexed.entries_of, private.Stored.AreNamed};
ghost use Rattle.tcc_reads.specs.Sources.{name_cmp, pair_cmp};

use crate::{Transaction, Transactions};
use std::alloc::Global;
use std::marker::Model;
use std::ops::Deref;
use tcc_txn::{Name, NoMemory};

/// A snapshot within the large limits of which each external read has its source; it may be one within the small limits. The
/// committed transactions are numbered from 1 by session name in byte order and by place. Number 0 is the initial transaction,
/// which writes 0 at every key. Each name is held once: keys are known by their indices in byte order.
#[derive(Drop)]
pub struct LargeResolved {
    pub(crate) sessions: Vec<Name>,
    pub(crate) keys: Vec<Name>,
    pub(crate) places: Vec<(u32, u32)>,
    pub(crate) transactions: Transactions,
}

impl Model for LargeResolved {
    ghost use Rattle.tcc_reads.specs.{History.History, Indexed.entries_of, private.Stored.AreKeyed, private.Stored.IsStored};

    ghost Value = { History };

    ghost view = { λ r. record { sessions = r.sessions.items; entries = entries_of r.keys.items r.transactions } };

    ghost invariant = { λ r. IsStored r.sessions.items r.places.items (entries_of r.keys.items r.transactions)
        × AreKeyed r.keys.items r.transactions };
}

/// What a resolved history holds.
#[derive(Drop)]
pub struct HistoryParts {
    /// The names of the sessions, in byte order.
    pub sessions: Vec<Name>,
    /// Names of keys, in byte order, each once. They include those that the transactions write and read.
    pub keys: Vec<Name>,
    /// The transactions by number, each by the indices of its keys.
    pub transactions: Transactions,
}

impl LargeResolved {
    /// The names of all sessions in byte order, also of those without committed transactions.
    pub fn sessions(&self) -> &[Name]
        ensures value { result.now ≡ self.now.sessions }
        ensures few { length result.now ≤ LARGE_SESSIONS }
    {
        &self.sessions
    }

    /// The index of the session and the place of each committed transaction, from number 1 on. Places count aborted ones.
    pub fn places(&self) -> &[(u32, u32)]
        ensures value { result.now ≡ places_of self.now.entries }
        ensures count { length result.now + 1 ≡ count self.now }
        ensures few { count self.now ≤ LARGE_COUNT }
        ensures initial { entry_at self.now 0 ≡ initial }
        ensures owners { All (λ p. p.0 < length self.now.sessions) result.now }
        ensures ordered { IsBySession self.now.entries }
        ensures reads { All (λ e. IsStrictlySortedBy pair_cmp e.reads) self.now.entries }
    {
        &self.places
    }

    /// The names of the sessions and of the keys, and the transactions, by number, by value.
    pub fn into_parts(self) -> HistoryParts
        ensures sessions { result.sessions.items ≡ self.sessions }
        ensures transactions { entries_of result.keys.items result.transactions ≡ self.entries }
        ensures within { All (IsWithin (length result.keys.items)) result.transactions }
        ensures sorted { IsStrictlySortedBy name_cmp result.keys.items }
        ensures few_keys { length result.keys.items ≤ u32.MAX }
        ensures few_sessions { length self.sessions ≤ LARGE_SESSIONS }
        ensures some { 0 < count self }
        ensures few { count self ≤ LARGE_COUNT }
        ensures initial { entry_at self 0 ≡ initial }
        ensures owners { All (λ p. p.0 < length self.sessions) (places_of self.entries) }
        ensures sources { All (λ e. All (λ r. r.1 < length self.entries) e.reads) self.entries }
        ensures ordered { IsBySession self.entries }
        ensures reads { All (λ e. IsStrictlySortedBy pair_cmp e.reads) self.entries }
    {
        HistoryParts {
            sessions: self.sessions,
            keys: self.keys,
            transactions: self.transactions,
        }
    }

    /// The transactions by number, each by the names of its keys.
    pub(crate) fn named(&self, alloc: Global) -> Result<Vec<Transaction>, NoMemory>
        ensures { IfOk result (λ named. AreNamed self.now named.items) }
    {
        let named = named_by(alloc, &self.keys, &self.transactions)?;
        Ok(named)
    }
}

/// Transactions by the names of these keys.
fn named_by(
    alloc: Global,
    keys: &[Name],
    transactions: &Transactions,
) -> Result<Vec<Transaction>, NoMemory>
    requires { All (IsWithin (length keys.now)) transactions.now }
    ensures { IfOk result (λ named. named.items ≡ entries_of keys.now transactions.now) }
{
    let mut named = Vec::with_capacity(alloc, transactions.len())?;
    for number in 0..transactions.len() {
        named.push(Transaction::of(alloc, keys, transactions, number)?)?;
    }
    Ok(named)
}

/// A snapshot within the small limits of which each external read has its source. It dereferences to one within the large
/// limits, which has the other calls. It returns what the transactions write and read by the names of the keys.
#[derive(Drop)]
pub struct Resolved {
    pub(crate) large: LargeResolved,
    pub(crate) named: Vec<Transaction>,
}

impl Model for Resolved {
    ghost use Rattle.std.specs.Prelude.{◌≤◌, length};
    ghost use Rattle.tcc_txn.specs.declared.limits.TheConstants.{MAX_COUNT, MAX_SESSIONS};
    ghost use Rattle.tcc_reads.specs.{History.History, History.count, private.Stored.AreNamed};

    ghost Value = { History };

    ghost view = { λ r. r.large };

    ghost invariant = { λ r. (count r.large ≤ MAX_COUNT) × (length r.large.sessions ≤ MAX_SESSIONS) × AreNamed r.large r.named.items };
}

impl Deref for Resolved {
    type Target = LargeResolved;

    ghost use Rattle.std.specs.Prelude.{◌≡◌};

    ghost deref_gives = { λ resolved large. large ≡ resolved };

    fn deref(&self) -> &LargeResolved
        ensures value { result.now ≡ self.now }
        ensures few { count result.now ≤ MAX_COUNT }
        ensures few_sessions { length result.now.sessions ≤ MAX_SESSIONS }
    {
        &self.large
    }
}

impl Resolved {
    /// The keys that the transaction of this number writes visibly, in byte order; none for the initial one, which
    /// writes every key.
    pub fn writes(&self, t: u32) -> &[Name]
        requires { t < count self.now }
        ensures { result.now ≡ (entry_at self.now t).writes }
    {
        self.named[t as usize].writes()
    }

    /// Key and source of the external reads of this transaction, by key in byte order, then by number, each pair once.
    pub fn reads(&self, t: u32) -> &[(Name, u32)]
        requires { t < count self.now }
        ensures value { result.now ≡ (entry_at self.now t).reads }
        ensures sources { All (λ r. r.1 < count self.now) result.now }
        ensures order { IsStrictlySortedBy pair_cmp result.now }
    {
        self.named[t as usize].reads()
    }

    /// This history, by value, as one within the large limits.
    pub fn into_large(self) -> LargeResolved
        ensures value { result ≡ self }
        ensures few { count result ≤ MAX_COUNT }
        ensures few_sessions { length result.sessions ≤ MAX_SESSIONS }
    {
        self.large
    }
}
