//! Snapshots: what the sessions had finished at one moment.
ghost use Rattle.std.specs.Prelude.{◌≡◌, ◌↔◌, ◌≢◌, ◌≤◌, ◌<◌, ◌⊎◌, ◌++◌, ◌∷◌, [], T, true, false, nat_eq, nat_lt, map};
ghost use Rattle.std.specs.Prelude.{length, sum_by, None, Some, IfErr, IfOk, IsTrue, MatchOption, MatchResult, OnErr, OnOk, option_map};
ghost use Rattle.std.specs.Prelude.{slice_get, unwrap_or};
ghost use Rattle.std.specs.FinMap as sessions;
ghost use Rattle.std.specs.FinMap.Entries.{find, is_sorted, put};
ghost use Rattle.std.specs.List.{insert, list_any};
ghost use Rattle.std.specs.List.Sorted.{IsPermutation, IsSortedByKey};
ghost use Rattle.std.specs.Ordering.{nat_cmp};
ghost use Rattle.tcc_txn.specs.{Limits.most_sessions, Limits.most_transactions, private.SnapshotStorage.IsStoredWithin, private.SnapshotStorage.shown};
ghost use Rattle.tcc_txn.specs.Finished.{IsWithinLimits, KeepsLimits, transaction_count, with_transaction};
ghost use Rattle.tcc_txn.specs.KeyNumbers.{AreNumbers, keys_in};
ghost use Rattle.tcc_txn.specs.Snapshots.{finished_at, parts_of, first_repeated, snapshot_fault, snapshot_fault_within};
ghost use Rattle.tcc_txn.specs.declared.limits.TheConstants.{LARGE_SESSIONS, LARGE_TRANSACTIONS, MAX_SESSIONS, MAX_TRANSACTIONS};
ghost use Rattle.std.specs.Cmp.Lexicographic.{pointwise, slice_cmp};
ghost use Rattle.std.specs.Option.{option_map_or};

use crate::by_name::part_of;
use crate::storage::Storage;
use crate::{
    Alike, Bounds, KeyHints, KeyNumbers, LargeLimits, Limits, MAX_SESSIONS, MAX_TRANSACTIONS, Name,
    NoMemory, Recorded, SmallLimits, Txn,
};
use std::alloc::{AllocFailed, Global};
use std::collections::BTreeSet;
use std::marker::{Model, PhantomData};
use thiserror::Error;

/// Why some lists of transactions make no snapshot.
#[derive(Debug, Drop, Error)]
pub enum SnapshotFault {
    /// Two parts have this name: the first name that equals an earlier one.
    #[error("session {session} stands twice")]
    Repeated { session: Name },
    /// There are more than `MAX_SESSIONS` sessions, or `LARGE_SESSIONS` in a large snapshot.
    #[error("there are too many sessions")]
    TooManySessions,
    /// There are more than `MAX_TRANSACTIONS` transactions, or `LARGE_TRANSACTIONS` in a large
    /// snapshot, aborted ones counted.
    #[error("there are too many transactions")]
    TooManyTransactions,
    /// Out of memory. It is never returned, since the parts are sorted in place.
    #[error("out of memory")]
    NoMemory,
}

/// Why a snapshot doesn't take one more transaction.
#[derive(Clone, Copy, Debug, PartialEq, Eq, Error)]
pub enum GrowFault {
    /// There would be one more session than the limit allows.
    #[error("there are too many sessions")]
    TooManySessions,
    /// There are as many transactions as the limit allows.
    #[error("there are too many transactions")]
    TooManyTransactions,
    /// Out of memory.
    #[error("out of memory")]
    NoMemory,
}

impl<T: Drop> From<AllocFailed<T>> for GrowFault {
    ghost use Rattle.tcc_txn.specs.declared.snapshot.GrowFault.TheVariants.{NoMemory};

    ghost from_gives = { λ _ fault. fault ≡ NoMemory };

    fn from(_refused: AllocFailed<T>) -> GrowFault {
        GrowFault::NoMemory
    }
}

/// What the sessions had finished at one moment: the sessions in byte order of their names, no more of them and of their
/// transactions than the limits that `B` names allow.
#[derive(Drop)]
pub struct SnapshotWithin<B: Bounds> {
    sessions: Storage,
    /// How many there are in all.
    transactions: usize,
    bounds: PhantomData<B>,
}

/// A snapshot of up to `MAX_SESSIONS` sessions with up to `MAX_TRANSACTIONS` transactions in all.
///
/// ```rust
/// let (session, key) = (Name::read(b"a")?, Name::read(b"x")?);
/// let ops = vec![in alloc; Op::Put { key, value: 1 }, Op::Get { key, value: 1 }]?;
/// let txn = Txn::new(ops, true).map_err(|refused| refused.0)?;
/// let parts = vec![in alloc; (session, vec![in alloc; txn]?)]?;
/// let snapshot = Snapshot::new(parts).map_err(|refused| refused.0)?;
/// Ok(snapshot)
/// ```
pub type Snapshot = SnapshotWithin<SmallLimits>;

/// A snapshot of up to `LARGE_SESSIONS` sessions with up to `LARGE_TRANSACTIONS` transactions in all.
pub type LargeSnapshot = SnapshotWithin<LargeLimits>;

impl<B: Bounds> Model for SnapshotWithin<B> {
    ghost use Rattle.tcc_txn.specs.Snapshots.{Sessions};

    ghost Value = { Sessions };

    ghost use Rattle.tcc_txn.specs.private.SnapshotStorage.{sessions_code};

    ghost coded = { sessions_code };

    ghost use Rattle.tcc_txn.specs.{private.SnapshotStorage.shown, private.Storing.parts_in, private.Storing.IsCounted};

    ghost view = { λ s. shown (parts_in s.sessions) };

    ghost invariant = { λ s. IsCounted B.limits s.sessions s.transactions };
}

fn is_among(parts: &[(Name, Vec<Txn>)], name: Name) -> bool
    ensures { result ≡ list_any (λ part. pointwise nat_eq name part.0) parts.now }
{
    parts.iter().any(|part| name == part.0)
}

/// The first name that equals an earlier one, each compared with all before it.
fn repeated_by_pairs(parts: &[(Name, Vec<Txn>)]) -> Option<Name>
    ensures { result ≡ first_repeated [] (map (λ part. part.0) parts.now) }
{
    for (earlier, part) in parts.iter().enumerate() {
        if is_among(&parts[..earlier], part.0) {
            return Some(part.0);
        }
    }
    None
}

/// The first name that equals an earlier one, each looked up in an ordered set of those before it.
fn repeated_by_order(alloc: Global, parts: &[(Name, Vec<Txn>)]) -> Result<Option<Name>, NoMemory>
    ensures { IfOk result (λ found. found ≡ first_repeated [] (map (λ part. part.0) parts.now)) }
{
    let mut names = BTreeSet::new(alloc);
    for part in parts {
        if !names.insert(part.0)? {
            return Ok(Some(part.0));
        }
    }
    Ok(None)
}

/// The first name that equals an earlier one. Where memory is refused it takes longer.
fn first_repeated(alloc: Global, parts: &[(Name, Vec<Txn>)]) -> Option<Name>
    ensures { result ≡ first_repeated [] (map (λ part. part.0) parts.now) }
{
    match repeated_by_order(alloc, parts) {
        Ok(found) => found,
        Err(_) => repeated_by_pairs(parts),
    }
}

/// Whether there are more transactions than `most`.
fn has_too_many_transactions(parts: &[(Name, Vec<Txn>)], most: usize) -> bool
    ensures { result ≡ nat_lt most (sum_by (λ part. length part.1.items) parts.now) }
{
    let mut total = 0;
    for part in parts {
        if part.1.len() > most - total {
            return true;
        }
        total += part.1.len();
    }
    false
}

/// How many transactions there are.
fn transactions_in(parts: &[(Name, Vec<Txn>)]) -> usize
    requires { sum_by (λ part. length part.1.items) parts.now ≤ LARGE_TRANSACTIONS }
    ensures { result ≡ sum_by (λ part. length part.1.items) parts.now }
{
    let mut total = 0;
    for part in parts {
        total += part.1.len();
    }
    total
}

fn fault_of(alloc: Global, parts: &[(Name, Vec<Txn>)], limits: Limits) -> Option<SnapshotFault>
    ensures { result ≡ snapshot_fault_within limits (parts_of parts.now) }
{
    if let Some(session) = first_repeated(alloc, parts) {
        return Some(SnapshotFault::Repeated { session });
    }
    if parts.len() > limits.sessions() {
        return Some(SnapshotFault::TooManySessions);
    }
    if has_too_many_transactions(parts, limits.transactions()) {
        return Some(SnapshotFault::TooManyTransactions);
    }
    None
}

fn sort_by_name(parts: &mut [(Name, Vec<Txn>)])
    ensures permutation { IsPermutation parts.old parts.new }
    ensures sorted { IsSortedByKey (λ part. part.0) (slice_cmp nat_cmp) parts.new }
{
    parts.sort_unstable_by_key(|part| part.0);
}

/// The parts in byte order of their names, if they make a snapshot that keeps the limits.
fn in_order(
    parts: Vec<(Name, Vec<Txn>)>,
    limits: Limits,
) -> Result<Vec<(Name, Vec<Txn>)>, (SnapshotFault, Vec<(Name, Vec<Txn>)>)>
    ensures made { MatchResult result
        (λ s. (snapshot_fault_within limits (parts_of parts.items) ≡ None) × (shown (parts_of s.items) ≡ sessions.from_entries (parts_of parts.items)))
        (λ e. (snapshot_fault_within limits (parts_of parts.items) ≡ Some e.0) × (e.1 ≡ parts)) }
    ensures stored { IfOk result (λ s. IsStoredWithin limits (parts_of s.items)) }
{
    if let Some(fault) = fault_of(*parts.allocator(), &parts, limits) {
        return Err((fault, parts));
    }
    let mut sessions = parts;
    sort_by_name(&mut sessions);
    Ok(sessions)
}

/// The part at the index.
fn part_at(parts: &[(Name, Vec<Txn>)], i: u32) -> Option<(&Name, &[Txn])>
    ensures { option_map (λ s. (s.0.now, s.1.now)) result ≡ slice_get (parts_of parts.now) i }
{
    match parts.get(i as usize) {
        Some(part) => Some((&part.0, &part.1)),
        None => None,
    }
}

/// One more transaction at the end.
fn push(txns: &mut Vec<Txn>, txn: Txn) -> Result<(), GrowFault>
    ensures pushed { OnOk result (txns.new.items ≡ txns.old.items ++ txn ∷ []) }
    ensures kept { OnErr result (txns.new.items ≡ txns.old.items) }
    ensures refused { IfErr result (λ k. k ≡ GrowFault.NoMemory) }
{
    txns.push(txn)?;
    Ok(())
}

/// The first transaction of a session, whose part is inserted at the index.
fn insert(
    parts: &mut Vec<(Name, Vec<Txn>)>,
    alloc: Global,
    at: usize,
    session: Name,
    txn: Txn,
) -> Result<(), GrowFault>
    requires { at ≤ length parts.old.items }
    ensures inserted { OnOk result (parts_of parts.new.items ≡ insert (parts_of parts.old.items) at (session, txn ∷ [])) }
    ensures kept { OnErr result (parts.new.items ≡ parts.old.items) }
    ensures refused { IfErr result (λ k. k ≡ GrowFault.NoMemory) }
{
    let mut txns = Vec::new(alloc);
    push(&mut txns, txn)?;
    parts.insert(at, (session, txns))?;
    Ok(())
}

/// The session has one more transaction.
pub(crate) fn add_to(
    parts: &mut Vec<(Name, Vec<Txn>)>,
    limits: Limits,
    alloc: Global,
    session: Name,
    txn: Txn,
) -> Result<(), GrowFault>
    requires { T (is_sorted (slice_cmp nat_cmp) (parts_of parts.old.items)) }
    ensures added { OnOk result (parts_of parts.new.items ≡ put (slice_cmp nat_cmp) session
        (unwrap_or (find (slice_cmp nat_cmp) session (parts_of parts.old.items)) [] ++ txn ∷ []) (parts_of parts.old.items)) }
    ensures kept { OnErr result (parts_of parts.new.items ≡ parts_of parts.old.items) }
    ensures few { OnOk result ((find (slice_cmp nat_cmp) session (parts_of parts.old.items) ≡ None) → length parts.old.items < most_sessions limits) }
    ensures refused { IfErr result
        (λ k. (k ≡ GrowFault.NoMemory) ⊎ ((most_sessions limits ≤ length parts.old.items)
        × (find (slice_cmp nat_cmp) session (parts_of parts.old.items) ≡ None))) }
{
    match part_of(parts, &session) {
        Ok(at) => push(&mut parts[at].1, txn),
        Err(at) => {
            if parts.len() >= limits.sessions() {
                return Err(GrowFault::TooManySessions);
            }
            insert(parts, alloc, at, session, txn)
        }
    }
}

/// Whether there is one name and the other, and they are equal, or neither.
fn is_same_name(one: Option<&Name>, other: Option<&Name>) -> bool
    ensures same { result ≡ true → option_map (λ name. name.now) one.entry ≡ option_map (λ name. name.now) other.entry }
    ensures other { result ≡ false → option_map (λ name. name.now) one.entry ≡ option_map (λ name. name.now) other.entry → ⊥ }
{
    match (one, other) {
        (Some(one), Some(other)) => *one == *other,
        (None, None) => true,
        _ => false,
    }
}

/// Whether the sessions at the index have equal transactions.
fn are_same_lists<B: Bounds>(one: &SnapshotWithin<B>, other: &SnapshotWithin<B>, i: u32) -> bool
    ensures same { result ≡ true → finished_at one.now i ≡ finished_at other.now i }
    ensures other { result ≡ false → finished_at one.now i ≡ finished_at other.now i → ⊥ }
{
    if one.finished(i) != other.finished(i) {
        return false;
    }
    for index in 0..one.finished(i) {
        if !one.recorded(i, index).is_same(&other.recorded(i, index)) {
            return false;
        }
    }
    true
}

/// Whether the sessions at the index have the same name and the same transactions.
fn is_same_session<B: Bounds>(one: &SnapshotWithin<B>, other: &SnapshotWithin<B>, i: u32) -> bool
    ensures same { result ≡ true → slice_get (sessions.entries one.now) i ≡ slice_get (sessions.entries other.now) i }
    ensures other { result ≡ false → slice_get (sessions.entries one.now) i ≡ slice_get (sessions.entries other.now) i → ⊥ }
{
    is_same_name(one.name(i), other.name(i)) && are_same_lists(one, other, i)
}

/// A copy of the transactions of the session at the index.
fn copied<B: Bounds>(
    alloc: Global,
    snapshot: &SnapshotWithin<B>,
    i: u32,
) -> Result<Vec<Txn>, NoMemory>
    ensures { IfOk result (λ copy. copy.items ≡ finished_at snapshot.now i) }
{
    let mut copy = Vec::new(alloc);
    for index in 0..snapshot.finished(i) {
        match snapshot.recorded(i, index) {
            Some(recorded) => copy.push(recorded.to_txn(alloc)?)?,
            None => unreachable!(),
        }
    }
    Ok(copy)
}

/// A copy of the sessions.
fn copied_parts<B: Bounds>(
    alloc: Global,
    snapshot: &SnapshotWithin<B>,
) -> Result<Vec<(Name, Vec<Txn>)>, NoMemory>
    ensures { IfOk result (λ copy. parts_of copy.items ≡ sessions.entries snapshot.now) }
{
    let mut copy = Vec::new(alloc);
    for i in 0..snapshot.sessions() {
        match snapshot.name(i) {
            Some(name) => copy.push((*name, copied(alloc, snapshot, i)?))?,
            None => unreachable!(),
        }
    }
    Ok(copy)
}

impl<B: Bounds> SnapshotWithin<B> {
    /// No session has finished anything.
    pub fn empty(alloc: Global) -> SnapshotWithin<B>
        ensures { result ≡ sessions.empty }
    {
        SnapshotWithin {
            sessions: Storage::new(alloc, B::limits()),
            transactions: 0,
            bounds: PhantomData,
        }
    }

    /// The session has finished one more transaction, if there is room. If it is refused, the snapshot is as it was.
    pub fn add(&mut self, alloc: Global, session: Name, txn: Txn) -> Result<(), GrowFault>
        ensures added { OnOk result (self.new ≡ with_transaction self.old session txn) }
        ensures kept { OnErr result (self.new ≡ self.old) }
        ensures refused { IsWithinLimits B.limits (with_transaction self.old session txn) → IfErr result (λ k. k ≡ GrowFault.NoMemory) }
    {
        self.add_told(alloc, session, txn, KeyHints::none())
    }

    /// The session has finished one more transaction, exactly as with `add`. The given numbers of keys save look-ups. Each is
    /// compared, so nothing else depends on them.
    pub fn add_told(
        &mut self,
        alloc: Global,
        session: Name,
        txn: Txn,
        told: KeyHints<'_>,
    ) -> Result<(), GrowFault>
        ensures added { OnOk result (self.new ≡ with_transaction self.old session txn) }
        ensures kept { OnErr result (self.new ≡ self.old) }
        ensures refused { IsWithinLimits B.limits (with_transaction self.old session txn) → IfErr result (λ k. k ≡ GrowFault.NoMemory) }
    {
        let limits = B::limits();
        if self.transactions >= limits.transactions() {
            return Err(GrowFault::TooManyTransactions);
        }
        match self.sessions.add(limits, alloc, session, txn, told) {
            Ok(()) => {
                self.transactions += 1;
                Ok(())
            }
            Err(kind) => Err(kind),
        }
    }

    /// The snapshot in which each named session has finished these transactions. If they make none, the error says why and
    /// returns them as they were.
    pub fn new(
        parts: Vec<(Name, Vec<Txn>)>,
    ) -> Result<SnapshotWithin<B>, (SnapshotFault, Vec<(Name, Vec<Txn>)>)>
        ensures { MatchResult result
            (λ s. (snapshot_fault_within B.limits (parts_of parts.items) ≡ None) × (s ≡ sessions.from_entries (parts_of parts.items)))
            (λ e. (snapshot_fault_within B.limits (parts_of parts.items) ≡ Some e.0) × (e.1 ≡ parts)) }
    {
        let sessions = in_order(parts, B::limits())?;
        let transactions = transactions_in(&sessions);
        Ok(SnapshotWithin {
            sessions: Storage::Plain(sessions),
            transactions,
            bounds: PhantomData,
        })
    }

    /// How many sessions there are.
    pub fn sessions(&self) -> u32
        ensures value { result ≡ sessions.len self.now }
        ensures few { result ≤ most_sessions B.limits }
        ensures few_transactions { transaction_count self.now ≤ most_transactions B.limits }
    {
        self.sessions.len() as u32
    }

    /// How many transactions they have finished in all.
    pub fn transactions(&self) -> usize
        ensures value { result ≡ transaction_count self.now }
        ensures few { result ≤ most_transactions B.limits }
    {
        self.transactions
    }

    /// The name of the session at this index in byte order of the names.
    pub fn name(&self, i: u32) -> Option<&Name>
        ensures { option_map (λ name. name.now) result ≡ option_map (λ named. named.0) (slice_get (sessions.entries self.now) i) }
    {
        self.sessions.name(i)
    }

    /// How many transactions the session at this index has finished; none past the last session.
    pub fn finished(&self, i: u32) -> usize
        ensures value { result ≡ length (finished_at self.now i) }
        ensures few { result ≤ most_transactions B.limits }
    {
        self.sessions.finished(i)
    }

    /// The transaction at an index, counted from 0, of the session at the index `i`.
    pub fn recorded(&self, i: u32, index: usize) -> Option<Recorded<'_>>
        ensures { result ≡ slice_get (finished_at self.now i) index }
    {
        self.sessions.recorded(i, index)
    }

    /// The keys, and the number of the key of each operation: by session in byte order of the names, by transaction and by
    /// position.
    pub fn key_numbers(&self, alloc: Global) -> Result<KeyNumbers, NoMemory>
        ensures { IfOk result (λ keys. AreNumbers keys.names.items keys.numbers.items (keys_in (sessions.entries self.now))) }
    {
        self.sessions.key_numbers(alloc)
    }

    /// Whether the snapshots are equal.
    pub fn is_same(&self, other: &SnapshotWithin<B>) -> bool
        ensures same { result ≡ true → self.now ≡ other.now }
        ensures other { result ≡ false → self.now ≡ other.now → ⊥ }
    {
        if self.sessions() != other.sessions() {
            return false;
        }
        for i in 0..self.sessions() {
            if !is_same_session(self, other, i) {
                return false;
            }
        }
        true
    }
}

impl SnapshotWithin<SmallLimits> {
    /// The sessions, by reference.
    fn plain(&self) -> &[(Name, Vec<Txn>)]
        ensures value { parts_of result.now ≡ sessions.entries self.now }
        ensures few { length result.now ≤ MAX_SESSIONS }
        ensures few_transactions { transaction_count self.now ≤ MAX_TRANSACTIONS }
    {
        match &self.sessions {
            Storage::Plain(parts) => parts,
            Storage::Packed(_) => unreachable!(),
        }
    }

    /// The session at this index in byte order of the names, with its transactions.
    pub fn session(&self, i: u32) -> Option<(&Name, &[Txn])>
        ensures { option_map (λ s. (s.0.now, s.1.now)) result ≡ slice_get (sessions.entries self.now) i }
    {
        part_at(self.plain(), i)
    }

    /// The sessions in byte order of their names, each with its transactions.
    pub fn parts(&self) -> &[(Name, Vec<Txn>)]
        ensures value { parts_of result.now ≡ sessions.entries self.now }
        ensures few { length result.now ≤ MAX_SESSIONS }
        ensures few_transactions { transaction_count self.now ≤ MAX_TRANSACTIONS }
    {
        self.plain()
    }

    /// It keeps the small limits, for callers that need this fact.
    pub fn keeps_limits(&self)
        ensures { KeepsLimits self.now }
    {
        let _sessions = self.sessions();
    }

    /// These sessions as a large snapshot.
    pub fn large(self) -> LargeSnapshot
        ensures { result ≡ self }
    {
        SnapshotWithin {
            sessions: self.sessions,
            transactions: self.transactions,
            bounds: PhantomData,
        }
    }
}

impl SnapshotWithin<LargeLimits> {
    /// Whether it keeps the small limits.
    fn is_small(&self) -> bool
        ensures { IsTrue result ↔ KeepsLimits self.now }
    {
        let sessions = self.sessions() as usize;
        let transactions = self.transactions();
        sessions <= MAX_SESSIONS && transactions <= MAX_TRANSACTIONS
    }

    /// A copy within the small limits, if it keeps them.
    pub fn small_copy(&self, alloc: Global) -> Result<Option<Snapshot>, NoMemory>
        ensures { IfOk result (λ found. MatchOption found (KeepsLimits self.now → ⊥) (λ small. KeepsLimits self.now × (small ≡ self.now))) }
    {
        if !self.is_small() {
            return Ok(None);
        }
        Ok(Some(SnapshotWithin {
            sessions: Storage::Plain(copied_parts(alloc, self)?),
            transactions: self.transactions,
            bounds: PhantomData,
        }))
    }
}
