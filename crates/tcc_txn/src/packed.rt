//! Sessions as a large snapshot holds them. Each key is in a symbol table once. An operation has its number there and takes 16
//! bytes. The operations of a session follow one another, as the edges of an adjacency list in compressed rows. One more
//! transaction costs a look-up for each of its operations, unless the caller gives the number of its key.
ghost use Rattle.std.specs.Prelude.{◌≡◌, ◌≤◌, ◌<◌, ◌⊎◌, ◌++◌, ◌∷◌, [], T, List, None, IfErr, IfOk, OnErr, OnOk, length, option_map, slice_get};
ghost use Rattle.std.specs.Prelude.{unwrap_or, ◌+◌, All, flat_map, map};
ghost use Rattle.std.specs.Cmp.Lexicographic.{slice_cmp};
ghost use Rattle.std.specs.FinMap.Entries.{find, is_sorted, put};
ghost use Rattle.std.specs.List.{insert};
ghost use Rattle.std.specs.Ordering.{nat_cmp};
ghost use Rattle.tcc_txn.specs.{Limits.most_sessions, Nested.IsPrefix, Snapshots.listed_at, KeyNumbers.AreNumbers, KeyNumbers.keys_in, declared.packed.PackedOp.PackedOp};
ghost use Rattle.tcc_txn.specs.private.Packing.{AllPacked, ArePacked, PacksOps, numbers_at, numbers_of, op_in, sessions_in, txns_in};

use crate::by_name::part_of;
use crate::symbols::{SymbolTable, number_of};
use crate::{GrowFault, KeyHints, KeyNumbers, Limits, Name, NoMemory, Op, Recorded, Txn};
use std::alloc::Global;
use std::marker::Model;

/// An operation that has the number of its key.
#[derive(Clone, Copy)]
pub(crate) struct PackedOp {
    key: u32,
    is_put: bool,
    value: u64,
}

const _: () = prove!(size_of::<PackedOp>() == 16);

/// Which of the operations of its session are those of a transaction, and how it ended.
#[derive(Clone, Copy)]
pub(crate) struct Span {
    start: u32,
    len: u16,
    committed: bool,
}

const _: () = prove!(size_of::<Span>() == 8);

/// The transactions of a session.
#[derive(Drop)]
pub(crate) struct PackedTxns {
    ops: Vec<PackedOp>,
    spans: Vec<Span>,
}

/// Sessions with their transactions.
#[derive(Drop)]
pub(crate) struct PackedSessions {
    keys: SymbolTable,
    sessions: Vec<(Name, PackedTxns)>,
}

impl Model for PackedSessions {
    ghost use Rattle.std.specs.Prelude.{ℕ, List};
    ghost use Rattle.std.specs.Coded.{coded×, coded_list, coded_ℕ};
    ghost use Rattle.tcc_txn.specs.{Transactions.Transaction, private.SnapshotStorage.transaction_code, private.Packing.AllPacked, private.Packing.sessions_in};

    ghost Value = { List (List ℕ × List Transaction) };

    ghost coded = { coded_list (coded× (coded_list coded_ℕ) (coded_list transaction_code)) };

    ghost view = { λ p. sessions_in p.keys p.sessions.items };

    ghost invariant = { λ p. AllPacked p.keys p.sessions.items };
}

impl PackedOp {
    /// The operation, with the name of its key.
    pub(crate) fn named(&self, keys: &[Name]) -> Op
        requires { self.now.key < length keys.now }
        ensures { result ≡ op_in keys.now self.now }
    {
        let key = keys[self.key as usize];
        let value = self.value;
        if self.is_put {
            Op::Put { key, value }
        } else {
            Op::Get { key, value }
        }
    }
}

/// The operation with the number of its key, which is added to the table if it is new. The number is the one given, or looked
/// up.
fn pack(keys: &mut SymbolTable, op: &Op, told: Option<u32>) -> Result<PackedOp, NoMemory>
    ensures within { IfOk result (λ packed. packed.key < length keys.new) }
    ensures same { IfOk result (λ packed. op_in keys.new packed ≡ op.now) }
    ensures more { IsPrefix keys.old keys.new }
{
    let key = keys.number_from(op.key(), told)?;
    Ok(PackedOp {
        key,
        is_put: matches!(op, Op::Put { .. }),
        value: op.value(),
    })
}

/// Appends operations, packed.
fn pack_each(
    keys: &mut SymbolTable,
    packed: &mut Vec<PackedOp>,
    ops: &[Op],
    numbers: &[u32],
) -> Result<(), NoMemory>
    ensures packed { OnOk result ((more : List PackedOp) × (packed.new.items ≡ packed.old.items ++ more) × PacksOps keys.new more ops.now) }
    ensures behind { IsPrefix packed.old.items packed.new.items }
    ensures more { IsPrefix keys.old keys.new }
{
    let mut told = numbers.iter();
    for op in ops {
        let op = pack(keys, op, told.next().copied())?;
        packed.push(op)?;
    }
    Ok(())
}

/// Appends one more transaction of a session. Where memory is refused, some of its operations may be left after those that
/// were there.
fn pack_behind(
    keys: &mut SymbolTable,
    txns: &mut PackedTxns,
    txn: &Txn,
    told: KeyHints<'_>,
) -> Result<(), NoMemory>
    requires { ArePacked keys.old txns.old }
    ensures added { OnOk result (txns_in keys.new txns.new ≡ txns_in keys.old txns.old ++ txn.now ∷ []) }
    ensures packed { OnOk result (ArePacked keys.new txns.new) }
    ensures behind { IsPrefix txns.old.ops.items txns.new.ops.items }
    ensures spans { OnErr result (txns.new.spans.items ≡ txns.old.spans.items) }
    ensures more { IsPrefix keys.old keys.new }
{
    let ops = txn.ops();
    let start = number_of(txns.ops.len())?;
    keys.learn(told.names_from(keys.len()))?;
    pack_each(keys, &mut txns.ops, ops, told.numbers)?;
    txns.spans.push(Span {
        start,
        len: ops.len() as u16,
        committed: txn.committed(),
    })?;
    Ok(())
}

/// Appends one more transaction of a session. Where memory is refused, the transactions stay as they were.
fn push_packed(
    keys: &mut SymbolTable,
    txns: &mut PackedTxns,
    txn: &Txn,
    told: KeyHints<'_>,
) -> Result<(), GrowFault>
    requires { ArePacked keys.old txns.old }
    ensures added { OnOk result (txns_in keys.new txns.new ≡ txns_in keys.old txns.old ++ txn.now ∷ []) }
    ensures kept { OnErr result (txns_in keys.new txns.new ≡ txns_in keys.old txns.old) }
    ensures packed { ArePacked keys.new txns.new }
    ensures more { IsPrefix keys.old keys.new }
    ensures refused { IfErr result (λ k. k ≡ GrowFault.NoMemory) }
{
    let count = txns.ops.len();
    match pack_behind(keys, txns, txn, told) {
        Ok(()) => Ok(()),
        Err(_) => {
            txns.ops.truncate(count);
            Err(GrowFault::NoMemory)
        }
    }
}

/// The transactions of a session that has only this one.
fn first_packed(
    keys: &mut SymbolTable,
    alloc: Global,
    txn: &Txn,
    told: KeyHints<'_>,
) -> Result<PackedTxns, GrowFault>
    ensures first { IfOk result (λ txns. txns_in keys.new txns ≡ txn.now ∷ []) }
    ensures packed { IfOk result (λ txns. ArePacked keys.new txns) }
    ensures more { IsPrefix keys.old keys.new }
    ensures refused { IfErr result (λ k. k ≡ GrowFault.NoMemory) }
{
    let mut txns = PackedTxns {
        ops: Vec::new(alloc),
        spans: Vec::new(alloc),
    };
    push_packed(keys, &mut txns, txn, told)?;
    Ok(txns)
}

/// The session has one more transaction.
fn add_packed(
    keys: &mut SymbolTable,
    parts: &mut Vec<(Name, PackedTxns)>,
    limits: Limits,
    alloc: Global,
    session: Name,
    txn: &Txn,
    told: KeyHints<'_>,
) -> Result<(), GrowFault>
    requires sorted { T (is_sorted (slice_cmp nat_cmp) parts.old.items) }
    requires packed { AllPacked keys.old parts.old.items }
    ensures added { OnOk result (sessions_in keys.new parts.new.items ≡ put (slice_cmp nat_cmp) session
        (unwrap_or (find (slice_cmp nat_cmp) session (sessions_in keys.old parts.old.items)) [] ++ txn.now ∷ []) (sessions_in keys.old parts.old.items)) }
    ensures kept { OnErr result (sessions_in keys.new parts.new.items ≡ sessions_in keys.old parts.old.items) }
    ensures few { OnOk result ((find (slice_cmp nat_cmp) session (sessions_in keys.old parts.old.items) ≡ None) → length parts.old.items < most_sessions limits) }
    ensures refused { IfErr result
        (λ k. (k ≡ GrowFault.NoMemory) ⊎ ((most_sessions limits ≤ length parts.old.items)
        × (find (slice_cmp nat_cmp) session (sessions_in keys.old parts.old.items) ≡ None))) }
    ensures packed { AllPacked keys.new parts.new.items }
{
    match part_of(parts, &session) {
        Ok(at) => push_packed(keys, &mut parts[at].1, txn, told),
        Err(at) => {
            if parts.len() >= limits.sessions() {
                return Err(GrowFault::TooManySessions);
            }
            let first = first_packed(keys, alloc, txn, told)?;
            parts.insert(at, (session, first))?;
            Ok(())
        }
    }
}

/// The transaction at the index.
fn packed_at<'a>(keys: &'a [Name], txns: &'a PackedTxns, index: usize) -> Option<Recorded<'a>>
    requires { ArePacked keys.now txns.now }
    ensures { result ≡ slice_get (txns_in keys.now txns.now) index }
{
    match txns.spans.get(index) {
        Some(span) => {
            let start = span.start as usize;
            let ops = &txns.ops[start..start + span.len as usize];
            Some(Recorded::packed(keys, ops, span.committed))
        }
        None => None,
    }
}

/// Adds the numbers of the keys of some operations.
fn push_numbers(numbers: &mut Vec<u32>, ops: &[PackedOp]) -> Result<(), NoMemory>
    ensures { OnOk result (numbers.new.items ≡ numbers.old.items ++ map (λ op. op.key) ops.now) }
{
    for op in ops {
        numbers.push(op.key)?;
    }
    Ok(())
}

/// Adds the numbers of the keys of the operations of a session.
fn push_numbers_of(numbers: &mut Vec<u32>, txns: &PackedTxns) -> Result<(), NoMemory>
    requires { All (λ span. span.start + span.len ≤ length txns.now.ops.items) txns.now.spans.items }
    ensures { OnOk result (numbers.new.items ≡ numbers.old.items ++ numbers_of txns.now) }
{
    for span in &txns.spans {
        let start = span.start as usize;
        push_numbers(numbers, &txns.ops[start..start + span.len as usize])?;
    }
    Ok(())
}

/// The numbers of the keys of the operations of some sessions.
fn numbers_in(
    alloc: Global,
    keys: &[Name],
    sessions: &[(Name, PackedTxns)],
) -> Result<Vec<u32>, NoMemory>
    requires { AllPacked keys.now sessions.now }
    ensures { IfOk result (λ numbers. AreNumbers keys.now numbers.items (keys_in (sessions_in keys.now sessions.now))) }
{
    let mut numbers = Vec::new(alloc);
    for part in sessions {
        push_numbers_of(&mut numbers, &part.1)?;
    }
    Ok(numbers)
}

impl PackedSessions {
    /// The keys, and the number of the key of each operation.
    pub(crate) fn key_numbers(&self, alloc: Global) -> Result<KeyNumbers, NoMemory>
        ensures { IfOk result (λ keys. AreNumbers keys.names.items keys.numbers.items (keys_in self.now)) }
    {
        let names = self.keys.names();
        Ok(KeyNumbers {
            names: names.iter().copied().collect(alloc)?,
            numbers: numbers_in(alloc, names, &self.sessions)?,
        })
    }

    /// No sessions.
    pub(crate) fn new(alloc: Global) -> PackedSessions
        ensures { result ≡ [] }
    {
        PackedSessions {
            keys: SymbolTable::new(alloc),
            sessions: Vec::new(alloc),
        }
    }

    /// How many sessions there are.
    pub(crate) fn len(&self) -> usize
        ensures { result ≡ length self.now }
    {
        self.sessions.len()
    }

    /// The name of the session at the index.
    pub(crate) fn name(&self, i: u32) -> Option<&Name>
        ensures { option_map (λ name. name.now) result ≡ option_map (λ named. named.0) (slice_get self.now i) }
    {
        match self.sessions.get(i as usize) {
            Some(part) => Some(&part.0),
            None => None,
        }
    }

    /// How many transactions the session at the index has; none past the last session.
    pub(crate) fn finished(&self, i: u32) -> usize
        ensures { result ≡ length (listed_at self.now i) }
    {
        match self.sessions.get(i as usize) {
            Some(part) => part.1.spans.len(),
            None => 0,
        }
    }

    /// The transaction at an index, counted from 0, of the session at the index `i`.
    pub(crate) fn recorded(&self, i: u32, index: usize) -> Option<Recorded<'_>>
        ensures { result ≡ slice_get (listed_at self.now i) index }
    {
        match self.sessions.get(i as usize) {
            Some(part) => packed_at(self.keys.names(), &part.1, index),
            None => None,
        }
    }

    /// The session has one more transaction.
    pub(crate) fn add(
        &mut self,
        limits: Limits,
        alloc: Global,
        session: Name,
        txn: &Txn,
        told: KeyHints<'_>,
    ) -> Result<(), GrowFault>
        requires { T (is_sorted (slice_cmp nat_cmp) self.old) }
        ensures added { OnOk result (self.new ≡ put (slice_cmp nat_cmp) session (unwrap_or (find (slice_cmp nat_cmp) session self.old) [] ++ txn.now ∷ []) self.old) }
        ensures kept { OnErr result (self.new ≡ self.old) }
        ensures few { OnOk result ((find (slice_cmp nat_cmp) session self.old ≡ None) → length self.old < most_sessions limits) }
        ensures refused { IfErr result
            (λ k. (k ≡ GrowFault.NoMemory) ⊎ ((most_sessions limits ≤ length self.old) × (find (slice_cmp nat_cmp) session self.old ≡ None))) }
    {
        add_packed(
            &mut self.keys,
            &mut self.sessions,
            limits,
            alloc,
            session,
            txn,
            told,
        )
    }
}
