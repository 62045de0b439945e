//! What comes before the transactions that are kept, as links are made between them. Each has a row by its slot: of each session the
//! place up to which its transactions come before it, kept or not. A new link raises the row of its end and all rows that go to that. For
//! N kept transactions of S sessions that takes N comparisons, and S steps for each row that is raised.
ghost use Rattle.std.specs.Prelude.{◌≡◌, ◌++◌, ℕ, [], length, slice_index, IfOk, OnOk};
ghost use Rattle.std.specs.Option.{option_to_list};
ghost use Rattle.tcc_reads.specs.History.{History};
ghost use Rattle.tcc_graph.specs.Tables.{row_of};
ghost use Rattle.tcc_forget.specs.Slots.{AreWide, AreTables, CanArrive, Coming, HasArrived, Reaches, tables_of};
ghost use Rattle.tcc_forget.specs.private.Linking.{AreRaised, AreReadsDone, CanCompare, CanLink, CanLinkOne, CanLinkRead, CanLinkReads, CanSettle, IsDoneBy, IsOutcome, IsPassedBy, OrdersListed, OrdersOne, parents_in};

use crate::at::SessionPlace;
use crate::reach::{ReachRow, row_over};
use std::alloc::Global;
use tcc_txn::NoMemory;

/// A read of a key by a transaction that comes: the slots of the writers that are listed there, and which of them it reads from. There is
/// no such source where it reads from the top of the key or from `init`.
#[derive(Drop)]
pub struct SlotReading {
    pub source: Option<u32>,
    pub listed: Vec<u32>,
}

/// Raises each row that goes to a place.
fn raise(rows: &mut [ReachRow], row: &ReachRow, a: SessionPlace)
    ghost sessions: { ℕ }
    requires wide { AreWide sessions rows.old }
    requires long { length row.now ≡ sessions }
    ensures { AreRaised a row.now rows.old rows.new }
{
    for each in rows.iter_mut() {
        if each.goes_to(a) {
            each.raise(row);
        }
    }
}

/// Makes `b` come before `a`, unless it does already; false where `a` comes before `b`.
fn settle(
    alloc: Global,
    rows: &mut [ReachRow],
    ats: &[SessionPlace],
    b: u32,
    a: u32,
) -> Result<bool, NoMemory>
    ghost on: { Coming }
    requires { CanSettle on rows.old ats.now b a }
    ensures done { IfOk result (IsOutcome on rows.old rows.new (Reaches on.history (row_of rows.new a) (slice_index on.numbers b))) }
    ensures wide { OnOk result (AreWide on.sessions rows.new) }
{
    if rows[a as usize].goes_to(ats[b as usize]) {
        return Ok(true);
    }
    if rows[b as usize].goes_to(ats[a as usize]) {
        return Ok(false);
    }
    let row = rows[b as usize].copy(alloc)?;
    raise(rows, &row, ats[a as usize]);
    Ok(true)
}

/// Whether a clock goes to one of the listed writers of a key.
fn is_passed(ats: &[SessionPlace], clock: &ReachRow, listed: &[u32]) -> bool
    ghost on: { Coming }
    requires { CanCompare on ats.now clock.now listed.now }
    ensures { IsPassedBy on listed.now result }
{
    for b in listed {
        if clock.goes_to(ats[*b as usize]) {
            return true;
        }
    }
    false
}

/// Makes `b` come before `a` if it is another one and a clock goes to it; false where that closes a cycle.
fn link_one(
    alloc: Global,
    rows: &mut [ReachRow],
    ats: &[SessionPlace],
    clock: &ReachRow,
    b: u32,
    a: u32,
) -> Result<bool, NoMemory>
    ghost on: { Coming }
    requires { CanLinkOne on rows.old ats.now clock.now b a }
    ensures done { IfOk result (IsOutcome on rows.old rows.new (OrdersOne on rows.new b a)) }
    ensures wide { OnOk result (AreWide on.sessions rows.new) }
{
    if b == a {
        return Ok(true);
    }
    if !clock.goes_to(ats[b as usize]) {
        return Ok(true);
    }
    settle(alloc, rows, ats, b, a)
}

/// Makes the listed writers of a key to which a clock goes come before `a`, one of them; false where that closes a cycle.
fn link_listed(
    alloc: Global,
    rows: &mut [ReachRow],
    ats: &[SessionPlace],
    clock: &ReachRow,
    listed: &[u32],
    a: u32,
) -> Result<bool, NoMemory>
    ghost on: { Coming }
    requires { CanLink on rows.old ats.now clock.now listed.now a }
    ensures done { IfOk result (IsOutcome on rows.old rows.new (OrdersListed on rows.new listed.now a)) }
    ensures wide { OnOk result (AreWide on.sessions rows.new) }
{
    for b in listed {
        if !link_one(alloc, rows, ats, clock, *b, a)? {
            return Ok(false);
        }
    }
    Ok(true)
}

/// Makes the links of a read; false where it contradicts, or where one of them closes a cycle.
fn link_read(
    alloc: Global,
    rows: &mut [ReachRow],
    ats: &[SessionPlace],
    clock: &ReachRow,
    read: &SlotReading,
) -> Result<bool, NoMemory>
    ghost on: { Coming }
    requires { CanLinkRead on rows.old ats.now clock.now read.now }
    ensures done { IfOk result (IsOutcome on rows.old rows.new (IsDoneBy on rows.new read.now)) }
    ensures wide { OnOk result (AreWide on.sessions rows.new) }
{
    match read.source {
        Some(source) => link_listed(alloc, rows, ats, clock, &read.listed, source),
        None => Ok(!is_passed(ats, clock, &read.listed)),
    }
}

/// Makes the links of all reads; false where one of them contradicts, or where a link closes a cycle.
fn link_reads(
    alloc: Global,
    rows: &mut [ReachRow],
    ats: &[SessionPlace],
    clock: &ReachRow,
    reads: &[SlotReading],
) -> Result<bool, NoMemory>
    ghost on: { Coming }
    requires { CanLinkReads on rows.old ats.now clock.now reads.now }
    ensures done { IfOk result (IsOutcome on rows.old rows.new (AreReadsDone on rows.new)) }
    ensures wide { OnOk result (AreWide on.sessions rows.new) }
{
    for read in reads {
        if !link_read(alloc, rows, ats, clock, read)? {
            return Ok(false);
        }
    }
    Ok(true)
}

/// Adds a slot, if there is one.
fn push_some(slots: &mut Vec<u32>, slot: Option<u32>) -> Result<(), NoMemory>
    ensures { OnOk result (slots.new.items ≡ slots.old.items ++ option_to_list slot) }
{
    if let Some(slot) = slot {
        slots.push(slot)?;
    }
    Ok(())
}

/// The slots of what is right before a transaction: the last one of its session, and the listed writers that it reads from.
fn parents(alloc: Global, last: Option<u32>, reads: &[SlotReading]) -> Result<Vec<u32>, NoMemory>
    ensures { IfOk result (λ parents. parents.items ≡ parents_in last reads.now) }
{
    let mut parents = Vec::new(alloc);
    push_some(&mut parents, last)?;
    for read in reads {
        push_some(&mut parents, read.source)?;
    }
    Ok(parents)
}

/// What is kept of each transaction, by slot: where it is in its session, what it has observed, and what comes before it.
#[derive(Drop)]
pub struct Slots {
    sessions: usize,
    ats: Vec<SessionPlace>,
    observed: Vec<ReachRow>,
    before: Vec<ReachRow>,
}

impl Slots {
    /// Nothing is kept yet of so many sessions.
    pub fn new(alloc: Global, sessions: usize) -> Slots
        ensures tables { (h : History) → AreTables h [] (tables_of result) }
        ensures sessions { result.sessions ≡ sessions }
    {
        Slots {
            sessions,
            ats: Vec::new(alloc),
            observed: Vec::new(alloc),
            before: Vec::new(alloc),
        }
    }

    /// Takes in the next transaction of a session, by the slot of the one before it and by its reads; false where the history has a cycle
    /// with it. Its own slot is the next one. Once this was false, or memory was refused, the tables serve no more.
    pub fn arrive(
        &mut self,
        alloc: Global,
        at: SessionPlace,
        last: Option<u32>,
        reads: &[SlotReading],
    ) -> Result<bool, NoMemory>
        ghost on: { Coming }
        requires { CanArrive on (tables_of self.old) at last reads.now }
        ensures arrived { IfOk result (HasArrived on (tables_of self.new)) }
        ensures sessions { OnOk result (self.new.sessions ≡ self.old.sessions) }
    {
        let before = parents(alloc, last, reads)?;
        let clock = row_over(alloc, self.sessions, &self.observed, &before, at)?;
        if !link_reads(alloc, &mut self.before, &self.ats, &clock, reads)? {
            return Ok(false);
        }
        let row = row_over(alloc, self.sessions, &self.before, &before, at)?;
        self.ats.push(at)?;
        self.observed.push(clock)?;
        self.before.push(row)?;
        Ok(true)
    }
}
