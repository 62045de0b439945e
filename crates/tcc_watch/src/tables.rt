//! The tables of a history that grows at its end: the session and place of each transaction, and what has to come before it. They
//! say so by causal pairs alone (vector clocks of Fidge and Mattern), and by derived links too.
ghost use Rattle.std.specs.Prelude.{◌≡◌, ◌≤◌, ◌==◌, ◌++◌, ◌∷◌, [], ℕ, length, IfOk, OnOk, if◌then◌else◌};
ghost use Rattle.tcc_graph.specs.Tables.{row_of};
ghost use Rattle.tcc_watch.specs.private.Tables.{Arriving, previous_in, parents_in, CanArrive, HasArrived};

use crate::at::At;
use crate::places::{Places, row_over};
use std::alloc::Global;
use tcc_bits::Row;
use tcc_txn::{Name, NoMemory};

/// What has to come before what among the transactions so far; each list has them by number.
#[derive(Drop)]
pub(crate) struct Tables {
    pub stands: Vec<At>,
    /// Of each session the numbers of its transactions, ascending.
    pub members: Vec<Row<u32>>,
    /// How far each session has to come before them by causal pairs.
    pub clocks: Vec<Places>,
    /// How far by links of all kinds.
    pub closure: Vec<Places>,
}

/// The last transaction of a session so far, or `init`.
fn previous(members: &[Row<u32>], session: u32) -> u32
    ensures { result ≡ previous_in members.now session }
{
    match members.get(session as usize) {
        Some(numbers) => match numbers.as_slice().last() {
            Some(number) => *number,
            None => 0,
        },
        None => 0,
    }
}

/// The transactions right before one of a session with these reads.
pub(crate) fn parents(
    alloc: Global,
    members: &[Row<u32>],
    session: u32,
    reads: &[(Name, u32)],
) -> Result<Vec<u32>, NoMemory>
    ensures { IfOk result (λ parents. parents.items ≡ parents_in members.now session reads.now) }
{
    let mut parents = Vec::new(alloc);
    parents.push(previous(members, session))?;
    for read in reads {
        parents.push(read.1)?;
    }
    Ok(parents)
}

/// Rows for `len` sessions.
fn extend(alloc: Global, members: &mut Vec<Row<u32>>, len: usize) -> Result<(), NoMemory>
    ensures long { OnOk result (len ≤ length members.new.items) }
    ensures same { OnOk result ((session : ℕ) → row_of members.new.items session ≡ row_of members.old.items session) }
{
    for _session in members.len()..len {
        members.push(Row::new(Vec::new(alloc)))?;
    }
    Ok(())
}

/// One more transaction of a session.
fn add_member(
    alloc: Global,
    members: &mut Vec<Row<u32>>,
    session: u32,
    number: u32,
) -> Result<(), NoMemory>
    ensures { OnOk result ((other : ℕ) → row_of members.new.items other
        ≡ (if other == session then row_of members.old.items other ++ number ∷ [] else row_of members.old.items other)) }
{
    extend(alloc, members, session as usize + 1)?;
    members[session as usize].push(number)?;
    Ok(())
}

impl Tables {
    /// Takes in a transaction by its session and place, after those right before it; its derived links are not made yet.
    pub(crate) fn arrive(
        &mut self,
        alloc: Global,
        number: u32,
        at: At,
        parents: &[u32],
    ) -> Result<(), NoMemory>
        ghost arriving: { Arriving }
        requires { CanArrive arriving self.old number at parents.now }
        ensures { OnOk result (HasArrived arriving self.new) }
    {
        let clock = row_over(alloc, &self.clocks, parents, at)?;
        let row = row_over(alloc, &self.closure, parents, at)?;
        self.clocks.push(clock)?;
        self.closure.push(row)?;
        self.stands.push(at)?;
        add_member(alloc, &mut self.members, at.session, number)?;
        Ok(())
    }
}
