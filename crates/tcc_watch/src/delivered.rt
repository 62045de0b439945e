//! Whether a history is consistent, decided at `Causal` as it grows. A transaction comes after all that it needs. So its clock is
//! final, and it is the reader of each new derived link. For S sessions a read takes O(S log N) steps. Each link that wasn't known
//! takes O(S log N) more, and S for each row that it raises.
ghost use Rattle.std.specs.Prelude.{ℕ, List, IfOk};
ghost use Rattle.tcc_watch.specs.private.Links.{IsLinked, Reading};
ghost use Rattle.tcc_watch.specs.private.Tables.{Arriving};
ghost use Rattle.tcc_watch.specs.private.Delivering.{CanLinkKey, CanLinkReads, AreReadsLinked, CanDeliver, HasDelivered, IsState, before_all};

use crate::at::At;
use crate::linking::link_read;
use crate::places::Places;
use crate::tables::{Tables, parents};
use crate::writers::{WriterLists, note_writes};
use std::alloc::Global;
use tcc_bits::Row;
use tcc_txn::{Name, NoMemory};

/// What is known of a history as far as it has come.
#[derive(Drop)]
pub(crate) struct Delivered {
    pub tables: Tables,
    pub writers: WriterLists,
}

/// Makes the derived links that a read brings; false where one of them closes a cycle.
fn link_key(
    alloc: Global,
    closure: &mut [Places],
    stands: &[At],
    members: &[Row<u32>],
    writers: &WriterLists,
    clock: &Places,
    read: &(Name, u32),
) -> Result<bool, NoMemory>
    ghost reading: { Reading }
    requires { CanLinkKey reading closure.old stands.now members.now writers.now clock.now read.now.0 read.now.1 }
    ensures { IfOk result (IsLinked reading closure.old closure.new read.now.1) }
{
    link_read(
        alloc,
        closure,
        stands,
        members,
        writers.lists(&read.0),
        clock,
        read.1,
    )
}

/// Makes the derived links that some reads bring; false where one of them closes a cycle.
fn link_reads(
    alloc: Global,
    closure: &mut [Places],
    stands: &[At],
    members: &[Row<u32>],
    writers: &WriterLists,
    clock: &Places,
    reads: &[(Name, u32)],
) -> Result<bool, NoMemory>
    ghost arriving: { Arriving }
    requires { CanLinkReads arriving closure.old stands.now members.now writers.now clock.now reads.now }
    ensures { IfOk result (AreReadsLinked arriving closure.old closure.new reads.now) }
{
    for read in reads {
        if !link_key(alloc, closure, stands, members, writers, clock, read)? {
            return Ok(false);
        }
    }
    Ok(true)
}

impl Delivered {
    /// The history with `init` alone.
    pub(crate) fn new(alloc: Global) -> Result<Delivered, NoMemory>
        ensures { (sessions : List (List ℕ)) → IfOk result (IsState (before_all sessions)) }
    {
        let mut stands = Vec::new(alloc);
        stands.push(At {
            session: 0,
            place: 0,
        })?;
        let mut clocks = Vec::new(alloc);
        clocks.push(Places::new(alloc))?;
        let mut closure = Vec::new(alloc);
        closure.push(Places::new(alloc))?;
        let tables = Tables {
            stands,
            members: Vec::new(alloc),
            clocks,
            closure,
        };
        Ok(Delivered {
            tables,
            writers: WriterLists::new(alloc),
        })
    }

    /// Takes in a transaction that comes after all that it needs; false where the history has a cycle with it.
    pub(crate) fn deliver(
        &mut self,
        alloc: Global,
        at: At,
        writes: &[Name],
        reads: &[(Name, u32)],
    ) -> Result<bool, NoMemory>
        ghost arriving: { Arriving }
        requires { CanDeliver arriving self.old at writes.now reads.now }
        ensures { IfOk result (HasDelivered arriving self.new) }
    {
        let Ok(number) = u32::try_from(self.tables.stands.len()) else {
            return Err(NoMemory);
        };
        let before = parents(alloc, &self.tables.members, at.session, reads)?;
        self.tables.arrive(alloc, number, at, &before)?;
        let in_order = link_reads(
            alloc,
            &mut self.tables.closure,
            &self.tables.stands,
            &self.tables.members,
            &self.writers,
            &self.tables.clocks[number as usize],
            reads,
        )?;
        note_writes(alloc, &mut self.writers, at, number, writes)?;
        Ok(in_order)
    }
}
