//! The cut of a snapshot by needs: of each transaction that has a need the operations that are needed, in their order.
ghost use Rattle.std.specs.Prelude.{◌≡◌, ◌<◌, ◌++◌, ◌∷◌, [], if◌then◌else◌, List, None, Some, true, IfOk, IfSome, MatchOption, OnOk, length};
ghost use Rattle.tcc_reads.specs.Sources.{visible_write, history};
ghost use Rattle.tcc_txn.specs.Transactions.{Transaction};
ghost use Rattle.tcc_graph.specs.declared.link.Link.{Link};
ghost use Rattle.tcc_slices.specs.{Cuts.IsCutOf, Limits.NeedTooMuch, private.Carrying.IsRising, private.Needing.AreByNumber};
ghost use Rattle.tcc_slices.specs.private.Cutting.{AreMetBy, IsCut, IsNamed, IsNameless, IsPartOf, is_among, is_free, is_wanted, kept_behind, own_needs, recorded_of, same_op, wanted_by, wanted_of};

use crate::needs::Need;
use std::alloc::Global;
use tcc_graph::{LargeGraph, source_value};
use tcc_txn::{
    Alike, Bounds, GrowFault, Name, NoMemory, Op, Recorded, Snapshot, SnapshotWithin, Txn,
};

/// What is cut: a snapshot, and the graph that has its transactions by numbers.
#[derive(Drop)]
struct Whole<'a, B: Bounds> {
    snapshot: &'a SnapshotWithin<B>,
    graph: &'a LargeGraph,
}

/// The value that operations write visibly at a key.
fn visible_write(ops: &[Op], key: &Name) -> Option<u64>
    ensures { result ≡ visible_write key.now ops.now }
{
    let mut visible = None;
    for op in ops {
        if let Op::Put {
            key: written,
            value,
        } = op
        {
            if written == key {
                visible = Some(*value);
            }
        }
    }
    visible
}

/// Whether two operations are the same.
fn is_same(one: &Op, other: &Op) -> bool
    ensures { result ≡ same_op one.now other.now }
{
    one.is_same(other)
}

/// Whether an operation may be read from others: none before it writes its key.
fn is_free(before: &[Op], op: &Op) -> bool
    ensures { result ≡ is_free before.now op.now }
{
    match op {
        Op::Get { key, .. } => visible_write(before, key).is_none(),
        Op::Put { .. } => true,
    }
}

/// Whether an operation is among others.
fn is_among(ops: &[Op], op: &Op) -> bool
    ensures { result ≡ is_among ops.now op.now }
{
    ops.iter().any(|one| is_same(one, op))
}

/// Whether an operation after some others is a wanted one, for the first time.
fn is_wanted(wanted: &[Op], before: &[Op], op: &Op) -> bool
    ensures { result ≡ is_wanted wanted.now before.now op.now }
{
    is_among(wanted, op) && is_free(before, op) && !is_among(before, op)
}

/// Keeps an operation, where that is so.
fn keep_if(kept: &mut Vec<Op>, is_kept: bool, op: Op) -> Result<(), NoMemory>
    ensures { OnOk result (kept.new.items ≡ kept.old.items ++ (if is_kept then op ∷ [] else [])) }
{
    if is_kept {
        kept.push(op)?;
    }
    Ok(())
}

/// What is kept of some operations.
fn kept(alloc: Global, wanted: &[Op], ops: &[Op]) -> Result<Vec<Op>, NoMemory>
    ensures { IfOk result (λ kept. kept.items ≡ kept_behind (is_wanted wanted.now) [] ops.now) }
{
    let mut kept = Vec::new(alloc);
    for (index, op) in ops.iter().enumerate() {
        keep_if(&mut kept, is_wanted(wanted, &ops[..index], op), *op)?;
    }
    Ok(kept)
}

impl<'a, B: Bounds> Whole<'a, B> {
    /// The transaction of a number; none for `init` and past the last.
    fn recorded(&self, number: u32) -> Option<Recorded<'a>>
        ensures { result ≡ recorded_of self.now.snapshot.now self.now.graph.now number }
    {
        let (session, place) = self.graph.at(number)?;
        let index = (place as usize).checked_sub(1)?;
        self.snapshot.recorded(session, index)
    }

    /// The name of the session of the transaction of a number.
    fn session_of(&self, number: u32) -> Option<Name>
        ensures { MatchOption result (IsNameless self.now.snapshot.now self.now.graph.now number) (λ name. IsNamed self.now.snapshot.now self.now.graph.now number name) }
    {
        let (session, _place) = self.graph.at(number)?;
        match self.snapshot.name(session) {
            Some(name) => Some(*name),
            None => None,
        }
    }

    /// Adds the operation of the transaction of a number that a need is, if it doesn't only have to be there.
    fn add_wanted(&self, number: u32, need: &Need, wanted: &mut Vec<Op>) -> Result<(), NoMemory>
        ensures { OnOk result (wanted.new.items ≡ wanted.old.items ++ wanted_of self.now.snapshot.now self.now.graph.now number need.now) }
    {
        match need {
            Need::There => {}
            Need::Write { key } => {
                let value = source_value(self.snapshot, self.graph, number, key);
                wanted.push(Op::Put { key: *key, value })?;
            }
            Need::Read { key, source } => {
                let value = source_value(self.snapshot, self.graph, *source, key);
                wanted.push(Op::Get { key: *key, value })?;
            }
        }
        Ok(())
    }

    /// The operations of the transaction of a number that its needs are.
    fn wanted_ops(
        &self,
        alloc: Global,
        own: &[(u32, Need)],
        number: u32,
    ) -> Result<Vec<Op>, NoMemory>
        ensures { IfOk result (λ wanted. wanted.items ≡ wanted_by self.now.snapshot.now self.now.graph.now own.now number) }
    {
        let mut wanted = Vec::new(alloc);
        for one in own {
            self.add_wanted(number, &one.1, &mut wanted)?;
        }
        Ok(wanted)
    }

    /// What is kept of the transaction of a number, by its needs; none where it isn't there or wasn't committed.
    fn part(&self, alloc: Global, own: &[(u32, Need)], number: u32) -> Result<Option<Txn>, NoMemory>
        ensures part { IfOk result (λ found. IfSome found (λ part. IsPartOf self.now.snapshot.now self.now.graph.now own.now number part)) }
        ensures none { IfOk result (λ found. found ≡ None → (t : Transaction) → recorded_of self.now.snapshot.now self.now.graph.now number ≡ Some t → t.committed ≡ true → ⊥) }
    {
        let Some(whole) = self.recorded(number) else {
            return Ok(None);
        };
        if !whole.committed() {
            return Ok(None);
        }
        let mut ops = Vec::new(alloc);
        whole.fill(&mut ops)?;
        let wanted = self.wanted_ops(alloc, own, number)?;
        match Txn::new(kept(alloc, &wanted, &ops)?, true) {
            Ok(part) => Ok(Some(part)),
            Err(_) => unreachable!(),
        }
    }
}

/// The needs of the transaction of a number.
fn own_needs(needs: &[(u32, Need)], number: u32) -> &[(u32, Need)]
    requires { AreByNumber needs.now }
    ensures { result.now ≡ own_needs needs.now number }
{
    let end = needs
        .partition_point(|one| one.0 <= number)
        .min(needs.len());
    let start = needs.partition_point(|one| one.0 < number).min(end);
    &needs[start..end]
}

/// The cut of a snapshot by needs, with what is kept of the transactions of these numbers but the first. There is none where one of
/// them isn't committed, or where they are more than a snapshot takes.
pub(crate) fn cut<B: Bounds>(
    alloc: Global,
    snapshot: &SnapshotWithin<B>,
    graph: &LargeGraph,
    needs: &[(u32, Need)],
    numbers: &[u32],
) -> Result<Option<Snapshot>, NoMemory>
    requires sorted { AreByNumber needs.now }
    requires some { 0 < length numbers.now }
    requires rising { IsRising numbers.now }
    ensures cut { IfOk result (λ found. IfSome found (λ slice. IsCut snapshot.now graph.now needs.now numbers.now (length numbers.now) slice)) }
    ensures left { IfOk result (λ found. IfSome found (λ slice. IsCutOf slice snapshot.now)) }
    ensures none { IfOk result (λ found. found ≡ None → (links : List Link) → graph.now ≡ history snapshot.now → AreMetBy graph.now links numbers.now
        → NeedTooMuch graph.now links) }
{
    graph.numbered();
    let whole = Whole { snapshot, graph };
    let mut slice = Snapshot::empty(alloc);
    for index in 1..numbers.len() {
        let number = numbers[index];
        let Some(name) = whole.session_of(number) else {
            return Ok(None);
        };
        let Some(part) = whole.part(alloc, own_needs(needs, number), number)? else {
            return Ok(None);
        };
        match slice.add(alloc, name, part) {
            Ok(()) => {}
            Err(fault) => match fault {
                GrowFault::NoMemory => return Err(NoMemory),
                GrowFault::TooManySessions | GrowFault::TooManyTransactions => return Ok(None),
            },
        }
    }
    Ok(Some(slice))
}
