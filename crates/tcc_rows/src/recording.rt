//! What records have finished so far, as a snapshot that grows.
ghost use Rattle.std.specs.Prelude.{◌≡◌, ◌≢◌, ◌++◌, ◌∷◌, ℕ, List, [], fold, map, true, IfErr, IfOk, IfSome, OnErr, OnOk, None, Some, Ok, MatchResult, option_map};
ghost use Rattle.csv.specs.Records.{field_at};
ghost use Rattle.tcc_rows.specs.{Ahead.fault_met, Ahead.has_ended, Items.finished_in, Items.with_item, Lines.Record, declared.rows.Item.Item};
ghost use Rattle.tcc_rows.specs.Answers.{Answers, answers_to, answers_within, records_within};
ghost use Rattle.tcc_rows.specs.Followed.{Follows, IsFollowed};
ghost use Rattle.tcc_rows.specs.Settling.{Pending, shown, told, unseen_among, with_shown};
ghost use Rattle.tcc_rows.specs.private.Waiting.{AddsSome, PassesItems};
ghost use Rattle.tcc_rows.specs.Reached.{IsWithin, ReaderFailed, is_of_record, last_record, record_at, row_reached};
ghost use Rattle.tcc_rows.specs.Recordings.{FailsBehind, IsRecorded, IsRecording, TakesCheckpoint, after_items};
ghost use Rattle.tcc_txn.specs.{Finished.IsWithinLimits, Finished.with_transaction, Nested.IsNested, declared.limits.Limits.TheVariants.Small, declared.limits.Limits.TheVariants.Large};
ghost use Rattle.tcc_rows.specs.declared.rows.RowsStage.TheVariants as stage;

use crate::pending::{PendingValues, strike_finished, take_values};
use crate::{Item, RowFault, RowFaultKind, Rows};
use std::alloc::Global;
use std::io::Read;
use std::mem;
use tcc_txn::{
    Bounds, LargeLimits, LargeSnapshot, Name, NoMemory, SmallLimits, Snapshot, SnapshotWithin, Txn,
};

/// What a recording has reached.
#[derive(Clone, Copy, Debug, PartialEq, Eq)]
pub enum Checkpoint {
    /// A seal: an answer is wanted for what was finished so far.
    Seal,
    /// There are no more records.
    End,
}

/// The snapshot of what a reader's records have finished so far, under the limits that `B` names, and the transactions of
/// unknown outcome of which nobody has read a value.
#[derive(Drop)]
pub struct RecordingWithin<R, B: Bounds> {
    rows: Rows<R>,
    snapshot: SnapshotWithin<B>,
    pending: Vec<(Name, Txn)>,
    /// What they wrote, where that is known: not if one is pending since the last settling.
    values: Option<PendingValues>,
}

/// A recording within the small limits.
pub type Recording<R> = RecordingWithin<R, SmallLimits>;

/// A recording within the large limits.
pub type LargeRecording<R> = RecordingWithin<R, LargeLimits>;

impl<R: Read + Drop, B: Bounds> RecordingWithin<R, B> {
    /// Nothing is read yet. If memory is refused, the reader is dropped.
    pub fn new(alloc: Global, reader: R) -> Result<RecordingWithin<R, B>, NoMemory>
        ensures recording { IfOk result (λ recording. IfSome (R.remaining reader) (λ text. IsRecording B.limits R.remaining recording [] (answers_within B.limits text))) }
        ensures within { IfOk result (λ recording. IfSome (R.remaining reader) (λ text. IsWithin R.remaining recording.rows (records_within B.limits text))) }
        ensures fresh { IfOk result (λ recording. fault_met recording.rows ≡ None) }
    {
        Ok(RecordingWithin {
            rows: Rows::within(alloc, reader, B::limits())?,
            snapshot: SnapshotWithin::empty(alloc),
            pending: Vec::new(alloc),
            values: None,
        })
    }

    /// Reads on to the next seal or to the end. After the end it returns the end, after a fault that fault.
    pub fn advance(&mut self, alloc: Global) -> Result<Checkpoint, RowFault>
        ensures checkpoint { (taken : List Item) (ahead : Answers) → IsRecording B.limits R.remaining self.old taken ahead
            → TakesCheckpoint B.limits R.remaining taken ahead result self.new }
        ensures within { (all : List Record) → IsWithin R.remaining self.old.rows all → IsWithin R.remaining self.new.rows all }

        // Whatever is known of the bytes, what was finished stays, and each session only grows.
        ensures continues { IsNested self.old.snapshot self.new.snapshot }

        // Whatever is known of the bytes, a fault is at the record that was read last, or at the one after it if its reading
        // failed. Only a failed reader makes it `Read`.
        ensures row { IfErr result (λ fault. fault_met self.old.rows ≡ None → fault.row ≡ row_reached self.new.rows) }
        ensures read { IfErr result (λ fault. fault_met self.old.rows ≡ None → fault.kind ≡ RowFaultKind.Read → ReaderFailed self.new.rows) }

        // Where the fault is one of a record, that was read last.
        ensures faulty { IfErr result (λ fault. fault_met self.old.rows ≡ None → is_of_record fault.kind ≡ true
            → (all : List Record) (taken : List Item) (ahead : Answers) → IsWithin R.remaining self.old.rows all
            → IsRecording B.limits R.remaining self.old taken ahead → last_record self.new.rows ≡ record_at fault.row all) }

        // If a record can't be read, all before it are lawful. Their items are those that were taken, and then some without a
        // seal.
        ensures failed { IfErr result (λ fault. fault_met self.old.rows ≡ None → fault.kind ≡ RowFaultKind.Read
            → (all : List Record) (taken : List Item) (ahead : Answers) → answers_to B.limits all ≡ after_items taken ahead
            → IsWithin R.remaining self.old.rows all → IsRecording B.limits R.remaining self.old taken ahead → FailsBehind B.limits taken fault.row all) }

        // A fault stays, and so does the end.
        ensures stops { IfErr result (λ fault. fault_met self.new.rows ≡ Some fault) }
        ensures stays_stopped { IfSome (fault_met self.old.rows) (λ fault. result ≡ Err fault) }
        ensures goes_on { OnOk result (fault_met self.new.rows ≡ None) }
        ensures ends { result ≡ Ok Checkpoint.End → has_ended self.new.rows ≡ true }
        ensures stays_ended { has_ended self.old.rows ≡ true → result ≡ Ok Checkpoint.End }
    {
        if self.rows.has_ended() {
            return Ok(Checkpoint::End);
        }
        let checkpoint = self.pass_items(alloc)?;
        self.settle(alloc)?;
        match checkpoint {
            Checkpoint::Seal => {}
            // Nobody will read more.
            Checkpoint::End => self.forget_pending(),
        }
        Ok(checkpoint)
    }

    /// Nothing is pending any more.
    fn forget_pending(&mut self)
        ensures kept { (self.new.snapshot ≡ self.old.snapshot) × (self.new.rows ≡ self.old.rows) }
        ensures forgotten { (self.new.pending.items ≡ []) × (self.new.values ≡ None) }
    {
        self.pending.clear();
        self.values = None;
    }

    /// Reads on to the next seal or to the end, where nothing is settled yet.
    fn pass_items(&mut self, alloc: Global) -> Result<Checkpoint, RowFault>
        ensures passed { (taken : List Item) (ahead : Answers) → IsRecording B.limits R.remaining self.old taken ahead
            → PassesItems B.limits R.remaining taken ahead result self.new }
        ensures within { (all : List Record) → IsWithin R.remaining self.old.rows all → IsWithin R.remaining self.new.rows all }
        ensures continues { IsNested self.old.snapshot self.new.snapshot }
        ensures row { IfErr result (λ fault. fault_met self.old.rows ≡ None → fault.row ≡ row_reached self.new.rows) }
        ensures read { IfErr result (λ fault. fault_met self.old.rows ≡ None → fault.kind ≡ RowFaultKind.Read → ReaderFailed self.new.rows) }
        ensures faulty { IfErr result (λ fault. fault_met self.old.rows ≡ None → is_of_record fault.kind ≡ true
            → (all : List Record) (taken : List Item) (ahead : Answers) → IsWithin R.remaining self.old.rows all
            → IsRecording B.limits R.remaining self.old taken ahead → last_record self.new.rows ≡ record_at fault.row all) }
        ensures failed { IfErr result (λ fault. fault_met self.old.rows ≡ None → fault.kind ≡ RowFaultKind.Read
            → (all : List Record) (taken : List Item) (ahead : Answers) → answers_to B.limits all ≡ after_items taken ahead
            → IsWithin R.remaining self.old.rows all → IsRecording B.limits R.remaining self.old taken ahead → FailsBehind B.limits taken fault.row all) }
        ensures stops { IfErr result (λ fault. fault_met self.new.rows ≡ Some fault) }
        ensures stays_stopped { IfSome (fault_met self.old.rows) (λ fault. result ≡ Err fault) }
        ensures goes_on { OnOk result (fault_met self.new.rows ≡ None) }
        ensures ends { result ≡ Ok Checkpoint.End → has_ended self.new.rows ≡ true }
        ensures sealed { result ≡ Ok Checkpoint.Seal → self.new.rows.stage ≡ stage.Reading }
    {
        'items: for _turn in 0..u64::MAX {
            match self.rows.next(alloc)? {
                Item::Finished(session, txn) => self.take(alloc, session, txn)?,
                Item::Unknown(session, txn) => self.wait(session, txn)?,
                Item::Seal => return Ok(Checkpoint::Seal),
                Item::End => return Ok(Checkpoint::End),
            }
        }
        // No memory holds that many transactions.
        Err(self.rows.give_up(RowFaultKind::NoMemory))
    }

    /// A transaction of the session ended with unknown outcome. The next settling looks for earlier reads of its values.
    fn wait(&mut self, session: Name, txn: Txn) -> Result<(), RowFault>
        ensures kept { self.new.snapshot ≡ self.old.snapshot }
        ensures unknown { self.new.values ≡ None }
        ensures waits { OnOk result ((self.new.pending.items ≡ self.old.pending.items ++ (session, txn) ∷ []) × (self.new.rows ≡ self.old.rows)) }
        ensures stopped { IfErr result (λ fault. (self.new.rows ≡ record self.old.rows { stage = stage.Stopped fault })
            × (fault ≡ record { row = row_reached self.old.rows; kind = RowFaultKind.NoMemory })) }
    {
        self.values = None;
        if self.pending.push((session, txn)).is_err() {
            return Err(self.rows.give_up(RowFaultKind::NoMemory));
        }
        Ok(())
    }

    /// The pending transactions of which a value was read are finished.
    fn settle(&mut self, alloc: Global) -> Result<(), RowFault>
        ensures settled { IsFollowed self.old.snapshot self.old.pending.items self.old.values
            → OnOk result ((self.new.snapshot ≡ with_shown self.old.snapshot self.old.pending.items)
            × (self.new.pending.items ≡ unseen_among self.old.snapshot self.old.pending.items) × (self.new.rows ≡ self.old.rows)) }
        ensures followed { IsFollowed self.old.snapshot self.old.pending.items self.old.values
            → IsFollowed self.new.snapshot self.new.pending.items self.new.values }
        ensures part { IsFollowed self.old.snapshot self.old.pending.items self.old.values
            → OnErr result (AddsSome self.old.snapshot (shown self.old.snapshot self.old.pending.items) self.new.snapshot) }
        ensures rows { OnOk result (self.new.rows ≡ self.old.rows) }
        ensures stopped { IfErr result (λ fault. (self.new.rows ≡ record self.old.rows { stage = stage.Stopped fault })
            × (fault.row ≡ row_reached self.old.rows)) }
        ensures known { IfErr result (λ fault. fault.kind ≢ RowFaultKind.Read) }
        ensures memory { IsFollowed self.old.snapshot self.old.pending.items self.old.values
            → IsWithinLimits B.limits (with_shown self.old.snapshot self.old.pending.items) → IfErr result (λ fault. fault.kind ≡ RowFaultKind.NoMemory) }
        ensures continues { IsNested self.old.snapshot self.new.snapshot }
    {
        if self.pending.is_empty() {
            return Ok(());
        }
        match take_values(alloc, &mut self.values, &self.snapshot, &self.pending) {
            Ok(values) => self.settle_by(alloc, values),
            Err(NoMemory) => Err(self.rows.give_up(RowFaultKind::NoMemory)),
        }
    }

    /// The same, by what the pending transactions wrote.
    fn settle_by(&mut self, alloc: Global, mut values: PendingValues) -> Result<(), RowFault>
        requires { self.old.values ≡ None }
        ensures settled { Follows self.old.snapshot self.old.pending.items values
            → OnOk result ((self.new.snapshot ≡ with_shown self.old.snapshot self.old.pending.items)
            × (self.new.pending.items ≡ unseen_among self.old.snapshot self.old.pending.items) × (self.new.rows ≡ self.old.rows)) }
        ensures followed { Follows self.old.snapshot self.old.pending.items values
            → IsFollowed self.new.snapshot self.new.pending.items self.new.values }
        ensures part { Follows self.old.snapshot self.old.pending.items values
            → OnErr result (AddsSome self.old.snapshot (shown self.old.snapshot self.old.pending.items) self.new.snapshot) }
        ensures rows { OnOk result (self.new.rows ≡ self.old.rows) }
        ensures stopped { IfErr result (λ fault. (self.new.rows ≡ record self.old.rows { stage = stage.Stopped fault })
            × (fault.row ≡ row_reached self.old.rows)) }
        ensures known { IfErr result (λ fault. fault.kind ≢ RowFaultKind.Read) }
        ensures memory { Follows self.old.snapshot self.old.pending.items values
            → IsWithinLimits B.limits (with_shown self.old.snapshot self.old.pending.items) → IfErr result (λ fault. fault.kind ≡ RowFaultKind.NoMemory) }
        ensures continues { IsNested self.old.snapshot self.new.snapshot }
    {
        if values.has_none_found() {
            self.values = Some(values);
            return Ok(());
        }
        let pending = mem::replace(&mut self.pending, Vec::new(alloc));
        match values.settle(alloc, pending) {
            Ok(settled) => {
                self.pending = settled.unseen;
                self.values = Some(values);
                self.take_all(alloc, settled.seen)
            }
            Err(NoMemory) => Err(self.rows.give_up(RowFaultKind::NoMemory)),
        }
    }

    /// These sessions have each finished one more transaction.
    fn take_all(&mut self, alloc: Global, seen: Vec<(Name, Txn)>) -> Result<(), RowFault>
        ensures taken { OnOk result ((self.new.snapshot ≡ fold with_item self.old.snapshot (map told seen.items)) × (self.new.rows ≡ self.old.rows)) }
        ensures pending { self.new.pending ≡ self.old.pending }
        ensures followed { (pending : Pending) → IsFollowed self.old.snapshot pending self.old.values → IsFollowed self.new.snapshot pending self.new.values }
        ensures part { OnErr result (AddsSome self.old.snapshot (map told seen.items) self.new.snapshot) }
        ensures stopped { IfErr result (λ fault. (self.new.rows ≡ record self.old.rows { stage = stage.Stopped fault })
            × (fault.row ≡ row_reached self.old.rows)) }
        ensures known { IfErr result (λ fault. fault.kind ≢ RowFaultKind.Read) }
        ensures memory { IsWithinLimits B.limits (fold with_item self.old.snapshot (map told seen.items)) → IfErr result (λ fault. fault.kind ≡ RowFaultKind.NoMemory) }
        ensures continues { IsNested self.old.snapshot self.new.snapshot }
    {
        for one in seen {
            self.take(alloc, one.0, one.1)?;
        }
        Ok(())
    }

    /// The session has finished one more transaction.
    fn take(&mut self, alloc: Global, session: Name, txn: Txn) -> Result<(), RowFault>
        ensures taken { OnOk result ((self.new.snapshot ≡ with_transaction self.old.snapshot session txn) × (self.new.rows ≡ self.old.rows)) }
        ensures pending { self.new.pending ≡ self.old.pending }
        ensures followed { (pending : Pending) → IsFollowed self.old.snapshot pending self.old.values → IsFollowed self.new.snapshot pending self.new.values }
        ensures kept { OnErr result (self.new.snapshot ≡ self.old.snapshot) }
        ensures stopped { IfErr result (λ fault. (self.new.rows ≡ record self.old.rows { stage = stage.Stopped fault })
            × (fault.row ≡ row_reached self.old.rows)) }
        ensures known { IfErr result (λ fault. fault.kind ≢ RowFaultKind.Read) }
        ensures memory { IsWithinLimits B.limits (with_transaction self.old.snapshot session txn) → IfErr result (λ fault. fault.kind ≡ RowFaultKind.NoMemory) }
    {
        let struck = strike_finished(&mut self.values, &txn);
        if struck.is_err() {
            self.values = None;
            return Err(self.rows.give_up(RowFaultKind::NoMemory));
        }
        let told = self.rows.key_hints();
        match self.snapshot.add_told(alloc, session, txn, told) {
            Ok(()) => Ok(()),
            Err(fault) => {
                self.values = None;
                Err(self.rows.give_up(RowFaultKind::from(fault)))
            }
        }
    }

    /// Reads on to the end, whatever is sealed.
    pub fn pass_seals(&mut self, alloc: Global) -> Result<(), RowFault>
        ensures recorded { (text : List ℕ) → IsRecording B.limits R.remaining self.old [] (answers_within B.limits text)
            → IsWithin R.remaining self.old.rows (records_within B.limits text)
            → fault_met self.old.rows ≡ None
            → MatchResult result (λ done. IsRecorded B.limits text (Ok self.new.snapshot)) (λ fault. IsRecorded B.limits text (Err fault)) }
        ensures faulty { IfErr result (λ fault. fault_met self.old.rows ≡ None → is_of_record fault.kind ≡ true
            → (text : List ℕ) → IsRecording B.limits R.remaining self.old [] (answers_within B.limits text)
            → IsWithin R.remaining self.old.rows (records_within B.limits text)
            → last_record self.new.rows ≡ record_at fault.row (records_within B.limits text)) }
    {
        'seals: for _turn in 0..u64::MAX {
            match self.advance(alloc)? {
                Checkpoint::Seal => {}
                Checkpoint::End => return Ok(()),
            }
        }
        // There are never that many seals.
        Err(self.rows.give_up(RowFaultKind::NoMemory))
    }

    /// The field at an index, counted from 0, of the record that was read last. That is the record of the fault, if the
    /// fault's row is that of a record.
    pub fn last_field(&self, index: usize) -> Option<&[u8]>
        ensures { option_map (λ field. field.now) result ≡ field_at (last_record self.now.rows) index }
    {
        self.rows.last_field(index)
    }

    /// What was finished so far.
    pub fn snapshot(&self) -> &SnapshotWithin<B>
        ensures value { result.now ≡ self.now.snapshot }
        ensures finished { (taken : List Item) (ahead : Answers) → IsRecording B.limits R.remaining self.now taken ahead → result.now ≡ finished_in taken }
    {
        &self.snapshot
    }
}

/// All that the records of the reader finish under the limits that `B` names, whatever they seal.
fn recorded<R: Read + Drop, B: Bounds>(
    alloc: Global,
    reader: R,
) -> Result<SnapshotWithin<B>, RowFault>
    ensures { IfSome (R.remaining reader) (λ text. IsRecorded B.limits text result) }
{
    let mut recording = match RecordingWithin::<R, B>::new(alloc, reader) {
        Ok(recording) => recording,
        Err(NoMemory) => {
            return Err(RowFault {
                row: 1,
                kind: RowFaultKind::NoMemory,
            });
        }
    };
    match recording.pass_seals(alloc) {
        Ok(()) => Ok(recording.snapshot),
        Err(fault) => Err(fault),
    }
}

/// All that the records of the reader finish, whatever they seal.
pub fn snapshot_of<R: Read + Drop>(alloc: Global, reader: R) -> Result<Snapshot, RowFault>
    ensures { IfSome (R.remaining reader) (λ text. IsRecorded Small text result) }
{
    recorded(alloc, reader)
}

/// All that the records of the reader finish, whatever they seal, within the large limits.
pub fn large_snapshot_of<R: Read + Drop>(
    alloc: Global,
    reader: R,
) -> Result<LargeSnapshot, RowFault>
    ensures { IfSome (R.remaining reader) (λ text. IsRecorded Large text result) }
{
    recorded(alloc, reader)
}
