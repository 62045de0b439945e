//! Transactions and seals as they are read from records.
ghost use Rattle.std.specs.Prelude.{◌≡◌, ◌≢◌, ◌+◌, ◌^◌, ◌<◌, List, [], length, true, IfOk, IfErr, IfSome, OnOk, MatchResult};
ghost use Rattle.std.specs.Prelude.{None, Some, false, Ok, Err, option_map};
ghost use Rattle.csv.specs.Records.{field_at};
ghost use Rattle.tcc_rows.specs.{SessionStates.IsAfter, private.ControlRecords.line_by, Line.Line};
ghost use Rattle.tcc_rows.specs.Answers.{Answers, answers_after_within, fault_at_end, given_within, records_of, records_within};
ghost use Rattle.tcc_txn.specs.{declared.limits.Limits.Limits, declared.limits.Limits.TheVariants.Small};

mod draft;
mod limited;
mod line;
mod progress;
mod records;
mod seats;

use crate::{RowFault, RowFaultKind};
use line::{ControlRecord, read_line};
use progress::RowProgress;
use records::Records;
use std::alloc::Global;
use std::io::Read;
use tcc_txn::{KeyHints, Limits, Name, NoMemory, Txn};

/// What the records give, in the order of their last records.
#[derive(Drop)]
pub enum Item {
    /// A transaction of the session was finished.
    Finished(Name, Txn),
    /// A transaction of the session ended with unknown outcome: its writes, as they are if it counts as committed.
    Unknown(Name, Txn),
    /// An answer is wanted for what was finished so far.
    Seal,
    /// There are no more records.
    End,
}

/// How far the reading has come.
#[derive(Clone, Copy)]
enum RowsStage {
    /// There may be more records.
    Reading,
    /// There are none.
    Ended,
    /// A fault was reached.
    Stopped(RowFault),
}

/// The transactions and seals of a reader's records.
///
/// ```rust
/// let mut rows = Rows::new(alloc, records)?;
/// let mut finished = Vec::new(alloc);
/// for _ in 0..u64::MAX {
///     match rows.next(alloc)? {
///         Item::Finished(session, txn) => finished.push((session, txn))?,
///         Item::Unknown(..) | Item::Seal => {}
///         Item::End => break,
///     }
/// }
/// Ok(finished)
/// ```
#[derive(Drop)]
pub struct Rows<R> {
    records: Records<R>,
    progress: RowProgress,
    /// The session of the last operation.
    session: Option<Name>,
    stage: RowsStage,
}

impl<R: Read + Drop> Rows<R> {
    ghost use Rattle.tcc_rows.specs.{Failing.FailsAtWithin, Failing.given_before_within, private.Failing.FailsIn, Midway.IsMidway, private.StagesAfter.stage_after_line, Recordings.HasSealsBefore, Recordings.after_items, declared.rows.Item.Item};
    ghost use Rattle.tcc_rows.specs.Ahead.{FaultsIn, IsAhead, TakesAnswer, fault_met, has_ended, stage_after};
    ghost use Rattle.tcc_rows.specs.Lines.{Record, is_cut, line_of};
    ghost use Rattle.tcc_rows.specs.Reached.{HasGivenUp, IsWithin, ReaderFailed, StandsBy, StandsIn, is_of_record, last_record, record_at, row_reached};
    ghost use Rattle.tcc_rows.specs.private.Stages.{LeavesIn, MeetsLine, StopsIn, TakesFields, TakesItem, TakesLine};
    ghost use Rattle.tcc_rows.specs.declared.rows.records.RecordsStage.TheVariants as records_stage;

    /// The rows of what the reader gives. If memory is refused, the reader is dropped.
    pub fn new(alloc: Global, reader: R) -> Result<Rows<R>, NoMemory>
        ensures ahead { IfOk result (λ rows. IfSome (R.remaining reader) (λ text. IsAhead Small R.remaining rows (given_within Small text))) }
        ensures within { IfOk result (λ rows. IfSome (R.remaining reader) (λ text. IsWithin R.remaining rows (records_of text))) }
        ensures fresh { IfOk result (λ rows. fault_met rows ≡ None) }
    {
        Rows::within(alloc, reader, Limits::Small)
    }

    /// The rows of what the reader gives, under the given limits. If memory is refused, the reader is dropped.
    pub fn within(alloc: Global, reader: R, limits: Limits) -> Result<Rows<R>, NoMemory>
        ensures ahead { IfOk result (λ rows. IfSome (R.remaining reader) (λ text. IsAhead limits R.remaining rows (given_within limits text))) }
        ensures within { IfOk result (λ rows. IfSome (R.remaining reader) (λ text. IsWithin R.remaining rows (records_within limits text))) }
        ensures fresh { IfOk result (λ rows. fault_met rows ≡ None) }
    {
        Ok(Rows {
            records: Records::new(alloc, reader, limits),
            progress: RowProgress::new(alloc, limits),
            session: None,
            stage: RowsStage::Reading,
        })
    }

    /// The next item, or the first fault. After `End` it returns `End`, after a fault that fault.
    pub fn next(&mut self, alloc: Global) -> Result<Item, RowFault>
        ensures answers { (limits : Limits) (ahead : Answers) → IsAhead limits R.remaining self.old ahead
            → TakesAnswer limits R.remaining ahead result self.new }

        // The records are those of the text in turn, and none is passed uncounted.
        ensures within { (all : List Record) → IsWithin R.remaining self.old all → IsWithin R.remaining self.new all }

        // Whatever is known of the bytes, a fault is at the record that was read last, or at the one after it if its reading
        // failed. Only a failed reader makes it `Read`.
        ensures row { IfErr result (λ fault. fault_met self.old ≡ None → fault.row ≡ row_reached self.new) }
        ensures read { IfErr result (λ fault. fault_met self.old ≡ None → fault.kind ≡ RowFaultKind.Read → ReaderFailed self.new) }

        // Where the fault is one of a record, that was read last.
        ensures faulty { IfErr result (λ fault. fault_met self.old ≡ None → is_of_record fault.kind ≡ true
            → (all : List Record) → IsWithin R.remaining self.old all → last_record self.new ≡ record_at fault.row all) }

        // If a record can't be read, all before it are lawful, and the items so far are theirs.
        ensures failed { IfErr result (λ fault. fault_met self.old ≡ None → fault.kind ≡ RowFaultKind.Read
            → (limits : Limits) (all : List Record) (taken : List Item) (ahead : Answers) → answers_after_within limits [] all ≡ after_items taken ahead
            → IsWithin R.remaining self.old all → IsAhead limits R.remaining self.old ahead
            → FailsAtWithin limits fault.row all × (taken ≡ given_before_within limits fault.row all)) }

        // Then there are as many seals before it as among the items so far, whatever these are.
        ensures failed_sealed { IfErr result (λ fault. fault_met self.old ≡ None → fault.kind ≡ RowFaultKind.Read
            → (limits : Limits) (all : List Record) (ahead : Answers) → (answers_after_within limits [] all).fault ≡ ahead.fault
            → IsWithin R.remaining self.old all → IsAhead limits R.remaining self.old ahead
            → FailsAtWithin limits fault.row all × HasSealsBefore limits fault.row all ahead) }

        // A fault stays, and so does the end, whatever is known of the bytes.
        ensures stops { IfErr result (λ fault. fault_met self.new ≡ Some fault) }
        ensures stays_stopped { IfSome (fault_met self.old) (λ fault. result ≡ Err fault) }
        ensures goes_on { OnOk result (fault_met self.new ≡ None) }
        ensures ends { result ≡ Ok Item.End → has_ended self.new ≡ true }
        ensures stays_ended { has_ended self.old ≡ true → result ≡ Ok Item.End }
        ensures stage { IfOk result (λ given. self.new.stage ≡ stage_after given) }
    {
        match self.stage {
            RowsStage::Reading => {}
            RowsStage::Ended => return Ok(Item::End),
            RowsStage::Stopped(fault) => return Err(fault),
        }
        match self.advance(alloc) {
            Ok(item) => Ok(item),
            Err(fault) => {
                self.stop(&fault);
                Err(fault)
            }
        }
    }

    /// Whether the end was reached.
    pub(crate) fn has_ended(&self) -> bool
        ensures { result ≡ has_ended self.now }
    {
        matches!(self.stage, RowsStage::Ended)
    }

    /// The field at an index, counted from 0, of the record that was read last.
    pub fn last_field(&self, index: usize) -> Option<&[u8]>
        ensures { option_map (λ field. field.now) result ≡ field_at (last_record self.now) index }
    {
        self.records.field(index)
    }

    /// What is known of the keys of the transaction that was finished last.
    pub(crate) fn key_hints(&self) -> KeyHints<'_> {
        self.progress.key_hints()
    }

    /// Keeps the fault for all later calls.
    fn stop(&mut self, fault: &RowFault)
        ensures { self.new ≡ record self.old { stage = RowsStage.Stopped fault.now } }
    {
        self.stage = RowsStage::Stopped(*fault);
    }

    /// A fault at the row that was reached.
    fn fault(&self, kind: RowFaultKind) -> RowFault
        ensures { result ≡ record { row = row_reached self.now; kind = kind } }
    {
        RowFault {
            row: self.records.row(),
            kind,
        }
    }

    /// Gives up at the row that was reached.
    pub(crate) fn give_up(&mut self, kind: RowFaultKind) -> RowFault
        ensures fault { result ≡ record { row = row_reached self.old; kind = kind } }
        ensures stopped { self.new ≡ record self.old { stage = RowsStage.Stopped result } }
    {
        let fault = self.fault(kind);
        self.stop(&fault);
        fault
    }

    /// Passes records up to the next item.
    fn advance(&mut self, alloc: Global) -> Result<Item, RowFault>
        requires { self.old.stage ≡ RowsStage.Reading }
        ensures item { IfOk result (λ given. (limits : Limits) (ahead : Answers) → IsMidway limits R.remaining self.old ahead
            → TakesItem limits R.remaining ahead given self.new) }
        ensures stage { IfOk result (λ given. self.new.stage ≡ stage_after given) }
        ensures fault { IfErr result (λ fault. (limits : Limits) (ahead : Answers) → IsMidway limits R.remaining self.old ahead → FaultsIn limits ahead fault) }
        ensures failed { IfErr result (λ fault. fault.kind ≡ RowFaultKind.Read → (limits : Limits) (all : List Record) (ahead : Answers)
            → StandsIn R.remaining self.old.records all → IsMidway limits R.remaining self.old ahead → FailsIn limits all ahead fault.row) }
        ensures row { IfErr result (λ fault. fault.row ≡ row_reached self.new) }
        ensures read { IfErr result (λ fault. fault.kind ≡ RowFaultKind.Read → ReaderFailed self.new) }
        ensures within { (all : List Record) → StandsIn R.remaining self.old.records all
            → MatchResult result (λ given. StandsBy self.new.stage R.remaining self.new.records all) (λ fault. StopsIn fault.kind all self.new.records) }
    {
        'records: loop {
            match self.pass_line(alloc) {
                Ok(Some(item)) => return Ok(item),
                Ok(None) => {}
                Err(fault) => return Err(fault),
            }
        }
    }

    /// Passes one line that is not an operation, or the end.
    fn pass_line(&mut self, alloc: Global) -> Result<Option<Item>, RowFault>
        requires { self.old.stage ≡ RowsStage.Reading }
        ensures line { (limits : Limits) (ahead : Answers) → IsMidway limits R.remaining self.old ahead → TakesLine limits R.remaining ahead result self.new }
        ensures stage { IfOk result (λ given. self.new.stage ≡ stage_after_line given) }
        ensures row { IfErr result (λ fault. fault.row ≡ row_reached self.new) }
        ensures read { IfErr result (λ fault. fault.kind ≡ RowFaultKind.Read → ReaderFailed self.new) }
        ensures failed { IfErr result (λ fault. fault.kind ≡ RowFaultKind.Read → (limits : Limits) (all : List Record) (ahead : Answers)
            → StandsIn R.remaining self.old.records all → IsMidway limits R.remaining self.old ahead → FailsIn limits all ahead fault.row) }
        ensures within { (all : List Record) → StandsIn R.remaining self.old.records all
            → MatchResult result (λ given. StandsBy self.new.stage R.remaining self.new.records all) (λ fault. StopsIn fault.kind all self.new.records) }
        ensures more { result ≡ Ok None → self.old.records.count < self.new.records.count }
        ensures fits { result ≡ Ok None → self.new.records.count < 2 ^ 64 }
    {
        match self.next_line() {
            Ok(Some(turn)) => self.take_line(alloc, turn),
            Ok(None) => self.finish(),
            Err(kind) => Err(self.fault(kind)),
        }
    }

    /// Passes operations, and returns what the record after them says, if there is one.
    fn next_line(&mut self) -> Result<Option<ControlRecord>, RowFaultKind>
        ensures line { (limits : Limits) (ahead : Answers) → IsMidway limits R.remaining self.old ahead → MeetsLine limits R.remaining ahead result self.new }
        ensures stage { self.new.stage ≡ self.old.stage }
        ensures read { IfErr result (λ kind. kind ≡ RowFaultKind.Read → HasGivenUp self.new.records) }
        ensures failed { IfErr result (λ kind. kind ≡ RowFaultKind.Read → (limits : Limits) (all : List Record) (ahead : Answers)
            → StandsIn R.remaining self.old.records all → IsMidway limits R.remaining self.old ahead → FailsIn limits all ahead (row_reached self.new)) }
        ensures within { (all : List Record) → StandsIn R.remaining self.old.records all → LeavesIn R.remaining all result self.new.records }
        ensures more { IfOk result (λ found. IfSome found (λ turn. self.old.records.count < self.new.records.count)) }
        ensures fits { IfOk result (λ found. IfSome found (λ turn. self.new.records.count < 2 ^ 64)) }
    {
        'records: loop {
            match self.records.read() {
                Ok(true) => {}
                Ok(false) => return Ok(None),
                Err(kind) => return Err(kind),
            }
            let record = self.records.record();
            if record.len() != 4 {
                return match read_line(record) {
                    Ok(turn) => Ok(Some(turn)),
                    Err(kind) => Err(kind),
                };
            }
            if let Err(kind) = self.progress.pass_operation(&mut self.session, record) {
                return Err(kind);
            }
        }
    }

    /// Passes the record that was read last, which says this.
    fn take_line(&mut self, alloc: Global, turn: ControlRecord) -> Result<Option<Item>, RowFault>
        ensures fields { (limits : Limits) (past : List Line) (fields : Record) → IsAfter limits past self.old.progress
            → row_reached self.old ≡ length past + 1
            → is_cut fields ≡ false → line_of fields ≡ Ok (line_by turn) → TakesFields limits past fields result self.new }
        ensures records { self.new.records ≡ self.old.records }
        ensures stage { self.old.stage ≡ RowsStage.Reading → IfOk result (λ given. self.new.stage ≡ stage_after_line given) }
        ensures row { IfErr result (λ fault. fault.row ≡ row_reached self.new) }
        ensures read { IfErr result (λ fault. fault.kind ≢ RowFaultKind.Read) }
        ensures going { self.old.stage ≡ RowsStage.Reading → OnOk result (self.new.stage ≡ RowsStage.Reading) }
    {
        match self.progress.pass(alloc, turn) {
            Ok(item) => Ok(item),
            Err(kind) => Err(self.fault(kind)),
        }
    }

    /// The end of the records.
    fn finish(&mut self) -> Result<Option<Item>, RowFault>
        ensures unfinished { IfErr result (λ fault. (limits : Limits) (past : List Line) → IsAfter limits past self.old.progress
            → row_reached self.old ≡ length past
            → fault_at_end past ≡ Some fault) }
        ensures closed { OnOk result ((limits : Limits) (past : List Line) → IsAfter limits past self.old.progress → fault_at_end past ≡ None) }
        ensures end { IfOk result (λ given. given ≡ Some Item.End) }
        ensures stage { OnOk result (self.new.stage ≡ RowsStage.Ended) }
        ensures records { self.new.records ≡ self.old.records }
        ensures row { IfErr result (λ fault. fault.row ≡ row_reached self.new) }
        ensures read { IfErr result (λ fault. fault.kind ≢ RowFaultKind.Read) }
        ensures other { IfErr result (λ fault. is_of_record fault.kind ≡ false) }
    {
        match self.progress.unfinished() {
            Some(session) => Err(self.fault(RowFaultKind::Unfinished { session })),
            None => {
                self.stage = RowsStage::Ended;
                Ok(Some(Item::End))
            }
        }
    }
}
