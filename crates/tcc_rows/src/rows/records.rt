//! The records of a reader, one at a time, within the limit on bytes.
ghost use Rattle.std.specs.Prelude.{◌≡◌, ◌==◌, false, List, IfOk, IfErr, IfSome, length, option_map};
ghost use Rattle.std.specs.List.{list_any};
ghost use Rattle.csv.specs.Reading.{error_kind};
ghost use Rattle.csv.specs.Records.{field_at, fields_of, text_of};
ghost use Rattle.tcc_rows.specs.{Ahead.IsFailure, Answers.records_within, ByteLimit.past_limit, Lines.Record, Lines.is_cut, private.Words.failure_of, RecordsLeft.HasLeft, RecordsLeft.record_of};
ghost use Rattle.tcc_rows.specs.Reached.{HasGivenUp, StandsIn, row_in};
ghost use Rattle.tcc_rows.specs.private.Stages.{TakesRecord, Counts, ReadsIn};
ghost use Rattle.tcc_rows.specs.declared.rows.records.RecordsStage.TheVariants as records_stage;

use super::limited::Limited;
use crate::RowFaultKind;
use csv::{ByteRecord, Error, Reader, ReaderBuilder};
use std::alloc::Global;
use std::io::Read;
use tcc_txn::Limits;

/// How the reading goes.
#[derive(Clone, Copy)]
enum RecordsStage {
    /// There may be more records.
    Going,
    /// There are no more.
    Ended,
    /// The next record could not be read.
    Failed,
}

/// A reader of records, the record that it read last, and how many it has read.
#[derive(Drop)]
pub(crate) struct Records<R> {
    reader: Reader<Limited<R>>,
    record: ByteRecord,
    count: u64,
    stage: RecordsStage,
}

/// How many bytes there are, none of which is the mark of the limit.
fn byte_count(bytes: &[u8]) -> usize
    ensures count { result ≡ length bytes.now }
    ensures unmarked { list_any (λ byte. byte == past_limit) bytes.now ≡ false }
{
    bytes.len()
}

/// The kind of fault of a `csv` error.
fn failure(error: &Error) -> RowFaultKind
    ensures { result ≡ failure_of (error_kind error.now) }
{
    if error.is_io_error() {
        RowFaultKind::Read
    } else {
        RowFaultKind::NoMemory
    }
}

impl<R: Read> Records<R> {
    pub(crate) fn new(alloc: Global, reader: R, limits: Limits) -> Records<R>
        ensures left { IfSome (R.remaining reader) (λ text. HasLeft R.remaining result (records_within limits text)) }
        ensures none { result.count ≡ 0 }
        ensures going { result.stage ≡ records_stage.Going }
    {
        Records {
            reader: ReaderBuilder::new()
                .has_headers(false)
                .flexible(true)
                .from_reader(alloc, Limited::new(reader, limits.bytes() as usize)),
            record: ByteRecord::new(alloc),
            count: 0,
            stage: RecordsStage::Going,
        }
    }

    /// Reads the next record, if there is one.
    pub(crate) fn read(&mut self) -> Result<bool, RowFaultKind>
        ensures failure { IfErr result IsFailure }
        ensures given_up { IfErr result (λ kind. kind ≡ RowFaultKind.Read → HasGivenUp self.new) }
        ensures taken { (left : List Record) → HasLeft R.remaining self.old left → IfOk result (λ found. TakesRecord R.remaining left found self.new) }
        ensures counts { Counts self.old result self.new }
        ensures stands { (all : List Record) → StandsIn R.remaining self.old all → ReadsIn R.remaining all result self.new }
    {
        let Some(count) = self.count.checked_add(1) else {
            self.stage = RecordsStage::Failed;
            return Err(RowFaultKind::Read);
        };
        match self.reader.read_byte_record(&mut self.record) {
            Ok(true) => {
                self.count = count;
                Ok(true)
            }
            Ok(false) => {
                self.stage = RecordsStage::Ended;
                Ok(false)
            }
            Err(error) => {
                self.stage = RecordsStage::Failed;
                Err(failure(&error))
            }
        }
    }

    /// The record that was read last.
    pub(crate) fn record(&self) -> &ByteRecord
        ensures value { fields_of result.now ≡ record_of self.now }
        ensures whole { is_cut (fields_of result.now) ≡ false }
    {
        let _bytes = byte_count(self.record.as_slice());
        &self.record
    }

    /// The field of the record that was read last at an index, counted from 0.
    pub(crate) fn field(&self, index: usize) -> Option<&[u8]>
        ensures { option_map (λ field. field.now) result ≡ field_at (record_of self.now) index }
    {
        self.record.get(index)
    }

    /// The row of the record that was read last, or of the one that could not be read after it.
    pub(crate) fn row(&self) -> u64
        ensures { result ≡ row_in self.now.stage self.now.count }
    {
        match self.stage {
            RecordsStage::Going => self.count,
            RecordsStage::Ended => self.count,
            RecordsStage::Failed => self.count.saturating_add(1),
        }
    }
}
