//! What the lines so far have begun, finished and named.
ghost use Rattle.std.specs.Prelude.{◌≡◌, ℕ, ◌∷◌, [], false, true, List, IfOk, None, fold, length, ◌≢◌, IfErr, OnOk};
ghost use Rattle.std.specs.Option.{option_map_or};
ghost use Rattle.csv.specs.Records.{fields_of};
ghost use Rattle.tcc_rows.specs.{Lines.line_of, private.ControlRecords.line_by, private.StagesAfter.stage_after_line, Line.Line};
ghost use Rattle.tcc_rows.specs.Past.{least, lesser, open_sessions, ops_since, writes_of};
ghost use Rattle.tcc_rows.specs.SessionStates.{HoldsEnded, HoldsNames, HoldsSeats, IsAfter};
ghost use Rattle.tcc_rows.specs.private.Passing.{MayBegin, NotesName, PassesLine, PassesOperation, TakesLine, lower};
ghost use Rattle.tcc_txn.specs.{Transactions.writes_zero, declared.limits.Limits.Limits};
ghost use Rattle.tcc_rows.specs.declared.rows.RowsStage.TheVariants as stage;
ghost use Rattle.tcc_rows.specs.Line as line;

use super::Item;
use super::draft::Draft;
use super::line::{ControlRecord, field, read_access, read_op, read_session};
use super::seats::SeatTable;
use crate::RowFaultKind;
use csv::ByteRecord;
use std::alloc::Global;
use std::collections::BTreeSet;
use std::mem;
use tcc_txn::{KeyHints, Limits, Name, Op, SymbolTable, Txn};

/// What the lines so far have done. These are the limits, each session with the operations of the transaction that it has
/// begun, and the sessions that have ended. Then come the keys so far, how many transactions were begun and how many seals
/// there were. The last field has the numbers of the keys of the transaction that was finished last.
#[derive(Drop)]
pub(crate) struct RowProgress {
    limits: Limits,
    sessions: SeatTable,
    ended: BTreeSet<Name>,
    keys: SymbolTable,
    begun: usize,
    seals: usize,
    numbers: Vec<u32>,
}

/// The number of the key, which is added to the keys so far if it is new. It fails if that is one key too many.
fn note_key(keys: &mut SymbolTable, key: Name, limits: Limits) -> Result<u32, RowFaultKind>
    ensures noted { (names : List (List ℕ)) → HoldsNames limits names keys.old → NotesName limits names key result keys.new }
    ensures other { IfErr result (λ kind. kind ≢ RowFaultKind.Read) }
{
    if keys.len() < limits.keys() {
        return match keys.number(key) {
            Ok(number) => Ok(number),
            Err(_) => Err(RowFaultKind::NoMemory),
        };
    }
    match keys.find(&key) {
        Some(number) => Ok(number),
        None => Err(RowFaultKind::TooManyKeys),
    }
}

/// The session has ended.
fn note_ended(ended: &mut BTreeSet<Name>, session: Name) -> Result<(), RowFaultKind>
    ensures noted { OnOk result ((past : List Line) → HoldsEnded past ended.old → HoldsEnded (line.Unknown session ∷ past) ended.new) }
    ensures memory { IfErr result (λ kind. kind ≡ RowFaultKind.NoMemory) }
{
    match ended.insert(session) {
        Ok(_) => Ok(()),
        Err(_) => Err(RowFaultKind::NoMemory),
    }
}

/// Whether the session can begin a transaction, by the sessions so far.
fn may_begin(sessions: &SeatTable, session: &Name, limits: Limits) -> Result<(), RowFaultKind>
    ensures may { (past : List Line) → HoldsSeats limits past sessions.now → MayBegin limits past session.now result }
    ensures other { IfErr result (λ kind. kind ≢ RowFaultKind.Read) }
{
    match sessions.find(session) {
        Some(number) => {
            if sessions.has_begun(number) {
                Err(RowFaultKind::AlreadyBegun)
            } else {
                Ok(())
            }
        }
        None => {
            if sessions.len() >= limits.sessions() {
                Err(RowFaultKind::TooManySessions)
            } else {
                Ok(())
            }
        }
    }
}

/// The lesser of the two names, or that of the session if there is no other.
fn lesser_of(name: Option<Name>, session: &Name) -> Name
    ensures { result ≡ option_map_or (λ other. lesser other session.now) name session.now }
{
    match name {
        Some(other) if other <= *session => other,
        _ => *session,
    }
}

/// The least session that has begun a transaction, in byte order.
fn least_begun(sessions: &[(Name, Option<Draft>)]) -> Option<Name>
    ensures { result ≡ fold lower None sessions.now }
{
    let mut least = None;
    for seat in sessions {
        if seat.1.is_some() {
            least = Some(lesser_of(least, &seat.0));
        }
    }
    least
}

impl RowProgress {
    pub(crate) fn new(alloc: Global, limits: Limits) -> RowProgress
        ensures { IsAfter limits [] result }
    {
        RowProgress {
            limits,
            sessions: SeatTable::new(alloc),
            ended: BTreeSet::new(alloc),
            keys: SymbolTable::new(alloc),
            begun: 0,
            seals: 0,
            numbers: Vec::new(alloc),
        }
    }

    /// An answer is wanted.
    fn seal(&mut self) -> Result<(), RowFaultKind>
        ensures passed { (limits : Limits) (past : List Line) → IsAfter limits past self.old → PassesLine limits past line.Seal result self.new }
        ensures refused { IfErr result (λ kind. kind ≡ RowFaultKind.TooManySeals) }
    {
        if self.seals >= self.limits.seals() {
            return Err(RowFaultKind::TooManySeals);
        }
        self.seals += 1;
        Ok(())
    }

    /// A transaction of the session begins.
    fn begin(&mut self, alloc: Global, session: Name) -> Result<(), RowFaultKind>
        ensures passed { (limits : Limits) (past : List Line) → IsAfter limits past self.old → PassesLine limits past (line.Begin session) result self.new }
        ensures other { IfErr result (λ kind. kind ≢ RowFaultKind.Read) }
    {
        if self.ended.contains(&session) {
            return Err(RowFaultKind::SessionEnded);
        }
        may_begin(&self.sessions, &session, self.limits)?;
        if self.begun >= self.limits.transactions() {
            return Err(RowFaultKind::TooManyTransactions);
        }
        let room = mem::replace(&mut self.numbers, Vec::new(alloc));
        match self.sessions.begin(session, Draft::new(alloc, room)) {
            Ok(()) => {
                self.begun += 1;
                Ok(())
            }
            Err(_) => Err(RowFaultKind::NoMemory),
        }
    }

    /// The session's transaction is finished.
    fn finish(&mut self, session: Name, committed: bool) -> Result<Txn, RowFaultKind>
        ensures passed { (limits : Limits) (past : List Line) → IsAfter limits past self.old
            → PassesLine limits past (line.Finish session committed) result self.new }
        ensures finished { (limits : Limits) (past : List Line) → IsAfter limits past self.old
            → IfOk result (λ txn. txn ≡ record { ops = ops_since session past; committed = committed }) }
        ensures other { IfErr result (λ kind. kind ≢ RowFaultKind.Read) }
    {
        if self.ended.contains(&session) {
            return Err(RowFaultKind::SessionEnded);
        }
        let Some(number) = self.sessions.find(&session) else {
            return Err(RowFaultKind::NotBegun);
        };
        match self.sessions.end(number) {
            Some(draft) => Ok(draft.finish(committed, &mut self.numbers)),
            None => Err(RowFaultKind::NotBegun),
        }
    }

    /// The session's transaction ends with unknown outcome, and returns what it wrote. The session ends too.
    fn leave(&mut self, session: Name) -> Result<Txn, RowFaultKind>
        ensures passed { (limits : Limits) (past : List Line) → IsAfter limits past self.old
            → PassesLine limits past (line.Unknown session) result self.new }
        ensures finished { (limits : Limits) (past : List Line) → IsAfter limits past self.old
            → IfOk result (λ txn. txn ≡ record { ops = writes_of (ops_since session past); committed = true }) }
        ensures other { IfErr result (λ kind. kind ≢ RowFaultKind.Read) }
    {
        if self.ended.contains(&session) {
            return Err(RowFaultKind::SessionEnded);
        }
        let Some(number) = self.sessions.find(&session) else {
            return Err(RowFaultKind::NotBegun);
        };
        if !self.sessions.has_begun(number) {
            return Err(RowFaultKind::NotBegun);
        }
        note_ended(&mut self.ended, session)?;
        match self.sessions.end(number) {
            Some(draft) => Ok(draft.finish_writes()),
            None => Err(RowFaultKind::NoMemory),
        }
    }

    /// The session's transaction reads or writes.
    fn operate(&mut self, session: Name, op: Op) -> Result<(), RowFaultKind>
        requires { writes_zero op ≡ false }
        ensures passed { (limits : Limits) (past : List Line) → IsAfter limits past self.old
            → PassesLine limits past (line.Operation session op) result self.new }
        ensures other { IfErr result (λ kind. kind ≢ RowFaultKind.Read) }
    {
        if self.ended.contains(&session) {
            return Err(RowFaultKind::SessionEnded);
        }
        let key = op.key();
        let Some(number) = self.sessions.find(&session) else {
            return Err(RowFaultKind::NotBegun);
        };
        if let Err(kind) = self.sessions.operate(number, op) {
            return Err(kind);
        }
        match note_key(&mut self.keys, key, self.limits) {
            Ok(key) => self.sessions.note(number, key),
            Err(kind) => Err(kind),
        }
    }

    /// Passes an operation, if the four fields are one. `last` is the session of the operation before.
    fn pass_fields(
        &mut self,
        last: &mut Option<Name>,
        session: &[u8],
        word: &[u8],
        key: &[u8],
        value: &[u8],
    ) -> Result<(), RowFaultKind>
        ensures passed { (limits : Limits) (past : List Line) → IsAfter limits past self.old
            → PassesOperation limits past (session.now ∷ word.now ∷ key.now ∷ value.now ∷ []) result self.new }
        ensures other { IfErr result (λ kind. kind ≢ RowFaultKind.Read) }
    {
        let session = match read_session(last, session) {
            Ok(session) => session,
            Err(kind) => return Err(kind),
        };
        let writes = match read_access(word) {
            Ok(writes) => writes,
            Err(kind) => return Err(kind),
        };
        let op = match read_op(writes, key, value) {
            Ok(op) => op,
            Err(kind) => return Err(kind),
        };
        self.operate(session, op)
    }

    /// Passes a record of four fields, if it is an operation.
    pub(crate) fn pass_operation(
        &mut self,
        last: &mut Option<Name>,
        fields: &ByteRecord,
    ) -> Result<(), RowFaultKind>
        requires { length (fields_of fields.now) ≡ 4 }
        ensures passed { (limits : Limits) (past : List Line) → IsAfter limits past self.old
            → PassesOperation limits past (fields_of fields.now) result self.new }
        ensures other { IfErr result (λ kind. kind ≢ RowFaultKind.Read) }
    {
        self.pass_fields(
            last,
            field(fields, 0),
            field(fields, 1),
            field(fields, 2),
            field(fields, 3),
        )
    }

    /// Passes a record that is not an operation, which may finish something.
    pub(crate) fn pass(
        &mut self,
        alloc: Global,
        turn: ControlRecord,
    ) -> Result<Option<Item>, RowFaultKind>
        ensures passed { (limits : Limits) (past : List Line) → IsAfter limits past self.old → TakesLine limits past (line_by turn) result self.new }
        ensures going { IfOk result (λ given. stage_after_line given ≡ stage.Reading) }
        ensures other { IfErr result (λ kind. kind ≢ RowFaultKind.Read) }
    {
        match turn {
            ControlRecord::Seal => match self.seal() {
                Ok(()) => Ok(Some(Item::Seal)),
                Err(kind) => Err(kind),
            },
            ControlRecord::Begin { session } => match self.begin(alloc, session) {
                Ok(()) => Ok(None),
                Err(kind) => Err(kind),
            },
            ControlRecord::Finish { session, committed } => match self.finish(session, committed) {
                Ok(txn) => Ok(Some(Item::Finished(session, txn))),
                Err(kind) => Err(kind),
            },
            ControlRecord::Unknown { session } => match self.leave(session) {
                Ok(txn) => Ok(Some(Item::Unknown(session, txn))),
                Err(kind) => Err(kind),
            },
        }
    }

    /// The keys so far, and the numbers of those of the transaction that was finished last.
    pub(crate) fn key_hints(&self) -> KeyHints<'_> {
        KeyHints {
            names: self.keys.names(),
            numbers: &self.numbers,
        }
    }

    /// The least session whose transaction is not finished.
    pub(crate) fn unfinished(&self) -> Option<Name>
        ensures { (limits : Limits) (past : List Line) → IsAfter limits past self.now → result ≡ least (open_sessions past) }
    {
        least_begun(self.sessions.all())
    }
}
