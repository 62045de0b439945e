//! What one record says by itself.
ghost use Rattle.std.specs.Prelude.{◌≡◌, ◌≢◌, ◌<◌, ◌≤◌, ◌+◌, ◌*◌, ◌-◌, ◌^◌, ◌∷◌, [], length, IfErr, MatchOption};
ghost use Rattle.csv.specs.Records.{field_at, fields_of};
ghost use Rattle.tcc_rows.specs.{private.Words.access_of, private.Words.session_of, private.ControlRecords.read_as};
ghost use Rattle.tcc_rows.specs.Lines.{digits_of, line_of, op_of, value_of};

use crate::RowFaultKind;
use csv::ByteRecord;
use tcc_txn::{Name, Op};

/// What a lawful record says that is not an operation.
#[derive(Clone, Copy)]
pub(crate) enum ControlRecord {
    /// An answer is wanted for what was finished so far.
    Seal,
    /// A transaction of the session begins.
    Begin { session: Name },
    /// The session's transaction is finished.
    Finish { session: Name, committed: bool },
    /// The session's transaction ends with unknown outcome, and so does the session.
    Unknown { session: Name },
}

/// The number with one more digit after its digits, if 64 bits have room for it.
fn with_digit(value: u64, digit: u8) -> Option<u64>
    requires { 48 ≤ digit }
    ensures { MatchOption result (2 ^ 64 ≤ value * 10 + (digit - 48)) (λ more. (more ≡ value * 10 + (digit - 48)) × (more < 2 ^ 64)) }
{
    match value.checked_mul(10) {
        Some(tens) => tens.checked_add(u64::from(digit - b'0')),
        None => None,
    }
}

/// The number of 64 bits that the digits denote.
fn parse_digits(digits: &[u8]) -> Option<u64>
    ensures { result ≡ digits_of digits.now }
{
    if digits.is_empty() {
        return None;
    }
    let mut value: u64 = 0;
    for digit in digits {
        if !digit.is_ascii_digit() {
            return None;
        }
        match with_digit(value, *digit) {
            Some(more) => value = more,
            None => return None,
        }
    }
    Some(value)
}

/// The number of 64 bits that the digits denote, without sign and without leading zeros.
fn read_value(digits: &[u8]) -> Option<u64>
    ensures { result ≡ value_of digits.now }
{
    match digits {
        [b'0', _, ..] => None,
        _ => parse_digits(digits),
    }
}

/// A record of one field.
fn read_seal(word: &[u8]) -> Result<ControlRecord, RowFaultKind>
    ensures line { read_as result ≡ line_of (word.now ∷ []) }
    ensures other { IfErr result (λ kind. kind ≢ RowFaultKind.Read) }
{
    if word == b"seal".as_slice() {
        Ok(ControlRecord::Seal)
    } else {
        Err(RowFaultKind::UnknownWord)
    }
}

/// A record of two fields.
fn read_turn(session: &[u8], word: &[u8]) -> Result<ControlRecord, RowFaultKind>
    ensures line { read_as result ≡ line_of (session.now ∷ word.now ∷ []) }
    ensures other { IfErr result (λ kind. kind ≢ RowFaultKind.Read) }
{
    let Ok(session) = Name::read(session) else {
        return Err(RowFaultKind::BadSession);
    };
    if word == b"begin".as_slice() {
        Ok(ControlRecord::Begin { session })
    } else if word == b"commit".as_slice() {
        Ok(ControlRecord::Finish {
            session,
            committed: true,
        })
    } else if word == b"abort".as_slice() {
        Ok(ControlRecord::Finish {
            session,
            committed: false,
        })
    } else if word == b"unknown".as_slice() {
        Ok(ControlRecord::Unknown { session })
    } else {
        Err(RowFaultKind::UnknownWord)
    }
}

/// A read or a write of the key.
pub(crate) fn read_op(writes: bool, key: &[u8], value: &[u8]) -> Result<Op, RowFaultKind>
    ensures op { result ≡ op_of writes key.now value.now }
    ensures other { IfErr result (λ kind. kind ≢ RowFaultKind.Read) }
{
    let Ok(key) = Name::read(key) else {
        return Err(RowFaultKind::BadKey);
    };
    let Some(value) = read_value(value) else {
        return Err(RowFaultKind::BadValue);
    };
    if !writes {
        Ok(Op::Get { key, value })
    } else if value == 0 {
        Err(RowFaultKind::WriteOfZero)
    } else {
        Ok(Op::Put { key, value })
    }
}

/// The session of an operation, which is usually that of the operation before.
pub(crate) fn read_session(last: &mut Option<Name>, session: &[u8]) -> Result<Name, RowFaultKind>
    ensures session { result ≡ session_of session.now }
    ensures other { IfErr result (λ kind. kind ≢ RowFaultKind.Read) }
{
    if let Some(name) = last {
        if name.is(session) {
            return Ok(*name);
        }
    }
    let Ok(name) = Name::read(session) else {
        return Err(RowFaultKind::BadSession);
    };
    *last = Some(name);
    Ok(name)
}

/// Whether the operation is a write.
pub(crate) fn read_access(word: &[u8]) -> Result<bool, RowFaultKind>
    ensures access { result ≡ access_of word.now }
    ensures other { IfErr result (λ kind. kind ≢ RowFaultKind.Read) }
{
    if word == b"r".as_slice() {
        Ok(false)
    } else if word == b"w".as_slice() {
        Ok(true)
    } else {
        Err(RowFaultKind::UnknownWord)
    }
}

/// The field at the index.
pub(crate) fn field(fields: &ByteRecord, index: usize) -> &[u8]
    requires { index < length (fields_of fields.now) }
    ensures { Some result.now ≡ field_at (fields_of fields.now) index }
{
    fields.get(index).unwrap()
}

/// What a record without four fields says, or what is wrong with it by itself.
pub(crate) fn read_line(fields: &ByteRecord) -> Result<ControlRecord, RowFaultKind>
    requires { length (fields_of fields.now) ≢ 4 }
    ensures line { read_as result ≡ line_of (fields_of fields.now) }
    ensures other { IfErr result (λ kind. kind ≢ RowFaultKind.Read) }
{
    match fields.len() {
        1 => read_seal(field(fields, 0)),
        2 => read_turn(field(fields, 0), field(fields, 1)),
        _ => Err(RowFaultKind::FieldCount),
    }
}
