//! What is expected where a record has a fault, by the kind of the fault.
ghost use Rattle.std.specs.Prelude.{◌≡◌, ◌++◌, OnOk};
ghost use Rattle.tcc_print.specs.RowNotes.{expected_text, limit_text, most_text, shown_of, stands_text, wider, word_stands};

use std::alloc::Global;
use tcc_answer::pieces::push;
use tcc_rows::RowFaultKind;
use tcc_txn::{Limits, MAX_OPERATIONS, NoMemory};

/// What the note of a fault shows of the record.
#[derive(Clone, Copy)]
pub(super) enum Shown {
    /// The field at this index.
    Field(usize),
    /// All of it.
    Record,
    /// Nothing: the fault is one of the input.
    Nothing,
}

const NAME: &str = "a name, which is 1 to 32 of A-Z, a-z, 0-9, '_', '.' and '-'";

const RECORD: &str =
    "SESSION,begin or SESSION,r,KEY,VALUE or SESSION,w,KEY,VALUE or SESSION,commit or SESSION,abort or SESSION,unknown or seal";

/// What is shown of a record with this number of fields and a fault of this kind.
pub(super) fn shown_of(kind: &RowFaultKind, fields: usize) -> Shown
    ensures { result ≡ shown_of kind.now fields }
{
    match kind {
        RowFaultKind::BadSession => Shown::Field(0),
        RowFaultKind::UnknownWord if fields != 1 => Shown::Field(1),
        RowFaultKind::BadKey => Shown::Field(2),
        RowFaultKind::BadValue | RowFaultKind::WriteOfZero => Shown::Field(3),
        RowFaultKind::Unfinished { .. } | RowFaultKind::NoMemory => Shown::Nothing,
        RowFaultKind::FieldCount
        | RowFaultKind::UnknownWord
        | RowFaultKind::SessionEnded
        | RowFaultKind::NotBegun
        | RowFaultKind::AlreadyBegun
        | RowFaultKind::TooManyOps
        | RowFaultKind::TooManySessions
        | RowFaultKind::TooManyTransactions
        | RowFaultKind::TooManyKeys
        | RowFaultKind::TooManySeals
        | RowFaultKind::Read => Shown::Record,
    }
}

/// What is expected where a record with this number of fields has an unknown word.
fn word_stands(fields: usize) -> &'static str
    ensures { result.now ≡ word_stands fields }
{
    match fields {
        1 => RECORD,
        2 => "begin, commit, abort or unknown, or r or w with KEY and VALUE",
        4 => "r or w, or begin, commit, abort or unknown without KEY and VALUE",
        _ => "begin, r, w, commit, abort, unknown or seal",
    }
}

/// What a limit counts; where there is a wider limit, also by which option.
fn wider(limits: Limits, small: &'static str, large: &'static str) -> &'static str
    ensures { result.now ≡ wider limits small.now large.now }
{
    match limits {
        Limits::Small => small,
        Limits::Large => large,
    }
}

/// Adds what is expected there.
fn push_stands(text: &mut Vec<u8>, stands: &str) -> Result<(), NoMemory>
    ensures { OnOk result (text.new.items ≡ text.old.items ++ stands_text stands.now) }
{
    push(text, &[b"expected ", stands.as_bytes()])
}

/// Adds that there are at most this many of these.
fn push_most(alloc: Global, text: &mut Vec<u8>, most: u64, things: &str) -> Result<(), NoMemory>
    ensures { OnOk result (text.new.items ≡ text.old.items ++ most_text most things.now) }
{
    let most = most.to_string(alloc)?;
    push(
        text,
        &[b"at most ", most.as_bytes(), b" ", things.as_bytes()],
    )
}

/// Adds the limit of an input that a record exceeds, by the kind of its fault.
fn push_limit(
    alloc: Global,
    text: &mut Vec<u8>,
    limits: Limits,
    kind: &RowFaultKind,
) -> Result<(), NoMemory>
    ensures { OnOk result (text.new.items ≡ text.old.items ++ limit_text limits kind.now) }
{
    match kind {
        RowFaultKind::TooManySessions => {
            let things = wider(limits, "sessions, see --large", "sessions");
            push_most(alloc, text, limits.sessions() as u64, things)
        }
        RowFaultKind::TooManyTransactions => {
            let things = wider(
                limits,
                "transactions, aborted ones counted, see --large",
                "transactions, aborted ones counted",
            );
            push_most(alloc, text, limits.transactions() as u64, things)
        }
        RowFaultKind::TooManyKeys => {
            let things = wider(limits, "keys, see --large", "keys");
            push_most(alloc, text, limits.keys() as u64, things)
        }
        RowFaultKind::Read => {
            let things = "bytes, from a reader that does not fail";
            push_most(alloc, text, limits.bytes(), things)
        }
        RowFaultKind::TooManyOps => {
            let things = "operations in a transaction";
            push_most(alloc, text, MAX_OPERATIONS as u64, things)
        }
        RowFaultKind::TooManySeals => {
            let things = wider(limits, "seals, see --large", "seals");
            push_most(alloc, text, limits.seals() as u64, things)
        }
        _ => Ok(()),
    }
}

/// Adds what is expected where a record with this number of fields has a fault of this kind, in an input of these limits.
pub(super) fn push_expected(
    alloc: Global,
    text: &mut Vec<u8>,
    limits: Limits,
    kind: &RowFaultKind,
    fields: usize,
) -> Result<(), NoMemory>
    ensures { OnOk result (text.new.items ≡ text.old.items ++ expected_text limits kind.now fields) }
{
    match kind {
        RowFaultKind::FieldCount => push_stands(text, RECORD),
        RowFaultKind::BadSession | RowFaultKind::BadKey => push_stands(text, NAME),
        RowFaultKind::UnknownWord => push_stands(text, word_stands(fields)),
        RowFaultKind::BadValue => push_stands(
            text,
            "a whole number up to 18446744073709551615, in digits without a leading 0",
        ),
        RowFaultKind::WriteOfZero => push_stands(text, "a value other than the initial 0"),
        RowFaultKind::SessionEnded => push_stands(
            text,
            "another session, since this one ended by a transaction of unknown outcome",
        ),
        RowFaultKind::NotBegun => push_stands(
            text,
            "begin first, since no transaction of the session is begun",
        ),
        RowFaultKind::AlreadyBegun => push_stands(
            text,
            "commit, abort or unknown first, since a transaction of the session is begun",
        ),
        RowFaultKind::Unfinished { .. } => push(
            text,
            &[b"the input ends: expected commit, abort or unknown of the session"],
        ),
        RowFaultKind::NoMemory => push(text, &[b"out of memory"]),
        RowFaultKind::TooManyOps
        | RowFaultKind::TooManySessions
        | RowFaultKind::TooManyTransactions
        | RowFaultKind::TooManyKeys
        | RowFaultKind::TooManySeals
        | RowFaultKind::Read => push_limit(alloc, text, limits, kind),
    }
}
