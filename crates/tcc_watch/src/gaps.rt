//! Reads of values that nobody has written so far: while one waits, what has come has a read fault. Each read of the first transaction
//! that waits in a session is compared with each write that waits.
ghost use Rattle.std.specs.Prelude.{◌≡◌, true};
ghost use Rattle.tcc_watch.specs.private.Gaps.{AreGaps, HasGap, IsGap, IsNowhere, WaitsForNothing, is_coming, is_written_in};

use crate::lines::Line;
use crate::operations::{are_putting, visible_write};
use crate::values::WrittenValues;
use tcc_txn::{Name, Op};

/// Whether a transaction that waits in a session writes a value at a key.
fn is_written_in(line: &Line, key: &Name, value: u64) -> bool
    ensures { result ≡ is_written_in key.now value line.now }
{
    line.waiting
        .iter()
        .any(|txn| are_putting(txn.ops(), key, value))
}

/// Whether a transaction that waits writes a value at a key.
fn is_coming(lines: &[Line], key: &Name, value: u64) -> bool
    ensures { result ≡ is_coming lines.now key.now value }
{
    lines.iter().any(|line| is_written_in(line, key, value))
}

/// Whether nobody has written a value at a key.
fn is_nowhere(lines: &[Line], values: &WrittenValues, key: &Name, value: u64) -> bool
    ensures { result ≡ true → IsNowhere lines.now values.now key.now value }
{
    if value == 0 {
        return false;
    }
    if values.contains_key(key, value) {
        return false;
    }
    !is_coming(lines, key, value)
}

/// Whether an operation after some others reads a value of another transaction that nobody has written.
fn is_gap(lines: &[Line], values: &WrittenValues, before: &[Op], op: &Op) -> bool
    ensures { result ≡ true → IsGap lines.now values.now before.now op.now }
{
    let Op::Get { key, value } = op else {
        return false;
    };
    match visible_write(before, key) {
        Some(_) => false,
        None => is_nowhere(lines, values, key, *value),
    }
}

/// Whether one of some operations is such a read.
fn has_gap(lines: &[Line], values: &WrittenValues, ops: &[Op]) -> bool
    ensures { result ≡ true → HasGap lines.now values.now ops.now }
{
    for index in 0..ops.len() {
        if is_gap(lines, values, &ops[..index], &ops[index]) {
            return true;
        }
    }
    false
}

/// Whether the first transaction that waits in a session was committed, and reads a value that nobody has written.
fn waits_for_nothing(lines: &[Line], values: &WrittenValues, line: &Line) -> bool
    ensures { result ≡ true → WaitsForNothing lines.now values.now line.now }
{
    let Some(txn) = line.waiting.front() else {
        return false;
    };
    if !txn.committed() {
        return false;
    }
    has_gap(lines, values, txn.ops())
}

/// Whether in one of the sessions the first transaction that waits was committed, and reads a value that nobody has written.
pub(crate) fn are_gaps(lines: &[Line], values: &WrittenValues) -> bool
    ensures { result ≡ true → AreGaps lines.now values.now }
{
    for index in 0..lines.len() {
        if waits_for_nothing(lines, values, &lines[index]) {
            return true;
        }
    }
    false
}
