//! The sessions, each with the transactions that wait to be delivered.
ghost use Rattle.std.specs.Prelude.{IfOk, IfSome, MatchOption};
ghost use Rattle.tcc_watch.specs.private.Lines.{AddsLine, GoesOn, HasNoLine, IsLineOf, WaitsMore};

use std::alloc::Global;
use std::collections::VecDeque;
use tcc_txn::{Name, NoMemory, Txn};

/// A session: how many of its transactions were delivered, and those after them, which wait.
#[derive(Drop)]
pub(crate) struct Line {
    pub name: Name,
    pub delivered: u32,
    pub waiting: VecDeque<Txn>,
}

/// The index of a session.
fn line_of(lines: &[Line], name: &Name) -> Option<usize>
    ensures { MatchOption result (HasNoLine lines.now name.now) (IsLineOf lines.now name.now) }
{
    for index in 0..lines.len() {
        if lines[index].name == *name {
            return Some(index);
        }
    }
    None
}

/// The index of a session. From `latest` on it is looked for first, since sessions come in about the same order again and again.
fn line_from(lines: &[Line], latest: usize, name: &Name) -> Option<usize>
    ensures { MatchOption result (HasNoLine lines.now name.now) (IsLineOf lines.now name.now) }
{
    for index in latest..lines.len() {
        if lines[index].name == *name {
            return Some(index);
        }
    }
    line_of(lines, name)
}

/// A new session, in which a transaction waits.
fn add_line(alloc: Global, lines: &mut Vec<Line>, name: Name, txn: Txn) -> Result<usize, NoMemory>
    ensures { IfOk result (AddsLine lines.old.items lines.new.items name txn) }
{
    let index = lines.len();
    let mut waiting = VecDeque::new(alloc);
    waiting.push_back(txn)?;
    lines.push(Line {
        name,
        delivered: 0,
        waiting,
    })?;
    Ok(index)
}

/// A session's transaction waits; the session is a new one where there was none of its name.
pub(crate) fn add_waiting(
    alloc: Global,
    lines: &mut Vec<Line>,
    latest: usize,
    name: Name,
    txn: Txn,
) -> Result<usize, NoMemory>
    ensures { IfOk result (WaitsMore lines.old.items lines.new.items name txn) }
{
    match line_from(lines, latest, &name) {
        Some(index) => {
            lines[index].waiting.push_back(txn)?;
            Ok(index)
        }
        None => {
            let index = add_line(alloc, lines, name, txn)?;
            Ok(index)
        }
    }
}

/// The first transaction that waits in a session, which is delivered now, with its place.
pub(crate) fn next_of(line: &mut Line) -> Option<(u32, Txn)>
    ensures { IfSome result (λ next. GoesOn line.old line.new next.0 next.1) }
{
    let place = line.delivered.checked_add(1)?;
    let txn = line.waiting.pop_front()?;
    line.delivered = place;
    Some((place, txn))
}
