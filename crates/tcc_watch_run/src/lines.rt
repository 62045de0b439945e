//! The lines of histories of which only their size is said.
ghost use Rattle.std.specs.Prelude.{◌≡◌, IfOk};
ghost use Rattle.serde_json.specs.View.{view};
ghost use Rattle.tcc_answer.specs.Json.{json_line};
ghost use Rattle.tcc_watch_run.specs.Watching.{consistent_json, consistent_line, consistent_text, still_json, still_line, still_text};

use serde_json::{Value, json};
use std::alloc::{AllocError, Global};
use tcc_answer::object_line;
use tcc_txn::NoMemory;

fn consistent_text(alloc: Global, transactions: usize, sessions: u32) -> Result<Vec<u8>, NoMemory>
    ensures { IfOk result (λ text. text.items ≡ consistent_text transactions sessions) }
{
    let text = format!(in alloc; "consistent: {transactions} transactions, {sessions} sessions\n")?;
    Ok(text.into_bytes())
}

fn consistent_json(alloc: Global, transactions: usize, sessions: u32) -> Result<Value, AllocError>
    ensures { IfOk result (λ v. view v ≡ consistent_json transactions sessions) }
{
    json!(in alloc; {
        "answer": "consistent",
        "sessions": sessions,
        "transactions": transactions
    })
}

fn consistent_object(alloc: Global, transactions: usize, sessions: u32) -> Result<Vec<u8>, NoMemory>
    ensures { IfOk result (λ line. line.items ≡ json_line (consistent_json transactions sessions)) }
{
    object_line(alloc, &consistent_json(alloc, transactions, sessions)?)
}

/// The line of a consistent history with these counts of committed transactions and sessions.
pub(crate) fn consistent_line(
    alloc: Global,
    json: bool,
    transactions: usize,
    sessions: u32,
) -> Result<Vec<u8>, NoMemory>
    ensures { IfOk result (λ line. line.items ≡ consistent_line json transactions sessions) }
{
    if json {
        consistent_object(alloc, transactions, sessions)
    } else {
        consistent_text(alloc, transactions, sessions)
    }
}

fn still_text(alloc: Global, transactions: usize, sessions: u32) -> Result<Vec<u8>, NoMemory>
    ensures { IfOk result (λ text. text.items ≡ still_text transactions sessions) }
{
    let text = format!(in alloc;
        "anomaly: still, {transactions} transactions, {sessions} sessions\n"
    )?;
    Ok(text.into_bytes())
}

fn still_json(alloc: Global, transactions: usize, sessions: u32) -> Result<Value, AllocError>
    ensures { IfOk result (λ v. view v ≡ still_json transactions sessions) }
{
    json!(in alloc; {
        "answer": "anomaly",
        "sessions": sessions,
        "still": true,
        "transactions": transactions
    })
}

fn still_object(alloc: Global, transactions: usize, sessions: u32) -> Result<Vec<u8>, NoMemory>
    ensures { IfOk result (λ line. line.items ≡ json_line (still_json transactions sessions)) }
{
    object_line(alloc, &still_json(alloc, transactions, sessions)?)
}

/// The line of a history that still has an anomaly, with these counts of committed transactions and sessions.
pub(crate) fn still_line(
    alloc: Global,
    json: bool,
    transactions: usize,
    sessions: u32,
) -> Result<Vec<u8>, NoMemory>
    ensures { IfOk result (λ line. line.items ≡ still_line json transactions sessions) }
{
    if json {
        still_object(alloc, transactions, sessions)
    } else {
        still_text(alloc, transactions, sessions)
    }
}
