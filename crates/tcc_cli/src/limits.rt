//! The limits of what is read, as a table or as a line of JSON.
ghost use Rattle.std.specs.Prelude.{◌≡◌, IfOk};
ghost use Rattle.std.specs.String.{string_bytes};
ghost use Rattle.serde_json.specs.View.{view};
ghost use Rattle.tcc_print.specs.Printed.{PrintsOrMemory};
ghost use Rattle.tcc_cli.specs.Limits.{history_json, limit_line, limits_json, limits_text, printed_limits};

use serde_json::{Value, json};
use std::alloc::{AllocError, Global};
use std::io::Write;
use tcc_answer::object_line;
use tcc_answer::pieces::joined;
use tcc_base::MAX_WORKERS;
use tcc_print::Status;
use tcc_print::printing::{Made, print_memory, print_text};
use tcc_txn::{Limits, MAX_NAME_BYTES, MAX_OPERATIONS, NoMemory};

/// The line that names the columns of the table.
const HEAD: &[u8] = b"at most                       by default  with --large\n";

/// The limits of a history, as the line of `--full` has them.
fn history_json(alloc: Global, limits: Limits) -> Result<Value, AllocError>
    ensures { IfOk result (λ v. view v ≡ history_json limits) }
{
    json!(in alloc; {
        "bytes": limits.bytes(),
        "keys": limits.keys(),
        "operations": MAX_OPERATIONS,
        "seals": limits.seals(),
        "sessions": limits.sessions(),
        "transactions": limits.transactions()
    })
}

/// The object of all limits.
fn limits_json(alloc: Global) -> Result<Value, AllocError>
    ensures { IfOk result (λ v. view v ≡ limits_json) }
{
    json!(in alloc; {
        "answer": "limits",
        "default": history_json(alloc, Limits::Small)?,
        "large": history_json(alloc, Limits::Large)?,
        "name_bytes": MAX_NAME_BYTES,
        "workers": MAX_WORKERS
    })
}

/// A line of the table: what it is about, the most by default, and the most with `--large`.
fn limit_line(alloc: Global, about: &str, small: u64, large: u64) -> Result<String, AllocError>
    ensures { IfOk result (λ line. string_bytes line ≡ limit_line about.now small large) }
{
    format!(in alloc; "{about:<28}{small:>12}{large:>14}\n")
}

/// A line for a limit that is the same for both.
fn shared_line(alloc: Global, about: &str, most: u64) -> Result<String, AllocError>
    ensures { IfOk result (λ line. string_bytes line ≡ limit_line about.now most most) }
{
    limit_line(alloc, about, most, most)
}

/// The table of all limits.
fn limits_text(alloc: Global) -> Made
    ensures { IfOk result (λ text. text.items ≡ limits_text) }
{
    let (small, large) = (Limits::Small, Limits::Large);
    let sessions = limit_line(
        alloc,
        "sessions",
        small.sessions() as u64,
        large.sessions() as u64,
    )?;
    let transactions = limit_line(
        alloc,
        "transactions",
        small.transactions() as u64,
        large.transactions() as u64,
    )?;
    let operations = shared_line(alloc, "operations of a transaction", MAX_OPERATIONS as u64)?;
    let keys = limit_line(alloc, "keys", small.keys() as u64, large.keys() as u64)?;
    let seals = limit_line(alloc, "seals", small.seals() as u64, large.seals() as u64)?;
    let bytes = limit_line(alloc, "bytes", small.bytes(), large.bytes())?;
    let names = shared_line(alloc, "bytes of a name", MAX_NAME_BYTES as u64)?;
    let workers = shared_line(alloc, "workers", MAX_WORKERS as u64)?;
    joined(
        alloc,
        &[
            HEAD,
            sessions.as_bytes(),
            transactions.as_bytes(),
            operations.as_bytes(),
            keys.as_bytes(),
            seals.as_bytes(),
            bytes.as_bytes(),
            names.as_bytes(),
            workers.as_bytes(),
        ],
    )
}

/// The limits as a line of JSON, or as the table.
fn limits_made(alloc: Global, json: bool) -> Made
    ensures { IfOk result (λ text. text.items ≡ printed_limits json) }
{
    if json {
        object_line(alloc, &limits_json(alloc)?)
    } else {
        limits_text(alloc)
    }
}

/// Prints the limits, as a line of JSON or as a table, and returns the code that the run ends with.
pub fn print_limits<W: Write>(alloc: Global, json: bool, out: &mut W) -> u8
    ensures { PrintsOrMemory json (W.contents out.old) (W.contents out.new) (printed_limits json) Status.Success result }
{
    match limits_made(alloc, json) {
        Ok(text) => print_text(out, &text, Status::Success),
        Err(NoMemory) => print_memory(out, json),
    }
}
