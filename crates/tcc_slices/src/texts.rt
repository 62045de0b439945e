//! The records of a snapshot.
ghost use Rattle.std.specs.Prelude.{◌≡◌, ◌++◌, IfOk, OnOk, flat_map, string_bytes};
ghost use Rattle.tcc_slices.specs.Texts.{op_text, end_text, transaction_text, session_text, records_text};

use std::alloc::Global;
use tcc_txn::{Name, NoMemory, Op, Snapshot, Txn};

/// The record of an operation.
fn op_record(alloc: Global, session: &Name, op: &Op) -> Result<String, NoMemory>
    ensures { IfOk result (λ text. string_bytes text ≡ op_text session.now op.now) }
{
    match op {
        Op::Get { key, value } => Ok(format!(in alloc; "{session},r,{key},{value}\n")?),
        Op::Put { key, value } => Ok(format!(in alloc; "{session},w,{key},{value}\n")?),
    }
}

/// The record that ends a transaction.
fn end_record(alloc: Global, session: &Name, committed: bool) -> Result<String, NoMemory>
    ensures { IfOk result (λ text. string_bytes text ≡ end_text session.now committed) }
{
    if committed {
        Ok(format!(in alloc; "{session},commit\n")?)
    } else {
        Ok(format!(in alloc; "{session},abort\n")?)
    }
}

/// The records of operations, at the end of a text.
fn add_operations(
    alloc: Global,
    text: &mut Vec<u8>,
    session: &Name,
    ops: &[Op],
) -> Result<(), NoMemory>
    ensures { OnOk result (text.new.items ≡ text.old.items ++ flat_map (op_text session.now) ops.now) }
{
    for op in ops {
        let record = op_record(alloc, session, op)?;
        text.extend_from_slice(record.as_bytes())?;
    }
    Ok(())
}

/// The records of a transaction of this session, at the end of a text.
fn add_transaction(
    alloc: Global,
    text: &mut Vec<u8>,
    session: &Name,
    transaction: &Txn,
) -> Result<(), NoMemory>
    ensures { OnOk result (text.new.items ≡ text.old.items ++ transaction_text session.now transaction.now) }
{
    let begin = format!(in alloc; "{session},begin\n")?;
    text.extend_from_slice(begin.as_bytes())?;
    add_operations(alloc, text, session, transaction.ops())?;
    let end = end_record(alloc, session, transaction.committed())?;
    text.extend_from_slice(end.as_bytes())?;
    Ok(())
}

/// The records of a session, at the end of a text.
fn add_session(alloc: Global, text: &mut Vec<u8>, part: &(Name, Vec<Txn>)) -> Result<(), NoMemory>
    ensures { OnOk result (text.new.items ≡ text.old.items ++ flat_map (transaction_text part.now.0) part.now.1.items) }
{
    for transaction in &part.1 {
        add_transaction(alloc, text, &part.0, transaction)?;
    }
    Ok(())
}

/// The text of records that finish the transactions of a snapshot, session by session.
pub fn records(alloc: Global, snapshot: &Snapshot) -> Result<Vec<u8>, NoMemory>
    ensures { IfOk result (λ text. text.items ≡ records_text snapshot.now) }
{
    let mut text = Vec::new(alloc);
    for part in snapshot.parts() {
        add_session(alloc, &mut text, part)?;
    }
    Ok(text)
}
