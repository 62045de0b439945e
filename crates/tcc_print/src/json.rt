//! Faults as JSON, each line made as a whole before a byte of it is written.
ghost use Rattle.std.specs.Prelude.{◌≡◌, IfOk};
ghost use Rattle.serde_json.specs.View.{view};
ghost use Rattle.tcc_answer.specs.Json.{json_line};
ghost use Rattle.tcc_print.specs.Json.{read_fault_json, row_fault_json, unresolved_json};

use crate::texts::{read_word, row_word};
use serde_json::{Value, json};
use std::alloc::{AllocError, Global};
use tcc_answer::object_line;
use tcc_answer::pieces::{Objects, push, push_objects, push_value};
use tcc_reads::ReadFault;
use tcc_rows::{RowFault, RowFaultKind};
use tcc_txn::NoMemory;

fn read_fault_json(alloc: Global, fault: &ReadFault) -> Result<Value, AllocError>
    ensures { IfOk result (λ v. view v ≡ read_fault_json fault.now) }
{
    json!(in alloc; {
        "key": fault.key.to_string(alloc)?,
        "kind": read_word(fault.kind),
        "op": fault.op,
        "place": fault.place,
        "session": fault.session.to_string(alloc)?,
        "value": fault.value
    })
}

/// The objects of read faults.
struct ReadFaults;

impl Objects<ReadFault> for ReadFaults {
    ghost json = { λ _ fault. read_fault_json fault };

    fn push_object(
        &self,
        alloc: Global,
        text: &mut Vec<u8>,
        fault: &ReadFault,
    ) -> Result<(), NoMemory> {
        push_value(alloc, text, &read_fault_json(alloc, fault)?)
    }
}

/// The object of a row fault.
pub fn row_fault_json(alloc: Global, fault: &RowFault) -> Result<Value, AllocError>
    ensures { IfOk result (λ v. view v ≡ row_fault_json fault.now) }
{
    let kind = row_word(&fault.kind);
    if let RowFaultKind::Unfinished { session } = &fault.kind {
        return json!(in alloc; {
            "answer": "row",
            "kind": kind,
            "row": fault.row,
            "session": session.to_string(alloc)?
        });
    }
    json!(in alloc; {
        "answer": "row",
        "kind": kind,
        "row": fault.row
    })
}

/// The line of a row fault.
pub fn row_fault(alloc: Global, fault: &RowFault) -> Result<Vec<u8>, NoMemory>
    ensures { IfOk result (λ line. line.items ≡ json_line (row_fault_json fault.now)) }
{
    object_line(alloc, &row_fault_json(alloc, fault)?)
}

/// The line of a snapshot with read faults.
pub fn unresolved(alloc: Global, faults: &[ReadFault]) -> Result<Vec<u8>, NoMemory>
    ensures { IfOk result (λ line. line.items ≡ json_line (unresolved_json faults.now)) }
{
    let mut line = Vec::new(alloc);
    push(&mut line, &[b"{\"answer\":\"unresolved\",\"faults\":["])?;
    push_objects(alloc, &mut line, &ReadFaults, faults)?;
    push(&mut line, &[b"}\n"])?;
    Ok(line)
}
