//! The texts of faults, each made as a whole before a byte of it is written.
ghost use Rattle.std.specs.Prelude.{◌≡◌, ◌++◌, IfOk, OnOk, length, flat_map};
ghost use Rattle.tcc_print.specs.Texts.{certificate_fault_text, certificate_word, operation_text, read_fault_text, read_fault_told, read_word, row_fault_text, row_word, unresolved_text};

use crate::kinds::{certificate_told, row_told};
use std::alloc::Global;
use tcc_answer::pieces::{joined, push};
use tcc_cert::{CertFault, CertFaultKind};
use tcc_reads::{ReadFault, ReadFaultKind};
use tcc_rows::{RowFault, RowFaultKind};
use tcc_txn::{Name, NoMemory};

/// The word for a kind of row fault.
pub fn row_word(kind: &RowFaultKind) -> &'static str
    ensures { result.now ≡ row_word kind.now }
{
    row_told(kind).word
}

/// The line of a row fault.
pub fn row_fault(alloc: Global, fault: &RowFault) -> Result<Vec<u8>, NoMemory>
    ensures { IfOk result (λ text. text.items ≡ row_fault_text fault.now) }
{
    let row = fault.row.to_string(alloc)?;
    let word = row_word(&fault.kind);
    let mut text = joined(alloc, &[b"row ", row.as_bytes(), b": ", word.as_bytes()])?;
    if let RowFaultKind::Unfinished { session } = &fault.kind {
        push(&mut text, &[b" ", session.bytes()])?;
    }
    push(&mut text, &[b"\n"])?;
    Ok(text)
}

/// The word for a kind of read fault.
pub fn read_word(kind: ReadFaultKind) -> &'static str
    ensures { result.now ≡ read_word kind }
{
    match kind {
        ReadFaultKind::Duplicate => "Duplicate",
        ReadFaultKind::BrokenInternal => "BrokenInternal",
        ReadFaultKind::ThinAir => "ThinAir",
        ReadFaultKind::Aborted => "Aborted",
        ReadFaultKind::Intermediate => "Intermediate",
        ReadFaultKind::Future => "Future",
    }
}

/// Adds ` op I KEY VALUE`, by which an operation is reported.
pub fn push_operation(
    alloc: Global,
    text: &mut Vec<u8>,
    op: usize,
    key: &Name,
    value: u64,
) -> Result<(), NoMemory>
    ensures { OnOk result (text.new.items ≡ text.old.items ++ operation_text op key.now value) }
{
    let operation = format!(in alloc; " op {op} {key} {value}")?;
    push(text, &[operation.as_bytes()])
}

/// Adds a read fault, without the end of its line.
pub(crate) fn push_told(
    alloc: Global,
    text: &mut Vec<u8>,
    fault: &ReadFault,
) -> Result<(), NoMemory>
    ensures { OnOk result (text.new.items ≡ text.old.items ++ read_fault_told fault.now) }
{
    let session = fault.session;
    let place = fault.place.to_string(alloc)?;
    push(
        text,
        &[
            read_word(fault.kind).as_bytes(),
            b" ",
            session.bytes(),
            b"/",
            place.as_bytes(),
        ],
    )?;
    push_operation(alloc, text, fault.op as usize, &fault.key, fault.value)
}

/// Adds the line of a read fault.
fn push_read_fault(alloc: Global, text: &mut Vec<u8>, fault: &ReadFault) -> Result<(), NoMemory>
    ensures { OnOk result (text.new.items ≡ text.old.items ++ read_fault_text fault.now) }
{
    push_told(alloc, text, fault)?;
    push(text, &[b"\n"])
}

/// The text of a snapshot with read faults: their number, and a line for each.
pub fn unresolved(alloc: Global, faults: &[ReadFault]) -> Result<Vec<u8>, NoMemory>
    ensures { IfOk result (λ text. text.items ≡ unresolved_text faults.now) }
{
    let count = faults.len().to_string(alloc)?;
    let mut text = joined(alloc, &[b"unresolved: ", count.as_bytes(), b" faults\n"])?;
    for fault in faults {
        push_read_fault(alloc, &mut text, fault)?;
    }
    Ok(text)
}

/// The word for a kind of fault in the text of a certificate.
pub fn certificate_word(kind: CertFaultKind) -> &'static str
    ensures { result.now ≡ certificate_word kind }
{
    certificate_told(kind).word
}

/// The line of a fault in the text of a certificate.
pub fn certificate_fault(alloc: Global, fault: &CertFault) -> Result<Vec<u8>, NoMemory>
    ensures { IfOk result (λ text. text.items ≡ certificate_fault_text fault.now) }
{
    let line = fault.line.to_string(alloc)?;
    let word = certificate_word(fault.kind);
    joined(
        alloc,
        &[
            b"certificate line ",
            line.as_bytes(),
            b": ",
            word.as_bytes(),
            b"\n",
        ],
    )
}
