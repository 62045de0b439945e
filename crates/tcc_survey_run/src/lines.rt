//! The lines of a survey as text, each made as a whole before a byte of it is written.
ghost use Rattle.std.specs.Prelude.{◌≡◌, IfOk, map, string_bytes};
ghost use Rattle.tcc_survey_run.specs.Texts.{circle_text, name_text, read_text, total_text};

use crate::counting::{NameCount, Totals};
use crate::naming::name_words;
use crate::told::ToldRead;
use std::alloc::Global;
use tcc_answer::pieces::{joined, push};
use tcc_print::texts::push_operation;
use tcc_txn::NoMemory;

/// The line of a contradicted read, with the labels of the reader and of the writer.
pub(crate) fn read_line(
    alloc: Global,
    reader: &str,
    writer: &str,
    told: &ToldRead,
) -> Result<Vec<u8>, NoMemory>
    ensures { IfOk result (λ text. text.items ≡ read_text reader.now writer.now told.now) }
{
    let mut text = joined(alloc, &[b"contradicted ", reader.as_bytes()])?;
    push_operation(alloc, &mut text, told.op, &told.key, told.value)?;
    push(&mut text, &[b": knew of ", writer.as_bytes(), b", "])?;
    push(&mut text, &[name_words(told.name).as_bytes(), b"\n"])?;
    Ok(text)
}

/// The line of a usual name.
pub(crate) fn name_line(alloc: Global, one: &NameCount) -> Result<Vec<u8>, NoMemory>
    ensures { IfOk result (λ text. text.items ≡ name_text one.now) }
{
    let name = name_words(one.name).as_bytes();
    let count = one.count.to_string(alloc)?;
    joined(alloc, &[name, b": ", count.as_bytes(), b"\n"])
}

/// The last line.
pub(crate) fn total_line(alloc: Global, totals: &Totals) -> Result<Vec<u8>, NoMemory>
    ensures { IfOk result (λ text. text.items ≡ total_text totals.now.contradicted totals.now.reads totals.now.faults) }
{
    let Totals {
        contradicted,
        reads,
        faults,
    } = totals;
    let text = format!(in alloc;
        "{contradicted} contradicted reads of {reads}, {faults} faults\n"
    )?;
    Ok(text.into_bytes())
}

/// The line of transactions in a circle, by their labels.
pub(crate) fn circle_line(alloc: Global, labels: &[String]) -> Result<Vec<u8>, NoMemory>
    ensures { IfOk result (λ text. text.items ≡ circle_text (map string_bytes labels.now)) }
{
    let mut text = joined(alloc, &[b"circular:"])?;
    for label in labels {
        push(&mut text, &[b" ", label.as_bytes()])?;
    }
    push(&mut text, &[b"\n"])?;
    Ok(text)
}
