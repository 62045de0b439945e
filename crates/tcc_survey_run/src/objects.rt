//! The lines of a survey as JSON, each an object that is made as a whole before a byte of it is written.
ghost use Rattle.std.specs.Prelude.{◌≡◌, IfOk, map, string_bytes};
ghost use Rattle.serde_json.specs.Data.{array, string};
ghost use Rattle.serde_json.specs.View.{items_of, view};
ghost use Rattle.tcc_answer.specs.Json.{json_line};
ghost use Rattle.tcc_survey_run.specs.Json.{circle_json, name_json, read_json, total_json};

use crate::counting::{NameCount, Totals};
use crate::naming::name_words;
use crate::told::ToldRead;
use serde_json::{Value, json};
use std::alloc::{AllocError, Global};
use tcc_answer::{Values, list_json, object_line};
use tcc_txn::NoMemory;

fn read_json(
    alloc: Global,
    reader: &str,
    writer: &str,
    told: &ToldRead,
) -> Result<Value, AllocError>
    ensures { IfOk result (λ v. view v ≡ read_json reader.now writer.now told.now) }
{
    json!(in alloc; {
        "contradicted": reader,
        "key": told.key.to_string(alloc)?,
        "name": name_words(told.name),
        "op": told.op,
        "value": told.value,
        "writer": writer
    })
}

/// The line of a contradicted read, with the labels of the reader and of the writer.
pub(crate) fn read_object(
    alloc: Global,
    reader: &str,
    writer: &str,
    told: &ToldRead,
) -> Result<Vec<u8>, NoMemory>
    ensures { IfOk result (λ line. line.items ≡ json_line (read_json reader.now writer.now told.now)) }
{
    object_line(alloc, &read_json(alloc, reader, writer, told)?)
}

fn name_json(alloc: Global, one: &NameCount) -> Result<Value, AllocError>
    ensures { IfOk result (λ v. view v ≡ name_json one.now) }
{
    json!(in alloc; {
        "count": one.count,
        "name": name_words(one.name)
    })
}

/// The line of a usual name.
pub(crate) fn name_object(alloc: Global, one: &NameCount) -> Result<Vec<u8>, NoMemory>
    ensures { IfOk result (λ line. line.items ≡ json_line (name_json one.now)) }
{
    object_line(alloc, &name_json(alloc, one)?)
}

fn total_json(alloc: Global, totals: &Totals) -> Result<Value, AllocError>
    ensures { IfOk result (λ v. view v ≡ total_json totals.now.contradicted totals.now.reads totals.now.faults) }
{
    json!(in alloc; {
        "answer": "survey",
        "contradicted": totals.contradicted,
        "faults": totals.faults,
        "reads": totals.reads
    })
}

/// The last line.
pub(crate) fn total_object(alloc: Global, totals: &Totals) -> Result<Vec<u8>, NoMemory>
    ensures { IfOk result (λ line. line.items ≡ json_line (total_json totals.now.contradicted totals.now.reads totals.now.faults)) }
{
    object_line(alloc, &total_json(alloc, totals)?)
}

/// Labels as texts of JSON.
struct Texts;

impl Values<String> for Texts {
    ghost json = { λ _ label. string (string_bytes label) };

    fn value(&self, alloc: Global, label: &String) -> Result<Value, AllocError> {
        Value::try_from_str(alloc, label.as_str())
    }
}

fn labels_json(alloc: Global, labels: &[String]) -> Result<Value, AllocError>
    ensures { IfOk result (λ v. view v ≡ array (items_of (map string (map string_bytes labels.now)))) }
{
    list_json(alloc, &Texts, labels)
}

fn circle_json(alloc: Global, labels: &[String]) -> Result<Value, AllocError>
    ensures { IfOk result (λ v. view v ≡ circle_json (map string_bytes labels.now)) }
{
    json!(in alloc; {
        "answer": "circular",
        "transactions": labels_json(alloc, labels)?
    })
}

/// The line of transactions in a circle, by their labels.
pub(crate) fn circle_object(alloc: Global, labels: &[String]) -> Result<Vec<u8>, NoMemory>
    ensures { IfOk result (λ line. line.items ≡ json_line (circle_json (map string_bytes labels.now))) }
{
    object_line(alloc, &circle_json(alloc, labels)?)
}
