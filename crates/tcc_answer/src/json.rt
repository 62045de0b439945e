//! Answers as JSON.
ghost use Rattle.std.specs.Prelude.{◌≡◌, ℕ, IfOk, OnOk, OnErr, Err, false, map, take};
ghost use Rattle.std.specs.Io.KnownBytes.{Appends};
ghost use Rattle.serde_json.specs.Data.{array};
ghost use Rattle.serde_json.specs.View.{view, items_of};
ghost use Rattle.serde_json.specs.Written.{has_float};
ghost use Rattle.tcc_answer.specs.declared.fault.WriteFault.TheVariants as fault;
ghost use Rattle.tcc_answer.specs.Json.{label_json, order_json, cycle_json, answer_json, json_line};

use crate::links_json::quoted;
use crate::pieces::{joined, push, push_objects};
use crate::text::shape_word;
use crate::values::{Values, list_json};
use crate::{Anomaly, Answer, Commit, WriteFault};
use serde_json::{Value, json};
use std::alloc::{AllocError, Global};
use std::io::Write;
use tcc_base::send;
use tcc_graph::Labels;
use tcc_txn::NoMemory;

impl Values<u32> for Labels {
    ghost json = { label_json };

    fn value(&self, alloc: Global, number: &u32) -> Result<Value, AllocError> {
        Value::try_from_str(alloc, self.at(*number))
    }
}

/// The labels of these numbers.
pub fn labels_json(alloc: Global, labels: &Labels, numbers: &[u32]) -> Result<Value, AllocError>
    ensures { IfOk result (λ v. view v ≡ array (items_of (map (label_json labels.now) numbers.now))) }
{
    list_json(alloc, labels, numbers)
}

fn commit_json(alloc: Global, commit: &Commit) -> Result<Value, AllocError>
    ensures { IfOk result (λ v. view v ≡ order_json commit.now) }
{
    json!(in alloc; {
        "answer": "consistent",
        "order": labels_json(alloc, commit.labels(), commit.order())?,
        "sessions": commit.sessions(),
        "transactions": commit.order().len().saturating_sub(1)
    })
}

/// The text of an object without floats, and a line feed.
pub fn object_line(alloc: Global, object: &Value) -> Result<Vec<u8>, NoMemory>
    requires { has_float (view object.now) ≡ false }
    ensures { IfOk result (λ line. line.items ≡ json_line (view object.now)) }
{
    let text = object.to_string(alloc)?;
    joined(alloc, &[text.as_bytes(), b"\n"])
}

/// The text of the object of an order, and a line feed.
fn commit_line(alloc: Global, commit: &Commit) -> Result<Vec<u8>, NoMemory>
    ensures { IfOk result (λ line. line.items ≡ json_line (order_json commit.now)) }
{
    object_line(alloc, &commit_json(alloc, commit)?)
}

/// The text of the object of a cycle, and a line feed.
fn cycle_line(alloc: Global, anomaly: &Anomaly) -> Result<Vec<u8>, NoMemory>
    ensures { IfOk result (λ line. line.items ≡ json_line (cycle_json anomaly.now)) }
{
    let shape = quoted(alloc, shape_word(anomaly.shape()))?;
    let steps = anomaly.cost().to_string(alloc)?;
    let mut line = Vec::new(alloc);
    push(&mut line, &[b"{\"answer\":\"anomaly\",\"cycle\":["])?;
    push_objects(alloc, &mut line, anomaly.labels(), anomaly.links())?;
    push(
        &mut line,
        &[
            b",\"shape\":",
            shape.as_bytes(),
            b",\"steps\":",
            steps.as_bytes(),
            b"}\n",
        ],
    )?;
    Ok(line)
}

/// The text of an answer's object, and a line feed.
fn json_line(alloc: Global, answer: &Answer) -> Result<Vec<u8>, NoMemory>
    ensures { IfOk result (λ line. line.items ≡ json_line (answer_json answer.now)) }
{
    match answer {
        Answer::Commit(commit) => commit_line(alloc, commit),
        Answer::Anomaly(anomaly) => cycle_line(alloc, anomaly),
    }
}

/// Writes the answer as one line of JSON. All memory for it is had before a byte is written. An interrupted write and one
/// that takes no bytes are failures too; then a part of the line, from its front, was written.
pub fn write_json<W: Write>(alloc: Global, answer: &Answer, out: &mut W) -> Result<(), WriteFault>
    ensures whole { OnOk result (Appends (W.contents out.old) (W.contents out.new) (json_line (answer_json answer.now))) }
    ensures part { OnErr result ((n : ℕ) × Appends (W.contents out.old) (W.contents out.new) (take n (json_line (answer_json answer.now)))) }
    ensures nothing { result ≡ Err fault.NoMemory → out.new ≡ out.old }
{
    let line = json_line(alloc, answer)?;
    send(out, &line)?;
    Ok(())
}
