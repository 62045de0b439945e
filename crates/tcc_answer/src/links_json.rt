//! Links and steps as JSON.
ghost use Rattle.std.specs.Prelude.{◌≡◌, ◌++◌, IfOk, OnOk, false, map, string_bytes};
ghost use Rattle.serde_json.specs.View.{items_of, view};
ghost use Rattle.serde_json.specs.Written.{items_text};
ghost use Rattle.tcc_graph.specs.declared.step.Step.TheVariants as step;
ghost use Rattle.tcc_answer.specs.Json.{link_json, step_json, word_text};
ghost use Rattle.tcc_answer.specs.private.Pieces.{derived_head};

use crate::pieces::{Objects, push, push_objects, push_value};
use serde_json::{Value, json};
use std::alloc::{AllocError, Global};
use tcc_graph::{Labels, Link, Step};
use tcc_txn::{Name, NoMemory};

fn session_json(alloc: Global, labels: &Labels, from: u32, to: u32) -> Result<Value, AllocError>
    ensures { IfOk result (λ v. view v ≡ step_json labels.now (step.Session from to)) }
{
    json!(in alloc; {
        "from": labels.at(from),
        "kind": "session",
        "to": labels.at(to)
    })
}

fn reads_json(
    alloc: Global,
    labels: &Labels,
    from: u32,
    to: u32,
    key: &Name,
) -> Result<Value, AllocError>
    ensures { IfOk result (λ v. view v ≡ step_json labels.now (step.Reads from to key.now)) }
{
    json!(in alloc; {
        "from": labels.at(from),
        "key": key.to_string(alloc)?,
        "kind": "reads",
        "to": labels.at(to)
    })
}

fn step_json(alloc: Global, labels: &Labels, step: &Step) -> Result<Value, AllocError>
    ensures { IfOk result (λ v. view v ≡ step_json labels.now step.now) }
{
    match step {
        Step::Session { from, to } => session_json(alloc, labels, *from, *to),
        Step::Reads { from, to, key } => reads_json(alloc, labels, *from, *to, key),
    }
}

impl Objects<Step> for Labels {
    ghost json = { step_json };

    fn push_object(&self, alloc: Global, text: &mut Vec<u8>, step: &Step) -> Result<(), NoMemory> {
        push_value(alloc, text, &step_json(alloc, self, step)?)
    }
}

/// A text in quotation marks, as JSON has it.
#[tactic(auto, unfolding(crate::specs::Json::word_text))]
pub fn quoted(alloc: Global, text: &str) -> Result<String, NoMemory>
    ensures { IfOk result (λ word. string_bytes word ≡ word_text text.now) }
{
    let value = Value::try_from_str(alloc, text)?;
    let word = value.to_string(alloc)?;
    Ok(word)
}

/// Adds what a derived link's object has before its walk.
fn push_head(
    alloc: Global,
    text: &mut Vec<u8>,
    labels: &Labels,
    from: u32,
    to: u32,
    key: &Name,
    reader: u32,
) -> Result<(), NoMemory>
    ensures { OnOk result (text.new.items ≡ text.old.items ++ derived_head labels.now from to key.now reader) }
{
    let from = quoted(alloc, labels.at(from))?;
    let to = quoted(alloc, labels.at(to))?;
    let reader = quoted(alloc, labels.at(reader))?;
    let name = key.to_string(alloc)?;
    let key = quoted(alloc, name.as_str())?;
    push(
        text,
        &[
            b"{\"from\":",
            from.as_bytes(),
            b",\"key\":",
            key.as_bytes(),
            b",\"kind\":\"derived\",\"reader\":",
            reader.as_bytes(),
            b",\"to\":",
            to.as_bytes(),
            b",\"walk\":[",
        ],
    )
}

impl Objects<Link> for Labels {
    ghost json = { link_json };

    fn push_object(&self, alloc: Global, text: &mut Vec<u8>, link: &Link) -> Result<(), NoMemory> {
        let (from, to) = (link.from(), link.to());
        match link {
            Link::Session { .. } => push_value(alloc, text, &session_json(alloc, self, from, to)?),
            Link::Reads { key, .. } => {
                push_value(alloc, text, &reads_json(alloc, self, from, to, key)?)
            }
            Link::Derived {
                key,
                reader,
                walk,
                ..
            } => {
                push_head(alloc, text, self, from, to, key, *reader)?;
                push_objects(alloc, text, self, walk.as_slice())?;
                push(text, &[b"}"])
            }
        }
    }
}

/// Adds the objects of links, and the bracket after them: what a list of links has after its first bracket.
pub fn push_links_json(
    alloc: Global,
    text: &mut Vec<u8>,
    labels: &Labels,
    links: &[Link],
) -> Result<(), NoMemory>
    ensures { OnOk result (text.new.items ≡ text.old.items ++ items_text false (items_of (map (link_json labels.now) links.now))) }
{
    push_objects(alloc, text, labels, links)
}
