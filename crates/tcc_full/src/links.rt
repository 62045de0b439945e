//! The links of a cycle as JSON, each with the value that was read and the rows of its operations.
ghost use Rattle.std.specs.Prelude.{◌≡◌, ◌++◌, IfOk, OnOk, string_bytes};
ghost use Rattle.serde_json.specs.View.{view};
ghost use Rattle.serde_json.specs.Written.{compact_text};
ghost use Rattle.tcc_full.specs.Links.{derived_json, link_json, reads_json, row_json, session_json, step_json};
ghost use Rattle.tcc_full.specs.Records.{records_of};
ghost use Rattle.tcc_full.specs.private.Framing.{IsDerivedFrame, walk_after, walk_before};

use crate::framing::Frame;
use crate::lookup::Lookup;
use serde_json::{Value, json};
use std::alloc::{AllocError, Global};
use tcc_answer::pieces::{Objects, push_value};
use tcc_graph::{Link, Step};
use tcc_txn::{Bounds, Name, NoMemory};

/// A row; null where there is none.
pub(crate) fn row_json(alloc: Global, row: Option<u32>) -> Result<Value, AllocError>
    ensures { IfOk result (λ v. view v ≡ row_json row) }
{
    match row {
        Some(row) => json!(in alloc; row),
        None => Ok(Value::Null),
    }
}

/// What a derived link has before its walk, by the names of its transactions, its rows and its value.
fn walk_before(
    alloc: Global,
    from: &str,
    key: String,
    reader: &str,
    to: &str,
    missed: Value,
    read: Value,
    value: u64,
) -> Result<Value, AllocError>
    ensures { IfOk result (λ v. view v ≡ walk_before from.now (string_bytes key) reader.now to.now (view missed) (view read) value) }
{
    json!(in alloc; {
        "from": from,
        "key": key,
        "kind": "derived",
        "missed": missed,
        "read": read,
        "reader": reader,
        "to": to,
        "value": value
    })
}

/// What it has after its walk: the row of the write that was read.
fn walk_after(alloc: Global, written: Value) -> Result<Value, AllocError>
    ensures { IfOk result (λ v. view v ≡ walk_after (view written)) }
{
    json!(in alloc; { "written": written })
}

impl<B: Bounds> Lookup<'_, B> {
    fn session_json(&self, alloc: Global, from: u32, to: u32) -> Result<Value, AllocError>
        ensures { IfOk result (λ v. view v ≡ session_json (records_of self.now) from to) }
    {
        json!(in alloc; {
            "from": self.labels.at(from),
            "kind": "session",
            "to": self.labels.at(to)
        })
    }

    fn reads_json(&self, alloc: Global, from: u32, to: u32, key: &Name) -> Result<Value, AllocError>
        ensures { IfOk result (λ v. view v ≡ reads_json (records_of self.now) from to key.now) }
    {
        json!(in alloc; {
            "from": self.labels.at(from),
            "key": key.to_string(alloc)?,
            "kind": "reads",
            "read": row_json(alloc, self.read_row(from, to, key))?,
            "to": self.labels.at(to),
            "value": self.value_from(from, key),
            "written": row_json(alloc, self.write_row(from, key))?
        })
    }

    fn step_json(&self, alloc: Global, step: &Step) -> Result<Value, AllocError>
        ensures { IfOk result (λ v. view v ≡ step_json (records_of self.now) step.now) }
    {
        match step {
            Step::Session { from, to } => self.session_json(alloc, *from, *to),
            Step::Reads { from, to, key } => self.reads_json(alloc, *from, *to, key),
        }
    }

    /// What a derived link has beside its walk: `reader` reads the key from `to`, and misses the write of `from`.
    fn derived_frame(
        &self,
        alloc: Global,
        from: u32,
        to: u32,
        key: &Name,
        reader: u32,
    ) -> Result<Frame, AllocError>
        ensures { IfOk result (IsDerivedFrame (records_of self.now) from to key.now reader) }
    {
        let missed = row_json(alloc, self.write_row(from, key))?;
        let read = row_json(alloc, self.read_row(to, reader, key))?;
        let value = self.value_from(to, key);
        let written = row_json(alloc, self.write_row(to, key))?;
        let from = self.labels.at(from);
        let reader = self.labels.at(reader);
        let to = self.labels.at(to);
        let key = key.to_string(alloc)?;
        let before = walk_before(alloc, from, key, reader, to, missed, read, value)?;
        let after = walk_after(alloc, written)?;
        Ok(Frame {
            before,
            name: "walk",
            after,
        })
    }

    /// Adds a derived link, step by step.
    fn push_derived(
        &self,
        alloc: Global,
        text: &mut Vec<u8>,
        from: u32,
        to: u32,
        key: &Name,
        reader: u32,
        walk: &[Step],
    ) -> Result<(), NoMemory>
        ensures { OnOk result (text.new.items ≡ text.old.items ++ compact_text (derived_json (records_of self.now) from to key.now reader walk.now)) }
    {
        let frame = self.derived_frame(alloc, from, to, key, reader)?;
        frame.push(alloc, text, self, walk)
    }
}

impl<B: Bounds> Objects<Step> for Lookup<'_, B> {
    ghost json = { λ lookup step. step_json (records_of lookup) step };

    fn push_object(&self, alloc: Global, text: &mut Vec<u8>, step: &Step) -> Result<(), NoMemory> {
        push_value(alloc, text, &self.step_json(alloc, step)?)
    }
}

impl<B: Bounds> Objects<Link> for Lookup<'_, B> {
    ghost json = { λ lookup link. link_json (records_of lookup) link };

    fn push_object(&self, alloc: Global, text: &mut Vec<u8>, link: &Link) -> Result<(), NoMemory> {
        let (from, to) = (link.from(), link.to());
        match link {
            Link::Session { .. } => push_value(alloc, text, &self.session_json(alloc, from, to)?),
            Link::Reads { key, .. } => {
                push_value(alloc, text, &self.reads_json(alloc, from, to, key)?)
            }
            Link::Derived {
                key,
                reader,
                walk,
                ..
            } => self.push_derived(alloc, text, from, to, key, *reader, walk.as_slice()),
        }
    }
}
