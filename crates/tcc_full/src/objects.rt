//! The one object that says all about an answer, as a line that is made whole, item by item of its list.
ghost use Rattle.std.specs.Prelude.{◌≡◌, IfOk, option_map, codes};
ghost use Rattle.serde_json.specs.View.{view};
ghost use Rattle.tcc_graph.specs.Links.{cost};
ghost use Rattle.tcc_answer.specs.Json.{json_line, label_json};
ghost use Rattle.tcc_print.specs.{Json.row_fault_json, Statuses.row_status};
ghost use Rattle.tcc_full.specs.Objects.{anomaly_json, committed_count, consistent_json, ended_json, fault_json, field_name, is_large, level_word, limits_json, name_json, none_json, unresolved_json};
ghost use Rattle.tcc_full.specs.Records.{records_of};
ghost use Rattle.tcc_full.specs.private.Framing.{cycle_after, faults_after, list_before, order_after, order_before};

use crate::framing::Frame;
use crate::links::row_json;
use crate::lookup::Lookup;
use serde_json::{Value, json};
use std::alloc::{AllocError, Global};
use tcc_answer::pieces::{Objects, push_value};
use tcc_answer::{object_line, shape_of, shape_word};
use tcc_graph::{LargeGraph, Level, Link, steps_of};
use tcc_print::Status;
use tcc_print::json::row_fault_json;
use tcc_print::status::row_status;
use tcc_print::texts::read_word;
use tcc_reads::{ReadFault, ReadFaultKind};
use tcc_rows::RowFault;
use tcc_txn::{Bounds, Limits, MAX_OPERATIONS, NoMemory};

/// What was asked for, and of which version of the program.
#[derive(Clone, Copy)]
pub struct ReportOptions<'a> {
    pub version: &'a str,
    pub level: Level,
    pub limits: Limits,
}

/// What is reported of a snapshot: it says what was asked for, and looks up the operations that an answer speaks of.
#[derive(Drop)]
pub(crate) struct Report<'a, B: Bounds> {
    pub alloc: Global,
    pub asked: &'a ReportOptions<'a>,
    pub lookup: &'a Lookup<'a, B>,
}

fn level_word(level: Level) -> &'static str
    ensures { result.now ≡ level_word level }
{
    match level {
        Level::Causal => "causal",
        Level::Atomic => "atomic",
    }
}

fn is_large(limits: Limits) -> bool
    ensures { result ≡ is_large limits }
{
    match limits {
        Limits::Small => false,
        Limits::Large => true,
    }
}

fn limits_json(alloc: Global, limits: Limits) -> Result<Value, AllocError>
    ensures { IfOk result (λ v. view v ≡ limits_json limits) }
{
    json!(in alloc; {
        "bytes": limits.bytes(),
        "keys": limits.keys(),
        "operations": MAX_OPERATIONS,
        "seals": limits.seals(),
        "sessions": limits.sessions(),
        "transactions": limits.transactions()
    })
}

/// How many committed transactions there are.
fn committed_count(graph: &LargeGraph) -> u32
    ensures { result ≡ committed_count graph.now }
{
    graph.count().saturating_sub(1)
}

/// The name that the field has for a kind of read fault, where it has one.
fn field_name(kind: ReadFaultKind) -> Option<&'static str>
    ensures { option_map (λ name. name.now) result ≡ field_name kind }
{
    match kind {
        ReadFaultKind::BrokenInternal => Some("internal"),
        ReadFaultKind::Aborted => Some("G1a"),
        ReadFaultKind::Intermediate => Some("G1b"),
        ReadFaultKind::Duplicate | ReadFaultKind::ThinAir | ReadFaultKind::Future => None,
    }
}

fn name_json(alloc: Global, kind: ReadFaultKind) -> Result<Value, AllocError>
    ensures { IfOk result (λ v. view v ≡ name_json (field_name kind)) }
{
    match field_name(kind) {
        Some(name) => Value::try_from_str(alloc, name),
        None => Ok(Value::Null),
    }
}

impl<B: Bounds> Lookup<'_, B> {
    fn fault_json(&self, alloc: Global, fault: &ReadFault) -> Result<Value, AllocError>
        ensures { IfOk result (λ v. view v ≡ fault_json (records_of self.now) fault.now) }
    {
        let index = (fault.op as usize).saturating_sub(1);
        let row = self.rows.row(&fault.session, fault.place, index);
        json!(in alloc; {
            "key": fault.key.to_string(alloc)?,
            "kind": read_word(fault.kind),
            "name": name_json(alloc, fault.kind)?,
            "op": fault.op,
            "place": fault.place,
            "row": row_json(alloc, row)?,
            "session": fault.session.to_string(alloc)?,
            "value": fault.value
        })
    }
}

impl<B: Bounds> Objects<ReadFault> for Lookup<'_, B> {
    ghost json = { λ lookup fault. fault_json (records_of lookup) fault };

    fn push_object(
        &self,
        alloc: Global,
        text: &mut Vec<u8>,
        fault: &ReadFault,
    ) -> Result<(), NoMemory> {
        push_value(alloc, text, &self.fault_json(alloc, fault)?)
    }
}

impl<B: Bounds> Objects<u32> for Lookup<'_, B> {
    ghost json = { λ lookup number. label_json (records_of lookup).labels number };

    fn push_object(&self, alloc: Global, text: &mut Vec<u8>, number: &u32) -> Result<(), NoMemory> {
        push_value(
            alloc,
            text,
            &Value::try_from_str(alloc, self.labels.at(*number))?,
        )
    }
}

/// What the objects of a cycle and of read faults have before their list.
fn list_before(alloc: Global, word: &str) -> Result<Value, AllocError>
    ensures { IfOk result (λ v. view v ≡ list_before word.now) }
{
    json!(in alloc; { "answer": word })
}

impl<B: Bounds> Report<'_, B> {
    /// What the object of an order has before its names.
    fn order_before(&self) -> Result<Value, AllocError>
        ensures { IfOk result (λ v. view v ≡ order_before self.now.asked.now) }
    {
        let (alloc, asked) = (self.alloc, self.asked);
        json!(in alloc; {
            "answer": "consistent",
            "large": is_large(asked.limits),
            "level": level_word(asked.level),
            "limits": limits_json(alloc, asked.limits)?
        })
    }

    /// What it has after them.
    fn order_after(&self, status: Status) -> Result<Value, AllocError>
        ensures { IfOk result (λ v. view v ≡ order_after self.now.asked.now (records_of self.now.lookup.now) status) }
    {
        let (alloc, asked, lookup) = (self.alloc, self.asked, self.lookup);
        json!(in alloc; {
            "sessions": lookup.graph.sessions().len(),
            "status": status.code(),
            "transactions": committed_count(lookup.graph),
            "version": asked.version
        })
    }

    /// The line of an order of all transactions, with the status of the run.
    pub(crate) fn consistent_line(&self, order: &[u32], status: Status) -> Result<Vec<u8>, NoMemory>
        ensures { IfOk result (λ line. line.items ≡ json_line (consistent_json self.now.asked.now (records_of self.now.lookup.now) order.now status)) }
    {
        let frame = Frame {
            before: self.order_before()?,
            name: "order",
            after: self.order_after(status)?,
        };
        frame.line(self.alloc, self.lookup, order)
    }

    /// What the object of a cycle has after its links.
    fn cycle_after(&self, links: &[Link], steps: usize) -> Result<Value, AllocError>
        requires { steps ≡ cost links.now }
        ensures { IfOk result (λ v. view v ≡ cycle_after self.now.asked.now (records_of self.now.lookup.now) links.now) }
    {
        let (alloc, asked, lookup) = (self.alloc, self.asked, self.lookup);
        json!(in alloc; {
            "large": is_large(asked.limits),
            "least": true,
            "level": level_word(asked.level),
            "limits": limits_json(alloc, asked.limits)?,
            "sessions": lookup.graph.sessions().len(),
            "shape": shape_word(shape_of(links)),
            "status": Status::Anomaly.code(),
            "steps": steps,
            "transactions": committed_count(lookup.graph),
            "version": asked.version
        })
    }

    /// The line of a cycle; no other has fewer steps.
    pub(crate) fn anomaly_line(&self, links: &[Link]) -> Result<Vec<u8>, NoMemory>
        ensures { IfOk result (λ line. line.items ≡ json_line (anomaly_json self.now.asked.now (records_of self.now.lookup.now) links.now)) }
    {
        let steps = steps_of(links)?;
        let frame = Frame {
            before: list_before(self.alloc, "anomaly")?,
            name: "cycle",
            after: self.cycle_after(links, steps)?,
        };
        frame.line(self.alloc, self.lookup, links)
    }

    /// What the object of read faults has after them.
    fn faults_after(&self) -> Result<Value, AllocError>
        ensures { IfOk result (λ v. view v ≡ faults_after self.now.asked.now (records_of self.now.lookup.now)) }
    {
        let (alloc, asked, lookup) = (self.alloc, self.asked, self.lookup);
        json!(in alloc; {
            "large": is_large(asked.limits),
            "level": level_word(asked.level),
            "limits": limits_json(alloc, asked.limits)?,
            "sessions": lookup.graph.sessions().len(),
            "status": Status::ReadFaults.code(),
            "transactions": committed_count(lookup.graph),
            "version": asked.version
        })
    }

    /// The line of all read faults.
    pub(crate) fn unresolved_line(&self, faults: &[ReadFault]) -> Result<Vec<u8>, NoMemory>
        ensures { IfOk result (λ line. line.items ≡ json_line (unresolved_json self.now.asked.now (records_of self.now.lookup.now) faults.now)) }
    {
        let frame = Frame {
            before: list_before(self.alloc, "unresolved")?,
            name: "faults",
            after: self.faults_after()?,
        };
        frame.line(self.alloc, self.lookup, faults)
    }
}

fn none_json(
    alloc: Global,
    asked: &ReportOptions,
    fault: Value,
    status: Status,
) -> Result<Value, AllocError>
    ensures { IfOk result (λ v. view v ≡ none_json asked.now (view fault) status) }
{
    json!(in alloc; {
        "answer": "none",
        "fault": fault,
        "large": is_large(asked.limits),
        "level": level_word(asked.level),
        "limits": limits_json(alloc, asked.limits)?,
        "status": status.code(),
        "version": asked.version
    })
}

/// The line of records of which one has a fault, or whose reader failed.
pub(crate) fn row_line(
    alloc: Global,
    asked: &ReportOptions,
    fault: &RowFault,
) -> Result<Vec<u8>, NoMemory>
    ensures { IfOk result (λ line. line.items ≡ json_line (none_json asked.now (row_fault_json fault.now) (row_status fault.now.kind))) }
{
    let status = row_status(&fault.kind);
    let fault = row_fault_json(alloc, fault)?;
    object_line(alloc, &none_json(alloc, asked, fault, status)?)
}

/// The line of records that could not be judged for another reason, which the word names.
pub(crate) fn ended_line(
    alloc: Global,
    asked: &ReportOptions,
    word: &str,
    status: Status,
) -> Result<Vec<u8>, NoMemory>
    ensures { IfOk result (λ line. line.items ≡ json_line (none_json asked.now (ended_json word.now) status)) }
{
    let fault = json!(in alloc; { "answer": word })?;
    object_line(alloc, &none_json(alloc, asked, fault, status)?)
}
