//! What is reported of a snapshot, or why nothing was judged, and the number that the run then ends with.
ghost use Rattle.std.specs.Prelude.{◌≡◌, ◌⊎◌, IfOk, true, false};
ghost use Rattle.tcc_reads.specs.Traced.{traced_history};
ghost use Rattle.tcc_answer.specs.Json.{json_line};
ghost use Rattle.tcc_full.specs.{Records.records_of, Rows.HasRowsOf, declared.rows.OperationRows.OperationRows};
ghost use Rattle.tcc_full.specs.FullAnswer.{IsFound, first_json, found_json, found_status, order_json, records_by, records_with};
ghost use Rattle.tcc_full.specs.Runs.{TellsDevice, TellsFault, TellsFound, TellsMemory};

use crate::finding::FoundAnswer;
use crate::lookup::Lookup;
use crate::objects::{Report, ReportOptions, ended_line, row_line};
use crate::rows::operation_rows;
use std::alloc::Global;
use std::io::Write;
use tcc_answer::Labels;
use tcc_answering::First;
use tcc_graph::LargeGraph;
use tcc_print::printing::{print_memory, print_text};
use tcc_print::status::{order_status, row_status};
use tcc_print::{RunContext, Status};
use tcc_reads::{Traced, resolve_traced};
use tcc_rows::{RowFault, RowFaultKind};
use tcc_txn::{Bounds, NoMemory, SnapshotWithin};

/// The line of an order, where so many transactions are required.
fn order_line<B: Bounds>(
    report: &Report<B>,
    required: u32,
    order: &[u32],
) -> Result<Vec<u8>, NoMemory>
    ensures { IfOk result (λ line. line.items ≡ json_line (order_json report.now.asked.now required (records_of report.now.lookup.now) order.now)) }
{
    report.consistent_line(order, order_status(order, required))
}

/// The line of a first answer, where so many transactions are required of an order.
fn first_line<B: Bounds>(
    report: &Report<B>,
    required: u32,
    first: &First,
) -> Result<Vec<u8>, NoMemory>
    ensures { IfOk result (λ line. line.items ≡ json_line (first_json report.now.asked.now required (records_of report.now.lookup.now) first.now)) }
{
    match first {
        First::Order(order) => order_line(report, required, order),
        First::Cycle(links) => report.anomaly_line(links),
    }
}

/// The line of what is found, where so many transactions are required of an order.
fn found_line<B: Bounds>(
    report: &Report<B>,
    required: u32,
    found: &FoundAnswer,
) -> Result<Vec<u8>, NoMemory>
    ensures { IfOk result (λ line. line.items ≡ json_line (found_json report.now.asked.now required (records_of report.now.lookup.now) found.now)) }
{
    match found {
        FoundAnswer::Unresolved(faults) => report.unresolved_line(faults),
        FoundAnswer::Resolved { first, .. } => first_line(report, required, first),
    }
}

/// How a run ends that tells what is found.
pub(crate) fn found_status(found: &FoundAnswer, required: u32) -> Status
    ensures { result ≡ found_status required found.now }
{
    match found {
        FoundAnswer::Unresolved(_) => Status::ReadFaults,
        FoundAnswer::Resolved {
            first: First::Order(order),
            ..
        } => order_status(order, required),
        FoundAnswer::Resolved {
            first: First::Cycle(_),
            ..
        } => Status::Anomaly,
    }
}

/// The line of what is found for a snapshot, by a graph, with the rows of the operations in a text.
fn line_by<T, G, B: Bounds>(
    run: &RunContext<T, G>,
    asked: &ReportOptions,
    text: &[u8],
    snapshot: &SnapshotWithin<B>,
    graph: &LargeGraph,
    found: &FoundAnswer,
) -> Result<Vec<u8>, NoMemory>
    ensures { IfOk result (λ line. (rows : OperationRows) × HasRowsOf text.now rows
        × (line.items ≡ json_line (found_json asked.now run.now.options.now.required (records_with snapshot.now graph.now rows) found.now))) }
{
    let alloc = run.alloc;
    let rows = operation_rows(alloc, text)?;
    let labels = Labels::of_large(alloc, graph)?;
    let lookup = Lookup {
        snapshot,
        graph,
        labels: &labels,
        rows: &rows,
    };
    let report = Report {
        alloc,
        asked,
        lookup: &lookup,
    };
    found_line(&report, run.options.required, found)
}

/// The graph of a snapshot, of which each read that can't be traced is left out.
fn traced_graph<B: Bounds>(
    alloc: Global,
    snapshot: &SnapshotWithin<B>,
) -> Result<LargeGraph, NoMemory>
    ensures { IfOk result (λ graph. graph ≡ traced_history snapshot.now) }
{
    let Traced { history, .. } = resolve_traced(alloc, snapshot)?;
    LargeGraph::build(alloc, history)
}

/// The line of what is found for a snapshot, with the rows of the operations in a text.
fn told_line<T, G, B: Bounds>(
    run: &RunContext<T, G>,
    asked: &ReportOptions,
    text: &[u8],
    snapshot: &SnapshotWithin<B>,
    found: &FoundAnswer,
) -> Result<Vec<u8>, NoMemory>
    requires { IsFound asked.now.level snapshot.now found.now }
    ensures { IfOk result (λ line. (rows : OperationRows) × HasRowsOf text.now rows
        × (line.items ≡ json_line (found_json asked.now run.now.options.now.required (records_by snapshot.now rows) found.now))) }
{
    match found {
        FoundAnswer::Unresolved(_) => {
            // Of its transactions only the number is reported, and no read changes that.
            let graph = traced_graph(run.alloc, snapshot)?;
            line_by(run, asked, text, snapshot, &graph, found)
        }
        FoundAnswer::Resolved { graph, .. } => line_by(run, asked, text, snapshot, graph, found),
    }
}

/// Tells that memory is out.
pub(crate) fn tell_memory<W: Write>(alloc: Global, asked: &ReportOptions, out: &mut W) -> u8
    ensures { TellsMemory asked.now (W.contents out.old) (W.contents out.new) result }
{
    match ended_line(alloc, asked, "memory", Status::Memory) {
        Ok(line) => print_text(out, &line, Status::Memory),
        Err(NoMemory) => print_memory(out, true),
    }
}

/// Tells what is found for a snapshot, with the rows of the operations in a text.
pub(crate) fn tell_found<T, G, B: Bounds, W: Write>(
    run: &RunContext<T, G>,
    asked: &ReportOptions,
    text: &[u8],
    snapshot: &SnapshotWithin<B>,
    found: &FoundAnswer,
    out: &mut W,
) -> u8
    requires { IsFound asked.now.level snapshot.now found.now }
    ensures { TellsFound asked.now run.now.options.now.required text.now snapshot.now found.now (W.contents out.old) (W.contents out.new) result
        ⊎ TellsMemory asked.now (W.contents out.old) (W.contents out.new) result }
{
    match told_line(run, asked, text, snapshot, found) {
        Ok(line) => print_text(out, &line, found_status(found, run.options.required)),
        Err(NoMemory) => tell_memory(run.alloc, asked, out),
    }
}

/// Tells the fault of the records, or that of their reader.
pub(crate) fn tell_fault<W: Write>(
    alloc: Global,
    asked: &ReportOptions,
    fault: &RowFault,
    out: &mut W,
) -> u8
    ensures { TellsFault asked.now fault.now (W.contents out.old) (W.contents out.new) result
        ⊎ TellsMemory asked.now (W.contents out.old) (W.contents out.new) result }
{
    if matches!(fault.kind, RowFaultKind::NoMemory) {
        return tell_memory(alloc, asked, out);
    }
    match row_line(alloc, asked, fault) {
        Ok(line) => print_text(out, &line, row_status(&fault.kind)),
        Err(NoMemory) => tell_memory(alloc, asked, out),
    }
}

/// Tells that the records could not be opened: a device failed, or memory was out.
pub fn tell_unread<W: Write>(
    alloc: Global,
    asked: &ReportOptions,
    is_memory_out: bool,
    out: &mut W,
) -> u8
    ensures device { is_memory_out ≡ false → TellsDevice asked.now (W.contents out.old) (W.contents out.new) result
        ⊎ TellsMemory asked.now (W.contents out.old) (W.contents out.new) result }
    ensures memory { is_memory_out ≡ true → TellsMemory asked.now (W.contents out.old) (W.contents out.new) result }
{
    if is_memory_out {
        return tell_memory(alloc, asked, out);
    }
    match ended_line(alloc, asked, "device", Status::Device) {
        Ok(line) => print_text(out, &line, Status::Device),
        Err(NoMemory) => tell_memory(alloc, asked, out),
    }
}
