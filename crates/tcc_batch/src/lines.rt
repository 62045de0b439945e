//! What is written of histories, as text or as lines of JSON.
ghost use Rattle.std.specs.Prelude.{◌≡◌, ◌++◌, IfErr, IfOk, OnOk, length, map};
ghost use Rattle.std.specs.Io.KnownBytes.{Appends};
ghost use Rattle.serde_json.specs.View.{view};
ghost use Rattle.tcc_print.specs.Printed.{EndsIn};
ghost use Rattle.tcc_batch.specs.Lines.{lines_text, report_json, report_line, report_text, shown_line, summary_json, summary_line, summary_text};
ghost use Rattle.tcc_batch.specs.Reports.{consistent_count, is_consistent};

use crate::report::{History, Report};
use serde_json::{Value, json};
use std::alloc::{AllocError, Global};
use std::io::Write;
use tcc_answer::object_line;
use tcc_answer::pieces::push;
use tcc_print::printing::{Made, Sent, send_made};
use tcc_txn::NoMemory;

/// How lines are wanted.
#[derive(Clone, Copy)]
pub struct LineOptions {
    /// Each is a line of JSON.
    pub json: bool,
    /// Histories with status 0 have none.
    pub failures: bool,
}

fn report_text(alloc: Global, report: &Report) -> Made
    ensures { IfOk result (λ text. text.items ≡ report_text report.now) }
{
    let (name, line) = (report.name.as_str(), report.finding.line());
    let text = format!(in alloc; "{name}: {line}\n")?;
    Ok(text.into_bytes())
}

fn report_json(alloc: Global, report: &Report) -> Result<Value, AllocError>
    ensures { IfOk result (λ v. view v ≡ report_json report.now) }
{
    json!(in alloc; {
        "history": report.name.as_str(),
        "line": report.finding.line(),
        "status": report.finding.code()
    })
}

/// The line of a history.
fn report_line(alloc: Global, report: &Report, json: bool) -> Made
    ensures { IfOk result (λ text. text.items ≡ report_line json report.now) }
{
    if json {
        object_line(alloc, &report_json(alloc, report)?)
    } else {
        report_text(alloc, report)
    }
}

/// Adds the line of a history; nothing where its status is 0 and failures alone are wanted.
fn push_shown(
    alloc: Global,
    text: &mut Vec<u8>,
    report: &Report,
    options: LineOptions,
) -> Result<(), NoMemory>
    ensures { OnOk result (text.new.items ≡ text.old.items ++ shown_line options report.now) }
{
    if options.failures && report.is_consistent() {
        return Ok(());
    }
    let line = report_line(alloc, report, options.json)?;
    push(text, &[&line])
}

/// The lines of histories, in their order.
fn lines_text<R>(alloc: Global, histories: &[History<R>], options: LineOptions) -> Made
    ensures { IfOk result (λ text. text.items ≡ lines_text options (map (λ history. history.report) histories.now)) }
{
    let mut text = Vec::new(alloc);
    for history in histories {
        push_shown(alloc, &mut text, &history.report, options)?;
    }
    Ok(text)
}

/// Writes the lines of histories, in their order; else the run ends with this code.
pub fn print_lines<R, W: Write>(
    alloc: Global,
    histories: &[History<R>],
    options: LineOptions,
    out: &mut W,
) -> Sent
    ensures whole { OnOk result (Appends (W.contents out.old) (W.contents out.new) (lines_text options (map (λ history. history.report) histories.now))) }
    ensures ended { IfErr result (EndsIn options.json (W.contents out.old) (W.contents out.new) (lines_text options (map (λ history. history.report) histories.now))) }
{
    send_made(lines_text(alloc, histories, options), options.json, out)
}

fn summary_text(alloc: Global, consistent: usize, count: usize) -> Made
    ensures { IfOk result (λ text. text.items ≡ summary_text consistent count) }
{
    let text = format!(in alloc; "consistent: {consistent} of {count} histories\n")?;
    Ok(text.into_bytes())
}

fn summary_json(alloc: Global, consistent: usize, count: usize) -> Result<Value, AllocError>
    ensures { IfOk result (λ v. view v ≡ summary_json consistent count) }
{
    json!(in alloc; {
        "answer": "batch",
        "consistent": consistent,
        "histories": count
    })
}

fn summary_line(alloc: Global, consistent: usize, count: usize, json: bool) -> Made
    ensures { IfOk result (λ text. text.items ≡ summary_line json consistent count) }
{
    if json {
        object_line(alloc, &summary_json(alloc, consistent, count)?)
    } else {
        summary_text(alloc, consistent, count)
    }
}

/// How many histories have status 0.
fn consistent_count<R>(histories: &[History<R>]) -> usize
    ensures { result ≡ consistent_count (map (λ history. history.report) histories.now) }
{
    histories
        .iter()
        .filter(|history| history.report.is_consistent())
        .count()
}

/// How many histories have status 0, of how many.
fn summary<R>(alloc: Global, histories: &[History<R>], json: bool) -> Made
    ensures { IfOk result (λ text. text.items ≡ summary_line json (consistent_count (map (λ history. history.report) histories.now)) (length histories.now)) }
{
    summary_line(alloc, consistent_count(histories), histories.len(), json)
}

/// Writes how many histories have status 0, of how many; else the run ends with this code.
pub fn print_summary<R, W: Write>(
    alloc: Global,
    histories: &[History<R>],
    json: bool,
    out: &mut W,
) -> Sent
    ensures whole { OnOk result (Appends (W.contents out.old) (W.contents out.new)
        (summary_line json (consistent_count (map (λ history. history.report) histories.now)) (length histories.now))) }
    ensures ended { IfErr result (EndsIn json (W.contents out.old) (W.contents out.new)
        (summary_line json (consistent_count (map (λ history. history.report) histories.now)) (length histories.now))) }
{
    send_made(summary(alloc, histories, json), json, out)
}
