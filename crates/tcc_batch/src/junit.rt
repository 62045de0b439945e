//! A report on histories in JUnit's form: a test case for each.
ghost use Rattle.std.specs.Prelude.{◌≡◌, ◌++◌, IfOk, OnOk, count_by, flat_map, length, map};
ghost use Rattle.std.specs.String.{string_bytes};
ghost use Rattle.tcc_batch.specs.Junit.{case_end, case_text, escaped, escaped_byte, fault_word, junit_text, suite_text};
ghost use Rattle.tcc_batch.specs.Reports.{is_anomaly, is_unjudged};

use crate::report::{History, Report};
use std::alloc::Global;
use tcc_answer::pieces::{joined, push};
use tcc_print::printing::Made;
use tcc_txn::NoMemory;

/// Adds a byte of a value in quotation marks.
fn push_escaped_byte(text: &mut Vec<u8>, byte: u8) -> Result<(), NoMemory>
    ensures { OnOk result (text.new.items ≡ text.old.items ++ escaped_byte byte) }
{
    match byte {
        b'"' => push(text, &[b"&quot;"]),
        b'&' => push(text, &[b"&amp;"]),
        b'<' => push(text, &[b"&lt;"]),
        b'>' => push(text, &[b"&gt;"]),
        b'\t' => push(text, &[b"&#9;"]),
        b'\n' => push(text, &[b"&#10;"]),
        b'\r' => push(text, &[b"&#13;"]),
        0..=31 => push(text, &[b"?"]),
        _ => push(text, &[&[byte]]),
    }
}

/// A value as it is in quotation marks.
fn escaped(alloc: Global, value: &[u8]) -> Made
    ensures { IfOk result (λ text. text.items ≡ escaped value.now) }
{
    let mut text = Vec::new(alloc);
    for byte in value {
        push_escaped_byte(&mut text, *byte)?;
    }
    Ok(text)
}

/// What a history is in the report that isn't consistent.
fn fault_word(report: &Report) -> &'static [u8]
    ensures { result.now ≡ fault_word report.now }
{
    if report.is_anomaly() {
        b"failure"
    } else {
        b"error"
    }
}

/// What a test case has after its name.
fn case_end(alloc: Global, report: &Report) -> Made
    ensures { IfOk result (λ text. text.items ≡ case_end report.now) }
{
    if report.is_consistent() {
        return joined(alloc, &[b"\"/>\n"]);
    }
    let line = escaped(alloc, report.finding.line().as_bytes())?;
    joined(
        alloc,
        &[
            b"\"><",
            fault_word(report),
            b" message=\"",
            &line,
            b"\"/></testcase>\n",
        ],
    )
}

/// A test case.
#[tactic(auto, unfolding(crate::specs::Junit::case_text))]
fn case_text(alloc: Global, report: &Report) -> Made
    ensures { IfOk result (λ text. text.items ≡ case_text report.now) }
{
    let name = escaped(alloc, report.name.as_bytes())?;
    let end = case_end(alloc, report)?;
    joined(
        alloc,
        &[b"  <testcase classname=\"tcc\" name=\"", &name, &end],
    )
}

/// Adds a test case.
fn push_case(alloc: Global, text: &mut Vec<u8>, report: &Report) -> Result<(), NoMemory>
    ensures { OnOk result (text.new.items ≡ text.old.items ++ case_text report.now) }
{
    let case = case_text(alloc, report)?;
    push(text, &[&case])
}

/// The test cases of histories, in their order.
fn cases_text<R>(alloc: Global, histories: &[History<R>]) -> Made
    ensures { IfOk result (λ text. text.items ≡ flat_map case_text (map (λ history. history.report) histories.now)) }
{
    let mut text = Vec::new(alloc);
    for history in histories {
        push_case(alloc, &mut text, &history.report)?;
    }
    Ok(text)
}

/// The first two lines.
fn suite_text(alloc: Global, tests: usize, failures: usize, errors: usize) -> Made
    ensures { IfOk result (λ text. text.items ≡ suite_text tests failures errors) }
{
    let text = format!(in alloc;
        "<?xml version=\"1.0\" encoding=\"UTF-8\"?>\n<testsuite name=\"tcc batch\" tests=\"{tests}\" failures=\"{failures}\" errors=\"{errors}\">\n"
    )?;
    Ok(text.into_bytes())
}

/// How many histories have an anomaly.
fn anomaly_count<R>(histories: &[History<R>]) -> usize
    ensures { result ≡ count_by is_anomaly (map (λ history. history.report) histories.now) }
{
    histories
        .iter()
        .filter(|history| history.report.is_anomaly())
        .count()
}

/// How many histories weren't judged, or not to the end.
fn unjudged_count<R>(histories: &[History<R>]) -> usize
    ensures { result ≡ count_by is_unjudged (map (λ history. history.report) histories.now) }
{
    histories
        .iter()
        .filter(|history| history.report.is_unjudged())
        .count()
}

/// The first two lines of a report on histories.
fn suite_of<R>(alloc: Global, histories: &[History<R>]) -> Made
    ensures { IfOk result (λ text. text.items ≡ suite_text (length histories.now) (count_by is_anomaly (map (λ history. history.report) histories.now))
        (count_by is_unjudged (map (λ history. history.report) histories.now))) }
{
    suite_text(
        alloc,
        histories.len(),
        anomaly_count(histories),
        unjudged_count(histories),
    )
}

/// The report in JUnit's form: an anomaly is a failure, and what wasn't judged is an error.
pub fn junit_text<R>(alloc: Global, histories: &[History<R>]) -> Made
    ensures { IfOk result (λ text. text.items ≡ junit_text (map (λ history. history.report) histories.now)) }
{
    let suite = suite_of(alloc, histories)?;
    let cases = cases_text(alloc, histories)?;
    joined(alloc, &[&suite, &cases, b"</testsuite>\n"])
}
