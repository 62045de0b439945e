//! How texts are written, and the code that a run then ends with.
ghost use Rattle.std.specs.Prelude.{◌≡◌, ℕ, List, IfErr, IfOk, MatchResult, OnOk, false, if◌then◌else◌};
ghost use Rattle.std.specs.Io.KnownBytes.{Appends};
ghost use Rattle.tcc_print.specs.Printed.{Prints, answered, check_text, device_line, printed_error, memory_line, unresolved, CutsOff, EndsIn, PrintsOrMemory};
ghost use Rattle.tcc_print.specs.Statuses.{check_status, code_of, run_error_status};

use crate::run_error::RunError;
use crate::status::{Status, run_error_status, verdict_status};
use crate::verdicts::verdict_text;
use crate::{json, texts};
use std::alloc::Global;
use std::io::Write;
use tcc_answer::{Answer, WriteFault, write_json, write_text};
use tcc_base::send;
use tcc_reads::ReadFault;
use tcc_rules::Judgement;
use tcc_txn::NoMemory;

/// A text that was made, if there was memory for it.
pub type Made = Result<Vec<u8>, NoMemory>;

/// Nothing, where a text was written; else the code that the run ends with.
pub type Sent = Result<(), u8>;

/// One of two lines, by whether JSON is asked for.
fn line_by(json: bool, object: &'static [u8], text: &'static [u8]) -> &'static [u8]
    ensures { result.now ≡ (if json then object.now else text.now) }
{
    if json { object } else { text }
}

/// The line that says that memory is out.
fn memory_line(json: bool) -> &'static [u8]
    ensures { result.now ≡ memory_line json }
{
    line_by(json, b"{\"answer\":\"memory\"}\n", b"memory\n")
}

/// The line for a file or a writer that failed.
fn device_line(json: bool) -> &'static [u8]
    ensures { result.now ≡ device_line json }
{
    line_by(json, b"{\"answer\":\"device\"}\n", b"device\n")
}

/// Writes the text; else a writer that failed ends the run, with this code.
fn send_text<W: Write>(out: &mut W, text: &[u8]) -> Sent
    ensures whole { OnOk result (Appends (W.contents out.old) (W.contents out.new) text.now) }
    ensures ended { IfErr result (CutsOff (W.contents out.old) (W.contents out.new) text.now) }
{
    match send(out, text) {
        Ok(()) => Ok(()),
        Err(_) => Err(Status::Device.code()),
    }
}

/// The code of a run whose last text has this status, if it was written.
fn code_after(sent: Sent, status: Status) -> u8
    ensures { MatchResult sent (λ _. result ≡ code_of status) (λ code. result ≡ code) }
{
    match sent {
        Ok(()) => status.code(),
        Err(code) => code,
    }
}

/// Writes the text, and returns the code that the run ends with: that of the status, or of a writer that failed.
pub fn print_text<W: Write>(out: &mut W, text: &[u8], status: Status) -> u8
    ensures { Prints (W.contents out.old) (W.contents out.new) text.now status result }
{
    match send_text(out, text) {
        Ok(()) => status.code(),
        Err(code) => code,
    }
}

/// Writes that memory is out, as text or as a line of JSON, and returns the code that the run ends with. It takes no
/// memory.
pub fn print_memory<W: Write>(out: &mut W, json: bool) -> u8
    ensures { Prints (W.contents out.old) (W.contents out.new) (memory_line json) Status.Memory result }
{
    print_text(out, memory_line(json), Status::Memory)
}

/// Writes that memory is out, where a run goes on for as many seals as a number of 64 bits counts, and returns the code
/// that the run ends with. No input has that many: a loop over seals needs an end, and this is what comes after it.
pub fn print_endless<W: Write>(out: &mut W, json: bool) -> u8
    ensures { Prints (W.contents out.old) (W.contents out.new) (memory_line json) Status.Memory result }
{
    print_memory(out, json)
}

/// Writes that a file or a writer failed, as text or as a line of JSON, and returns the code that the run ends with. It
/// takes no memory.
pub fn print_device<W: Write>(out: &mut W, json: bool) -> u8
    ensures { Prints (W.contents out.old) (W.contents out.new) (device_line json) Status.Device result }
{
    print_text(out, device_line(json), Status::Device)
}

/// Writes the text that was made; else a writer that failed, or no memory for the text, ends the run, with this
/// code.
pub fn send_made<W: Write>(made: Made, json: bool, out: &mut W) -> Sent
    ensures whole { (text : List ℕ) → IfOk made (λ bytes. bytes.items ≡ text) → OnOk result (Appends (W.contents out.old) (W.contents out.new) text) }
    ensures ended { (text : List ℕ) → IfOk made (λ bytes. bytes.items ≡ text) → IfErr result (EndsIn json (W.contents out.old) (W.contents out.new) text) }
    ensures made { IfOk made (λ bytes. IfErr result (CutsOff (W.contents out.old) (W.contents out.new) bytes.items)) }
{
    match made {
        Ok(text) => send_text(out, &text),
        Err(NoMemory) => Err(print_memory(out, json)),
    }
}

/// Writes the answer as text or as a line of JSON; else the run ends with this code.
pub fn send_answer<W: Write>(alloc: Global, answer: &Answer, json: bool, out: &mut W) -> Sent
    ensures whole { OnOk result (Appends (W.contents out.old) (W.contents out.new) (answered json answer.now)) }
    ensures ended { IfErr result (EndsIn json (W.contents out.old) (W.contents out.new) (answered json answer.now)) }
{
    let written = if json {
        write_json(alloc, answer, out)
    } else {
        write_text(alloc, answer, out)
    };
    match written {
        Ok(()) => Ok(()),
        Err(WriteFault::Device) => Err(Status::Device.code()),
        Err(WriteFault::NoMemory) => Err(print_memory(out, json)),
    }
}

/// The text of all read faults, or their line of JSON.
fn unresolved_made(alloc: Global, faults: &[ReadFault], json: bool) -> Made
    ensures { IfOk result (λ text. text.items ≡ unresolved json faults.now) }
{
    if json {
        json::unresolved(alloc, faults)
    } else {
        texts::unresolved(alloc, faults)
    }
}

/// Writes all read faults, as text or as a line of JSON; else the run ends with this code.
pub fn send_unresolved<W: Write>(
    alloc: Global,
    faults: &[ReadFault],
    json: bool,
    out: &mut W,
) -> Sent
    ensures whole { OnOk result (Appends (W.contents out.old) (W.contents out.new) (unresolved json faults.now)) }
    ensures ended { IfErr result (EndsIn json (W.contents out.old) (W.contents out.new) (unresolved json faults.now)) }
{
    send_made(unresolved_made(alloc, faults, json), json, out)
}

/// What is printed in place of an answer or a verdict. The line of a certificate's fault is never JSON, and the line that says
/// that memory is out is made without memory, elsewhere.
fn run_error_made(alloc: Global, error: &RunError, json: bool) -> Made
    ensures { IfOk result (λ text. text.items ≡ printed_error json error.now) }
{
    match error {
        RunError::Row(fault) if json => json::row_fault(alloc, fault),
        RunError::Row(fault) => texts::row_fault(alloc, fault),
        RunError::Reads(faults) => unresolved_made(alloc, faults, json),
        RunError::Text(fault) => texts::certificate_fault(alloc, fault),
        RunError::NoMemory => Err(NoMemory),
    }
}

/// Writes what is printed in place of an answer or a verdict, and returns the code that the run ends with.
pub fn print_run_error<W: Write>(alloc: Global, error: &RunError, json: bool, out: &mut W) -> u8
    ensures { PrintsOrMemory json (W.contents out.old) (W.contents out.new) (printed_error json error.now) (run_error_status error.now) result }
{
    let made = run_error_made(alloc, error, json);
    code_after(send_made(made, json, out), run_error_status(error))
}

/// Writes the outcome of a check, and returns the code that the run ends with. Where memory is out, that is written in
/// its place.
pub fn print_check<W: Write>(
    alloc: Global,
    outcome: &Result<Judgement, RunError>,
    out: &mut W,
) -> u8
    ensures { PrintsOrMemory false (W.contents out.old) (W.contents out.new) (check_text outcome.now) (check_status outcome.now) result }
{
    match outcome {
        Ok(judged) => {
            let status = verdict_status(judged.verdict);
            code_after(send_made(verdict_text(alloc, judged), false, out), status)
        }
        Err(error) => print_run_error(alloc, error, false, out),
    }
}
