//! The files that the command line names.
ghost use Rattle.std.specs.Prelude.{◌≡◌, ◌↔◌, ⊤, IfOk, IfSome, IsTrue, MatchOption, codes, false};
ghost use Rattle.tcc_cli.specs.FileIds.{AreSame};
ghost use Rattle.tcc_cli.specs.Files.{AreBothGiven, IsInputOf, PrintsUnopened};
ghost use Rattle.tcc_cli.specs.Opened.{IsAside};

use crate::input::RecordInput;
use crate::opening::{self, OutputFile};
use crate::reporting::ErrorReporter;
use std::fs::File;
use std::io::{self, ErrorKind, Write};
use tcc_print::printing::{print_device, print_memory};

/// The file, if it could be opened or made; else standard error is told which one could not, and why.
fn report<T: Drop>(rt: &HostRuntime, path: &str, opened: io::Result<T>) -> io::Result<T>
    ensures { result ≡ opened }
{
    if let Err(error) = &opened {
        let _ = eprintln!(rt; "{path}: {error}");
    }
    opened
}

/// Opens a file to read, which tells why where that fails, or a read does.
pub(crate) fn open<'a>(rt: &HostRuntime, path: &'a str) -> io::Result<ErrorReporter<'a, File>>
    ensures name { IfOk result (λ telling. telling.name ≡ path.entry) }
    ensures aside { IfOk result (λ telling. IsAside telling.stream) }
{
    let file = report(rt, path, opening::open(rt, path))?;
    Ok(ErrorReporter::new(file, path, rt.stderr()))
}

/// Opens the file of the records, if one is given; without it they are those of the standard input.
pub fn open_input<'a>(
    rt: &HostRuntime,
    path: Option<&'a str>,
) -> io::Result<ErrorReporter<'a, RecordInput>>
    ensures stream { IfOk result (λ telling. IsInputOf path.entry telling.stream) }
    ensures name { IfOk result (λ telling. MatchOption path.entry (telling.name.now ≡ codes "standard input") (λ name. telling.name ≡ name)) }
{
    match path {
        Some(path) => {
            let file = report(rt, path, opening::open(rt, path))?;
            Ok(ErrorReporter::new(RecordInput::File(file), path, rt.stderr()))
        }
        None => Ok(ErrorReporter::new(
            RecordInput::Standard(rt.stdin()),
            "standard input",
            rt.stderr(),
        )),
    }
}

/// Makes the file if a path is given, and makes it empty where it is there. The input, the output and standard error are no
/// files for it.
pub fn open_output<'a>(
    rt: &HostRuntime,
    path: Option<&'a str>,
    input: &RecordInput,
) -> io::Result<Option<ErrorReporter<'a, OutputFile>>>
    ensures given { IfOk result (AreBothGiven path.entry) }
    ensures name { IfOk result (λ file. IfSome file (λ telling. IfSome path.entry (λ name. telling.name ≡ name))) }
    ensures aside { IfOk result (λ file. IfSome file (λ telling. IsAside telling.stream.file)) }
{
    match path {
        Some(path) => {
            let file = report(rt, path, opening::make(rt, path, input))?;
            Ok(Some(ErrorReporter::new(file, path, rt.stderr())))
        }
        None => Ok(None),
    }
}

/// Whether both are given, and are the same file.
fn are_one(
    one: &Option<ErrorReporter<'_, OutputFile>>,
    other: &Option<ErrorReporter<'_, OutputFile>>,
) -> bool
    ensures { MatchOption one.now (result ≡ false) (λ a. MatchOption other.now (result ≡ false)
        (λ b. IsTrue result ↔ AreSame a.stream.known.id b.stream.known.id)) }
{
    match (one, other) {
        (Some(one), Some(other)) => one.stream().is_same(other.stream()),
        _ => false,
    }
}

/// Makes the file for a certificate and that for a slice, each if its path is given, as `open_output` does. They can't be one file.
pub fn open_outputs<'a>(
    rt: &HostRuntime,
    certificate: Option<&'a str>,
    slice: Option<&'a str>,
    input: &RecordInput,
) -> io::Result<
    (
        Option<ErrorReporter<'a, OutputFile>>,
        Option<ErrorReporter<'a, OutputFile>>,
    ),
>
    ensures certificate { IfOk result (λ both. AreBothGiven certificate.entry both.0) }
    ensures slice { IfOk result (λ both. AreBothGiven slice.entry both.1) }
    ensures certificate_name { IfOk result (λ both. IfSome both.0 (λ telling. IfSome certificate.entry (λ name. telling.name ≡ name))) }
    ensures slice_name { IfOk result (λ both. IfSome both.1 (λ telling. IfSome slice.entry (λ name. telling.name ≡ name))) }
    ensures certificate_aside { IfOk result (λ both. IfSome both.0 (λ telling. IsAside telling.stream.file)) }
    ensures slice_aside { IfOk result (λ both. IfSome both.1 (λ telling. IsAside telling.stream.file)) }
    ensures two { IfOk result (λ both. MatchOption both.0 ⊤ (λ a. MatchOption both.1 ⊤ (λ b. AreSame a.stream.known.id b.stream.known.id → ⊥))) }
{
    let first = open_output(rt, certificate, input)?;
    let second = open_output(rt, slice, input)?;
    if are_one(&first, &second) {
        let message = "'--slice': it is the file of the certificate";
        let _ = eprintln!(rt; "{message}");
        return Err(io::Error::new(ErrorKind::ResourceBusy, message));
    }
    Ok((first, second))
}

/// Writes that a file can't be opened or made, and gives the status of the run.
pub fn print_unopened<W: Write>(kind: ErrorKind, json: bool, out: &mut W) -> u8
    ensures { PrintsUnopened json kind (W.contents out.old) (W.contents out.new) result }
{
    match kind {
        ErrorKind::OutOfMemory => print_memory(out, json),
        _ => print_device(out, json),
    }
}
