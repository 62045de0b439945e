//! The check of a certificate for a history, whose files a command line names.
ghost use Rattle.std.specs.Prelude.{◌≡◌, IfOk, IfSome, MatchResult, false};
ghost use Rattle.std.specs.IoError.{error_kind};
ghost use Rattle.tcc_cli.specs.Files.{IsRunWithin, PrintsUnopened, PrintsWithin};
ghost use Rattle.tcc_cli.specs.Opened.{IsAside};

use crate::files::{open, print_unopened};
use crate::reporting::ErrorReporter;
use std::alloc::Global;
use std::fs::File;
use std::io::{self, Read, Write};
use tcc_verdict::{run_check, run_check_large};

/// Opens both files, the history before the certificate: the first is that of the history.
pub fn open_both<'a>(
    rt: &HostRuntime,
    history: &'a str,
    certificate: &'a str,
) -> io::Result<(ErrorReporter<'a, File>, ErrorReporter<'a, File>)>
    ensures history { IfOk result (λ both. both.0.name ≡ history.entry) }
    ensures certificate { IfOk result (λ both. both.1.name ≡ certificate.entry) }
    ensures history_aside { IfOk result (λ both. IsAside both.0.stream) }
    ensures certificate_aside { IfOk result (λ both. IsAside both.1.stream) }
{
    let history = open(rt, history)?;
    let certificate = open(rt, certificate)?;
    Ok((history, certificate))
}

/// Checks the certificate that the second of two readers gives for the history of the first, within the large limits if these are
/// wanted. Or writes that one of them couldn't be opened. Gives the status of the run. What to mend goes to the notes.
pub fn check_opened<H: Read + Drop, C: Read + Drop, W: Write, N: Write>(
    alloc: Global,
    opened: io::Result<(H, C)>,
    large: bool,
    out: &mut W,
    notes: &mut N,
) -> u8
    ensures run { IfOk opened (λ both. IfSome (H.remaining both.0) (λ records. IfSome (C.remaining both.1)
        (λ text. IsRunWithin large records text (W.contents out.old) (W.contents out.new) result))) }
    ensures printed { MatchResult opened (λ _. PrintsWithin large (W.contents out.old) (W.contents out.new) result)
        (λ error. PrintsUnopened false (error_kind error) (W.contents out.old) (W.contents out.new) result) }
{
    match opened {
        Ok((history, certificate)) => {
            if large {
                run_check_large(alloc, history, certificate, out, notes)
            } else {
                run_check(alloc, history, certificate, out, notes)
            }
        }
        Err(error) => print_unopened(error.kind(), false, out),
    }
}
