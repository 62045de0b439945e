//! The certificate of what was said last: in version 2 within the small limits, in version 3 above them.
ghost use Rattle.std.specs.Prelude.{is_some, option_map, true};
ghost use Rattle.tcc_run.specs.private.Stages.{IsCertifiable, SendsCertificate, WritesCertificate, outcome_certificate, outcome_said};

use crate::outcome::Outcome;
use std::io::Write;
use tcc_cert::{CertWriteFault, write_large};
use tcc_print::Options;
use tcc_print::printing::print_device;

/// Writes the certificate of what is said.
fn send_certificate<C: Write>(outcome: &Outcome, file: &mut C) -> Result<(), CertWriteFault>
    requires { IsCertifiable true outcome.now }
    ensures { SendsCertificate (outcome_certificate outcome.now) result (C.contents file.old) (C.contents file.new) }
{
    match outcome {
        Outcome::Unresolved(_) => Ok(()),
        Outcome::Tabled { answer, .. } => answer.write_certificate(file),
        Outcome::Bare { .. } => unreachable!(),
        Outcome::Large { claim, .. } => write_large(claim, file),
    }
}

/// Writes the certificate of what was said last, if a file is given for it and that is an answer; else the run ends with this exit code.
pub(crate) fn write_certificate<W: Write, C: Write>(
    options: &Options,
    outcome: &Outcome,
    certificate: &mut Option<C>,
    out: &mut W,
) -> Result<(), u8>
    requires { IsCertifiable (is_some certificate.old) outcome.now }
    ensures { WritesCertificate options.now (outcome_said options.now outcome.now) result (W.contents out.old) (W.contents out.new)
        (option_map C.contents certificate.old) (option_map C.contents certificate.new) }
{
    let Some(file) = certificate else {
        return Ok(());
    };
    match send_certificate(outcome, file) {
        Ok(()) => Ok(()),
        Err(_) => Err(print_device(out, options.json)),
    }
}
