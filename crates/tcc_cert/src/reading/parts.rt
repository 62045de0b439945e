//! A certificate's text, read part by part.
ghost use Rattle.std.specs.Prelude.{◌≡◌, ◌<◌, ◌⊎◌, false, true, IfErr, IfOk, IfSome, None, Ok, OnOk, Some, Err};
ghost use Rattle.tcc_cert.specs.declared.part.Part.TheVariants as part;
ghost use Rattle.tcc_cert.specs.Parts.{Parts, parts_read};

use super::input::Input;
use super::stages::{ExpectedPart, ReadingStage, step};
use crate::{CertFault, CertFaultKind, Part};
use std::alloc::Global;
use std::io::Read;

/// The parts of the certificate whose text a reader gives: the claim first, then its links and the rows of its tables, one
/// at a time. Nothing is kept of what was given. It is for callers that go through a certificate once, as the checker does:
/// to judge it, to count or to copy.
#[derive(Drop)]
pub struct CertReader<R> {
    input: Input<R>,
    stage: ReadingStage,
}

impl<R: Read> CertReader<R> {
    ghost use Rattle.tcc_cert.specs.Ahead.{IsAhead, ReaderFailed, TakesPart, fault_met, has_ended, is_claim, is_end, is_new, line_wanted, rows_left};

    /// The parts of what the reader gives.
    pub fn new(reader: R) -> CertReader<R>
        ensures ahead { IfSome (R.remaining reader) (λ bytes. IsAhead R.remaining result (parts_read bytes)) }
        ensures fresh { is_new result ≡ true }
        ensures works { ReaderFailed result → ⊥ }
    {
        CertReader::over(Input::new(reader))
    }

    /// The parts of what is in the input, from its first line on.
    pub(crate) fn over(input: Input<R>) -> CertReader<R>
        ensures input { result.input ≡ input }
        ensures stage { result.stage ≡ ReadingStage.Going ExpectedPart.Whole }
    {
        CertReader {
            input,
            stage: ReadingStage::Going(ExpectedPart::Whole),
        }
    }

    /// The next part, or the first fault. After `End` there is `End`, and after a fault that fault.
    pub fn next(&mut self, alloc: Global) -> Result<Part, CertFault>
        ensures parts { (ahead : Parts) → IsAhead R.remaining self.old ahead → TakesPart R.remaining (line_wanted self.old) ahead result self.new }

        // Lines are counted from 1.
        ensures counted { 0 < line_wanted self.old }

        // Whatever is known of the bytes, a part comes only where no read of the reader failed.
        ensures works { OnOk result (ReaderFailed self.new → ReaderFailed self.old) }

        // A fault stays, and so does the end, whatever is known of the bytes.
        ensures stops { IfErr result (λ fault. fault_met self.new ≡ Some fault) }
        ensures stays_stopped { IfSome (fault_met self.old) (λ fault. result ≡ Err fault) }
        ensures goes_on { OnOk result (fault_met self.new ≡ None) }
        ensures ends { IfOk result (λ given. has_ended self.new ≡ is_end given) }
        ensures stays_ended { has_ended self.old ≡ true → result ≡ Ok part.End }

        // A claim comes first and never again. After it fewer and fewer links and rows are left.
        ensures begins { IfOk result (λ given. is_claim given ≡ is_new self.old) }
        ensures begun { is_new self.new ≡ false }
        ensures left { IfOk result (λ given. (is_new self.old ≡ true) ⊎ ((given ≡ part.End) ⊎ (rows_left self.new < rows_left self.old))) }
    {
        let coming = match self.stage {
            ReadingStage::Going(coming) => coming,
            ReadingStage::Ended => return Ok(Part::End),
            ReadingStage::Stopped(fault) => return Err(fault),
        };
        match step(alloc, &mut self.input, coming) {
            Ok((part, stage)) => {
                self.stage = stage;
                Ok(part)
            }
            Err(fault) => {
                self.stage = ReadingStage::Stopped(fault);
                Err(fault)
            }
        }
    }

    /// A fault at the line that is wanted next.
    pub(crate) fn fault(&self, kind: CertFaultKind) -> CertFault
        ensures value { result ≡ record { line = line_wanted self.now; kind = kind } }
        ensures counted { 0 < result.line }
    {
        self.input.fault(kind)
    }
}
