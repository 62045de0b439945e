//! The lines of words, each judged by the form of what it has to say.
ghost use Rattle.std.specs.Prelude.{◌≡◌, map, IfOk, OnOk, Result};
ghost use Rattle.tcc_cert.specs.{private.Inputs.AsBefore, private.Inputs.Gives, InputBytes.IsAt, private.Showing.Shows};
ghost use Rattle.tcc_cert.specs.Reading.{Position, words, words_of};

use super::input::{Input, at_line};
use crate::ranges::TextFormat;
use crate::{CertFault, CertFaultKind};
use std::alloc::{AllocError, Global};
use std::io::Read;

/// What words say, or what is wrong with them.
pub(crate) type Said<T> = Result<T, CertFaultKind>;

/// What a line of words says.
pub(crate) trait WordLine: Drop {
    ghost use Rattle.tcc_cert.specs.{declared.fault.CertFaultKind.CertFaultKind, declared.ranges.TextFormat.TextFormat, Texts.Words};

    ghost form: { TextFormat → Words → Result Self CertFaultKind };

    /// What these words say.
    fn of_words(alloc: Global, scale: TextFormat, words: &[&[u8]]) -> Said<Self>
        ensures { result ≡ form scale (map (λ word. word.now) words.now) };
}

/// What one line says, or some that belong together.
pub(crate) trait LineEntry: Drop {
    ghost use Rattle.std.specs.Prelude.{OnOk};
    ghost use Rattle.tcc_cert.specs.{declared.ranges.TextFormat.TextFormat, InputBytes.IsAt, Reading.Position, Reading.Reads, private.Inputs.AsBefore, private.Inputs.Gives, private.Onward.IsOnward};

    ghost entry: { TextFormat → Position → Reads Self };

    /// The next one.
    fn next<R: Read>(
        alloc: Global,
        input: &mut Input<R>,
        scale: TextFormat,
    ) -> Result<Self, CertFault>
        ensures works { OnOk result (AsBefore input.old input.new) }
        ensures gives { (at : Position) → IsAt R.remaining input.old at → Gives R.remaining at (entry scale at) result input.new }
        ensures onward { (at : Position) → IsOnward at (entry scale at) };
}

/// What is between the spaces of a line.
pub(crate) fn words_of(alloc: Global, line: &[u8]) -> Result<Vec<&[u8]>, AllocError>
    ensures { IfOk result (λ words. map (λ word. word.now) words.items ≡ words_of line.now) }
{
    if line.is_empty() {
        return Ok(Vec::new(alloc));
    }
    line.split(|byte| *byte == b' ').collect(alloc)
}

/// What a line says.
fn line_of<L: WordLine>(alloc: Global, scale: TextFormat, line: &[u8]) -> Said<L>
    ensures { Shows result (L.form scale (words_of line.now)) }
{
    let words = words_of(alloc, line)?;
    L::of_words(alloc, scale, words.as_slice())
}

/// What the next line says.
pub(crate) fn next_line<L: WordLine, R: Read>(
    alloc: Global,
    input: &mut Input<R>,
    scale: TextFormat,
) -> Result<L, CertFault>
    ensures works { OnOk result (AsBefore input.old input.new) }
    ensures gives { (at : Position) → IsAt R.remaining input.old at → Gives R.remaining at (words scale (L.form scale) at) result input.new }
{
    let line = input.next_of(scale)?;
    at_line(line, line_of(alloc, scale, input.line()))
}
