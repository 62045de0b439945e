//! Lines of numbers.
ghost use Rattle.std.specs.Prelude.{◌≡◌, ◌<◌, ◌≤◌, ◌+◌, All, IfOk, IfSome, OnOk, length};
ghost use Rattle.tcc_cert.specs.{private.Inputs.AsBefore, private.Inputs.Gives, InputBytes.IsAt, private.Showing.Shows, private.Showing.ShowsItems, Texts.numbers_words, Texts.words_text};
ghost use Rattle.tcc_cert.specs.Reading.{Position, numbers_line, numbers_of, parted, words, words_of};

use super::decimals::number_of;
use super::input::{Input, at_line};
use crate::ranges::TextFormat;
use crate::{CertFault, CertFaultKind, Numbers, Version};
use std::alloc::{AllocError, Global};
use std::io::Read;

/// How many words a line has.
fn word_count(line: &[u8]) -> usize
    ensures { result ≡ length (words_of line.now) }
{
    if line.is_empty() {
        return 0;
    }
    line.iter().filter(|byte| **byte == b' ').count() + 1
}

/// The numbers that the words of a line write. Room is asked for `count` of them.
fn numbers_of(
    alloc: Global,
    line: &[u8],
    count: usize,
    most: u32,
) -> Result<Vec<u32>, CertFaultKind>
    ensures { ShowsItems result (numbers_of most (parted line.now)) }
{
    let mut numbers = Vec::with_capacity(alloc, count)?;
    for word in line.split(|byte| *byte == b' ') {
        numbers.push(number_of(word, 0, most)?)?;
    }
    Ok(numbers)
}

/// The digit that a byte is.
fn digit(byte: u8) -> Option<u32>
    ensures one { IfSome result (λ value. value < 10) }
    ensures value { IfSome result (λ value. byte ≡ 48 + value) }
{
    if byte.is_ascii_digit() {
        Some(u32::from(byte - b'0'))
    } else {
        None
    }
}

/// The numbers of a line of `count` numbers up to `most`, each of one digit, as most rows have; none where it is another
/// line.
fn digits_of(
    alloc: Global,
    line: &[u8],
    count: usize,
    most: u32,
) -> Result<Option<Vec<u32>>, AllocError>
    ensures line { IfOk result (λ found. IfSome found (λ numbers. line.now ≡ words_text (numbers_words numbers.items))) }
    ensures within { IfOk result (λ found. IfSome found (λ numbers. All (λ number. number ≤ most) numbers.items)) }
    ensures long { IfOk result (λ found. IfSome found (λ numbers. length numbers.items ≡ count)) }
{
    if most < 9 || line.len() % 2 == 0 || line.len() / 2 + 1 != count {
        return Ok(None);
    }
    let Some(first) = digit(line[0]) else {
        return Ok(None);
    };
    let mut numbers = Vec::with_capacity(alloc, count)?;
    numbers.push(first)?;
    for index in 1..count {
        let space = line[2 * index - 1];
        match digit(line[2 * index]) {
            Some(number) if space == b' ' => numbers.push(number)?,
            _ => return Ok(None),
        }
    }
    Ok(Some(numbers))
}

/// A line of `count` numbers up to `most`.
fn numbers_line(
    alloc: Global,
    line: &[u8],
    count: usize,
    most: u32,
) -> Result<Numbers, CertFaultKind>
    ensures { Shows result (numbers_line count most (words_of line.now)) }
{
    if let Some(numbers) = digits_of(alloc, line, count, most)? {
        return Ok(Numbers::new(numbers));
    }
    if word_count(line) != count {
        return Err(CertFaultKind::Count);
    }
    if line.is_empty() {
        return Ok(Numbers::new(Vec::new(alloc)));
    }
    Ok(Numbers::new(numbers_of(alloc, line, count, most)?))
}

/// The next line, of `count` numbers.
pub(crate) fn row<R: Read>(
    alloc: Global,
    input: &mut Input<R>,
    version: Version,
    count: usize,
    most: u32,
) -> Result<Numbers, CertFault>
    ensures works { OnOk result (AsBefore input.old input.new) }
    ensures gives { (at : Position) → IsAt R.remaining input.old at → Gives R.remaining at (words (TextFormat.Small version) (numbers_line count most) at) result input.new }
{
    let line = input.next_of(TextFormat::Small(version))?;
    at_line(line, numbers_line(alloc, input.line(), count, most))
}
