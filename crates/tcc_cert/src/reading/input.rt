//! The lines of a reader, within the limit on their length.
ghost use Rattle.std.specs.Prelude.{◌≡◌, ◌<◌, ◌≤◌, ◌-◌, ◌==◌, IfOk, IfSome, OnOk, length, position, take};
ghost use Rattle.tcc_cert.specs.{WindowBytes.window_bytes, private.Showing.at_line, Reading.line_length, declared.reading.window.TheConstants.WINDOW_BYTES};

use super::source::Source;
use super::window::Window;
use crate::ranges::{TextFormat, ranges_at};
use crate::{CertFault, CertFaultKind};
use std::io::Read;

/// A reader and those of its bytes that wait; how many of these belong to the line that was read last, with its line feed;
/// and the number of the next line.
#[derive(Drop)]
pub(crate) struct Input<R> {
    source: Source<R>,
    window: Window,
    passed: usize,
    number: u64,
    ghost within: { passed ≤ length (window_bytes window) },
    ghost counted: { 0 < number },
}

/// The result of the line with this number.
pub(crate) fn at_line<T: Drop>(line: u64, shown: Result<T, CertFaultKind>) -> Result<T, CertFault>
    ensures { result ≡ at_line line shown }
{
    match shown {
        Ok(value) => Ok(value),
        Err(kind) => Err(CertFault { line, kind }),
    }
}

/// Where the first line feed is.
fn first_feed(bytes: &[u8]) -> Option<usize>
    ensures { result ≡ position (λ byte. byte == 10) bytes.now }
{
    bytes.iter().position(|byte| *byte == b'\n')
}

/// How many bytes come before the first line feed, or how many there are where there is none. None of the first `searched`
/// is a line feed.
fn line_length(bytes: &[u8], searched: usize) -> usize
    requires within { searched ≤ length bytes.now }
    requires none { line_length (take searched bytes.now) ≡ searched }
    ensures { result ≡ line_length bytes.now }
{
    match first_feed(&bytes[searched..]) {
        Some(at) => searched + at,
        None => bytes.len(),
    }
}

impl<R: Read> Input<R> {
    ghost use Rattle.tcc_cert.specs.{InputBytes.HasFailed, InputBytes.IsAt, Reading.Position, Ranges.ranges_at};
    ghost use Rattle.tcc_cert.specs.private.Inputs.{Ends, FindsLine, AsBefore, TakesLine, line_in};

    pub(crate) fn new(reader: R) -> Input<R>
        ensures start { IfSome (R.remaining reader) (λ bytes. IsAt R.remaining result (record { line = 1; bytes = bytes })) }
        ensures works { HasFailed result → ⊥ }
        ensures first { result.passed ≡ 0 }
        ensures number { result.number ≡ 1 }
    {
        Input {
            source: Source::new(reader),
            window: Window::new(),
            passed: 0,
            number: 1,
        }
    }

    /// The line that was read last, without its line feed.
    pub(crate) fn line(&self) -> &[u8]
        ensures { result.now ≡ line_in self.now }
    {
        &self.window.as_slice()[..self.passed.saturating_sub(1)]
    }

    /// The first `count` of the bytes that wait.
    pub(crate) fn ahead(&self, count: usize) -> &[u8]
        requires { count ≤ length (window_bytes self.now.window) }
        ensures { result.now ≡ take count (window_bytes self.now.window) }
    {
        &self.window.as_slice()[..count]
    }

    /// A fault at the line after the last.
    pub(crate) fn fault(&self, kind: CertFaultKind) -> CertFault
        ensures { result ≡ record { line = self.now.number; kind = kind } }
    {
        CertFault {
            line: self.number,
            kind,
        }
    }

    /// Reads until the next line, of at most `most` bytes, is held, and returns how long it is.
    pub(crate) fn find_line(&mut self, most: usize) -> Result<usize, CertFaultKind>
        requires passed { self.old.passed ≡ 0 }
        requires room { most < WINDOW_BYTES }
        ensures found { (at : Position) → IsAt R.remaining self.old at → FindsLine most at result self.new }
        ensures stays { OnOk result ((at : Position) → IsAt R.remaining self.old at → IsAt R.remaining self.new at) }
        ensures passed { self.new.passed ≡ 0 }
        ensures number { self.new.number ≡ self.old.number }
        ensures works { OnOk result (AsBefore self.old self.new) }
        ensures held { IfOk result (λ length_found. length_found < length (window_bytes self.new.window)) }
    {
        let mut searched = 0;
        'reads: loop {
            let bytes = self.window.as_slice();
            let held = bytes.len();
            let length = line_length(bytes, searched);
            if length > most {
                return Err(CertFaultKind::TooLarge);
            }
            if length < held {
                return Ok(length);
            }
            searched = held;
            match self.window.fill(&mut self.source) {
                Ok(0) => return Err(CertFaultKind::Truncated),
                Ok(_) => {}
                Err(_) => return Err(CertFaultKind::Read),
            }
        }
    }

    /// Moves on to the next line, of at most `most` bytes, and returns its number.
    pub(crate) fn next(&mut self, most: usize) -> Result<u64, CertFault>
        requires { most < WINDOW_BYTES }
        ensures works { OnOk result (AsBefore self.old self.new) }
        ensures line { (at : Position) → IsAt R.remaining self.old at → TakesLine R.remaining most at result self.new }
    {
        self.window.pass(self.passed);
        self.passed = 0;
        let line = self.number;
        match self.find_line(most) {
            Ok(length) => {
                let Some(number) = line.checked_add(1) else {
                    return Err(CertFault {
                        line,
                        kind: CertFaultKind::NoMemory,
                    });
                };
                self.passed = length + 1;
                self.number = number;
                Ok(line)
            }
            Err(kind) => Err(CertFault { line, kind }),
        }
    }

    /// Takes the next line, one after the first. The text's scale says how long it may be.
    pub(crate) fn next_of(&mut self, scale: TextFormat) -> Result<u64, CertFault>
        ensures works { OnOk result (AsBefore self.old self.new) }
        ensures line { (at : Position) → IsAt R.remaining self.old at → TakesLine R.remaining (ranges_at scale).line_bytes at result self.new }
    {
        self.next(ranges_at(scale).line_bytes)
    }

    /// Nothing comes after the last line.
    pub(crate) fn end(&mut self) -> Result<(), CertFault>
        ensures works { OnOk result (AsBefore self.old self.new) }
        ensures ends { (at : Position) → IsAt R.remaining self.old at → Ends at result self.new }
    {
        self.window.pass(self.passed);
        self.passed = 0;
        if !self.window.as_slice().is_empty() {
            return Err(self.fault(CertFaultKind::Trailing));
        }
        match self.window.fill(&mut self.source) {
            Ok(0) => Ok(()),
            Ok(_) => Err(self.fault(CertFaultKind::Trailing)),
            Err(_) => Err(self.fault(CertFaultKind::Read)),
        }
    }
}
