//! Bytes that came from a reader and wait to be judged.
ghost use Rattle.std.specs.Prelude.{◌≡◌, ℕ, ◌<◌, ◌≤◌, ◌++◌, [], List, IfOk, IsTrue, OnErr, OnOk, drop, length};
ghost use Rattle.tcc_cert.specs.declared.reading.window.TheConstants.{WINDOW_BYTES};
ghost use Rattle.std.specs.Io.KnownBytes.{Consumes, IsAtEnd, Keeps};

use super::source::Source;
use crate::version_2::V2_MAX_LINE_BYTES;
use std::io::{self, Read};

/// The most bytes of a line of any version, with its line feed.
const WINDOW_BYTES: usize = V2_MAX_LINE_BYTES + 1;

/// The bytes from `first` to `end`.
#[derive(Drop)]
pub(crate) struct Window {
    bytes: [u8; WINDOW_BYTES],
    first: usize,
    end: usize,
    ghost ordered: { first ≤ end },
    ghost within: { end ≤ WINDOW_BYTES },
}

impl Window {
    ghost use Rattle.tcc_cert.specs.WindowBytes.{window_bytes};

    pub(crate) fn new() -> Window
        ensures { window_bytes result ≡ [] }
    {
        Window {
            bytes: [0; WINDOW_BYTES],
            first: 0,
            end: 0,
        }
    }

    pub(crate) fn as_slice(&self) -> &[u8]
        ensures value { result.now ≡ window_bytes self.now }
        ensures fits { length result.now ≤ WINDOW_BYTES }
    {
        &self.bytes[self.first..self.end]
    }

    /// Drops the first `count` of them.
    pub(crate) fn pass(&mut self, count: usize)
        requires { count ≤ length (window_bytes self.old) }
        ensures { window_bytes self.new ≡ drop count (window_bytes self.old) }
    {
        self.first += count;
    }

    /// Moves them to the front, so that all room is after them.
    fn gather(&mut self)
        ensures bytes { window_bytes self.new ≡ window_bytes self.old }
        ensures front { self.new.end ≡ length (window_bytes self.old) }
    {
        let (first, end) = (self.first, self.end);
        if first > 0 {
            self.bytes.copy_within(first..end, 0);
            self.first = 0;
            self.end = end - first;
        }
    }

    /// Takes what one read gives, and returns how many bytes that were.
    pub(crate) fn fill<R: Read>(&mut self, source: &mut Source<R>) -> io::Result<usize>
        requires { length (window_bytes self.old) < WINDOW_BYTES }
        ensures more { IfOk result (λ count. (more : List ℕ) × (length more ≡ count) × (window_bytes self.new ≡ window_bytes self.old ++ more)
            × Consumes (R.remaining source.old.reader) (R.remaining source.new.reader) more) }
        ensures end { IfOk result (λ count. count ≡ 0 → IsAtEnd (R.remaining source.new.reader)) }
        ensures works { OnOk result (source.new.failed ≡ source.old.failed) }
        ensures failed { OnErr result (IsTrue source.new.failed) }
    {
        self.gather();
        let end = self.end;
        let count = source.read(&mut self.bytes[end..])?;
        self.end = end + count;
        Ok(count)
    }
}
