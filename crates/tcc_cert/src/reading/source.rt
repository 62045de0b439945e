//! A reader that records that it failed.
ghost use Rattle.std.specs.Prelude.{◌≡◌, IsTrue, OnErr, OnOk, false};
ghost use Rattle.std.specs.Io.{ReadsAtMost};
ghost use Rattle.std.specs.Io.KnownBytes.{ReadConsumes};

use std::io::{self, Read};

/// A reader, and whether a read of it has failed. Only a read here records that, and what is returned for a failed reader
/// depends on it.
#[derive(Drop)]
pub(crate) struct Source<R> {
    reader: R,
    failed: bool,
}

impl<R: Read> Source<R> {
    pub(crate) fn new(reader: R) -> Source<R>
        ensures reader { result.reader ≡ reader }
        ensures works { result.failed ≡ false }
    {
        Source {
            reader,
            failed: false,
        }
    }

    /// What one read of the reader gives.
    pub(crate) fn read(&mut self, buf: &mut [u8]) -> io::Result<usize>
        ensures bound { ReadsAtMost result buf.new }
        ensures bytes { ReadConsumes (R.remaining self.old.reader) (R.remaining self.new.reader) result buf.new }
        ensures works { OnOk result (self.new.failed ≡ self.old.failed) }
        ensures failed { OnErr result (IsTrue self.new.failed) }
    {
        match self.reader.read(buf) {
            Ok(count) => Ok(count),
            Err(error) => {
                self.failed = true;
                Err(error)
            }
        }
    }
}
