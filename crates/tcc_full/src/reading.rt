//! The bytes of the records, which are held whole, since they are read twice: once to be judged, once for the rows of operations.
ghost use Rattle.std.specs.Prelude.{◌≡◌};
ghost use Rattle.std.specs.Io.{ReadsAtMost};
ghost use Rattle.std.specs.Io.KnownBytes.{ReadConsumes};
ghost use Rattle.tcc_full.specs.Runs.{within};

use std::io;
use std::io::{ErrorKind, Read};
use tcc_txn::Limits;

/// A reader that has failed, and is asked no more.
#[derive(Drop)]
pub(crate) struct Failed<R> {
    inner: R,
}

impl<R> Failed<R> {
    pub(crate) fn new(inner: R) -> Failed<R>
        ensures { result.inner ≡ inner }
    {
        Failed { inner }
    }
}

impl<R: Read> Read for Failed<R> {
    ghost remaining = { λ failed. R.remaining failed.inner };

    fn read(&mut self, buf: &mut [u8]) -> io::Result<usize>
        ensures bound { ReadsAtMost result buf.new }
        ensures bytes { ReadConsumes (R.remaining self.old.inner) (R.remaining self.new.inner) result buf.new }
    {
        Err(io::Error::from(ErrorKind::Other))
    }
}

/// The bytes that the limit lets through.
pub(crate) fn within(text: &[u8], limits: Limits) -> &[u8]
    ensures { result.now ≡ within limits text.now }
{
    &text[..text.len().min(limits.bytes() as usize)]
}
