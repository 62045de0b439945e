//! A reader that gives up above a limit on bytes, and that is not read again once it has reached its end.
ghost use Rattle.std.specs.Prelude.{◌≡◌, ◌<◌, [], true, length, OnOk, OnErr, Ok, option_map};
ghost use Rattle.std.specs.Io.{ReadsAtMost};
ghost use Rattle.std.specs.Io.KnownBytes.{Consumes, IsAtEnd, Keeps, ReadConsumes};
ghost use Rattle.tcc_rows.specs.{ByteLimit.limited_remaining, ByteLimit.marked, private.Limited.met_end};
ghost use Rattle.tcc_rows.specs.declared.rows.limited.BytesStage.TheVariants as stage;

use std::io;
use std::io::{ErrorKind, Read};

/// What the inner reader has shown so far.
#[derive(Clone, Copy)]
enum BytesStage {
    /// There may be more bytes.
    Going,
    /// There are no more bytes. That is final: a terminal may give more after an end.
    Ended,
    /// There are more bytes than the limit lets through.
    Over,
}

/// At most `left` bytes of the inner reader. If it has more, an error comes after them.
#[derive(Drop)]
pub(crate) struct Limited<R> {
    inner: R,
    left: usize,
    stage: BytesStage,
}

impl<R: Read> Limited<R> {
    pub(crate) fn new(inner: R, limit: usize) -> Limited<R>
        ensures { limited_remaining R.remaining result ≡ option_map (marked limit) (R.remaining inner) }
    {
        Limited {
            inner,
            left: limit,
            stage: BytesStage::Going,
        }
    }

    /// Distinguishes the end of the bytes, if no more may follow, from a reader that has more.
    fn expect_end(&mut self) -> io::Result<()>
        requires going { self.old.stage ≡ stage.Going }
        requires none_left { self.old.left ≡ 0 }
        ensures end { OnOk result (Consumes (limited_remaining R.remaining self.old) (limited_remaining R.remaining self.new) []) }
        ensures none { OnOk result (IsAtEnd (limited_remaining R.remaining self.new)) }
        ensures final_end { OnOk result (met_end self.new ≡ true) }
        ensures more { OnErr result (Keeps (limited_remaining R.remaining self.old) (limited_remaining R.remaining self.new)) }
    {
        let mut next = [0; 1];
        if self.inner.read(&mut next)? == 0 {
            self.stage = BytesStage::Ended;
            return Ok(());
        }
        self.stage = BytesStage::Over;
        Err(io::Error::from(ErrorKind::Other))
    }

    /// Reads where the limit lets bytes through and there is room for them.
    fn read_within(&mut self, buf: &mut [u8]) -> io::Result<usize>
        requires going { self.old.stage ≡ stage.Going }
        requires some_left { 0 < self.old.left }
        requires room { 0 < length buf.old }
        ensures bound { ReadsAtMost result buf.new }
        ensures bytes { ReadConsumes (limited_remaining R.remaining self.old) (limited_remaining R.remaining self.new) result buf.new }
        ensures met { result ≡ Ok 0 → met_end self.new ≡ true }
    {
        let most = buf.len().min(self.left);
        let count = self.inner.read(&mut buf[..most])?;
        if count == 0 {
            self.stage = BytesStage::Ended;
        } else {
            self.left -= count;
        }
        Ok(count)
    }
}

impl<R: Read> Read for Limited<R> {
    ghost remaining = { limited_remaining R.remaining };

    fn read(&mut self, buf: &mut [u8]) -> io::Result<usize>
        ensures bound { ReadsAtMost result buf.new }
        ensures bytes { ReadConsumes (limited_remaining R.remaining self.old) (limited_remaining R.remaining self.new) result buf.new }

        // The end is final: the inner reader stays as it is.
        ensures stays { met_end self.old ≡ true → (result ≡ Ok 0) × (self.new ≡ self.old) }
        ensures met { result ≡ Ok 0 → 0 < length buf.old → met_end self.new ≡ true }
    {
        if buf.is_empty() {
            return Ok(0);
        }
        match self.stage {
            BytesStage::Going => {}
            BytesStage::Ended => return Ok(0),
            BytesStage::Over => return Err(io::Error::from(ErrorKind::Other)),
        }
        if self.left == 0 {
            self.expect_end()?;
            return Ok(0);
        }
        self.read_within(buf)
    }
}
