//! Readers and writers that fail, or give and take little.
use std::alloc::Global;
use std::io::{self, ErrorKind, Read, Write};

/// A writer that takes a few bytes at a time, and shows its fault after `room` bytes.
#[derive(Drop)]
pub struct Faulty {
    pub taken: Vec<u8>,
    pub room: usize,
    pub fault: Fault,
}

#[derive(Clone, Copy, Debug)]
pub enum Fault {
    /// Each write fails with this kind.
    Fails(ErrorKind),
    /// Each write takes no bytes.
    TakesNone,
    /// One write is interrupted, and the next ones work.
    IsInterrupted,
    /// The flush fails.
    KeepsAll,
}

impl Write for Faulty {
    fn write(&mut self, bytes: &[u8]) -> io::Result<usize> {
        let count = bytes.len().min(7).min(self.room);
        if count == 0 {
            match self.fault {
                Fault::Fails(kind) => return Err(io::Error::from(kind)),
                Fault::TakesNone => return Ok(0),
                Fault::IsInterrupted => {
                    self.room = usize::MAX;
                    return Err(io::Error::from(ErrorKind::Interrupted));
                }
                Fault::KeepsAll => return Ok(0),
            }
        }
        self.taken.extend_from_slice(&bytes[..count])?;
        self.room -= count;
        Ok(count)
    }

    fn flush(&mut self) -> io::Result<()> {
        match self.fault {
            Fault::KeepsAll => Err(io::Error::from(ErrorKind::Other)),
            _ => Ok(()),
        }
    }
}

/// An output whose first `works` writes succeed.
#[derive(Drop)]
pub struct Breaking {
    pub taken: Vec<u8>,
    pub works: usize,
}

impl Write for Breaking {
    fn write(&mut self, bytes: &[u8]) -> io::Result<usize> {
        if self.works == 0 {
            return Err(io::Error::from(ErrorKind::Other));
        }
        self.works -= 1;
        self.taken.extend_from_slice(bytes)?;
        Ok(bytes.len())
    }

    fn flush(&mut self) -> io::Result<()> {
        Ok(())
    }
}

/// An output that holds what is written until it is flushed.
#[derive(Drop)]
pub struct HeldOutput {
    pub held: Vec<u8>,
    pub taken: Vec<u8>,
}

impl Write for HeldOutput {
    fn write(&mut self, bytes: &[u8]) -> io::Result<usize> {
        self.held.extend_from_slice(bytes)?;
        Ok(bytes.len())
    }

    fn flush(&mut self) -> io::Result<()> {
        self.taken.extend_from_slice(&self.held)?;
        self.held.clear();
        Ok(())
    }
}

/// One that holds nothing yet.
pub fn nothing_held(alloc: Global) -> HeldOutput {
    HeldOutput {
        held: Vec::new(alloc),
        taken: Vec::new(alloc),
    }
}

/// A reader of a part of a text, a few bytes at a time, and then a failure.
#[derive(Drop)]
pub struct Failing<'a> {
    pub text: &'a [u8],
    pub most: usize,
}

impl Read for Failing<'_> {
    fn read(&mut self, buf: &mut [u8]) -> io::Result<usize> {
        let count = buf.len().min(self.most).min(self.text.len());
        if count == 0 && !buf.is_empty() {
            return Err(io::Error::from(ErrorKind::Interrupted));
        }
        buf[..count].copy_from_slice(&self.text[..count]);
        self.text = &self.text[count..];
        Ok(count)
    }
}

/// A reader of a text, at most `most` bytes at a time, that gives no bytes once, and then more.
#[derive(Drop)]
pub struct Resuming<'a> {
    text: &'a [u8],
    most: usize,
    more: &'a [u8],
    has_ended: bool,
}

impl Read for Resuming<'_> {
    fn read(&mut self, buf: &mut [u8]) -> io::Result<usize> {
        if self.text.is_empty() && !self.has_ended {
            self.text = self.more;
            self.has_ended = true;
            return Ok(0);
        }
        let count = buf.len().min(self.most).min(self.text.len());
        buf[..count].copy_from_slice(&self.text[..count]);
        self.text = &self.text[count..];
        Ok(count)
    }
}

/// A reader that gives `count` bytes of the text, then none once, and then the rest.
pub fn gives_twice(text: &str, most: usize, count: usize) -> Resuming<'_> {
    let (text, more) = text.as_bytes().split_at(count.min(text.len()));
    Resuming {
        text,
        most,
        more,
        has_ended: false,
    }
}
