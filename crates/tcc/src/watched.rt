//! Readers and writers that tell a watcher what a run is doing.

use crate::watch::ShownProgress;
use std::io::{self, Read, Write};
use std::sync::Wait;
use std::time::Clock;

/// A reader that tells its watcher what the run does while it is read, and what it does after that.
#[derive(Drop)]
pub struct WatchedReader<'a, R, T: Wait + Clock> {
    stream: R,
    watch: &'a ShownProgress<'a, T>,
    /// What the run does after the end of it.
    next: &'static str,
    words: &'static str,
    size: u64,
    is_begun: bool,
}

impl<'a, R, T: Wait + Clock> WatchedReader<'a, R, T> {
    /// The stream, which has this many bytes, or 0 if nobody knows: the run does the one while it is read, and the other after that.
    pub fn new(
        stream: R,
        watch: &'a ShownProgress<'a, T>,
        words: &'static str,
        size: u64,
        next: &'static str,
    ) -> WatchedReader<'a, R, T> {
        WatchedReader {
            stream,
            watch,
            next,
            words,
            size,
            is_begun: false,
        }
    }
}

impl<R: Read, T: Wait + Clock> Read for WatchedReader<'_, R, T> {
    ghost remaining = { λ reader. R.remaining reader.stream };

    fn read(&mut self, buffer: &mut [u8]) -> io::Result<usize> {
        if !self.is_begun {
            self.watch.now(self.words, self.size);
            self.is_begun = true;
        }
        let done = self.stream.read(buffer);
        match &done {
            Ok(0) => self.watch.now(self.next, 0),
            Ok(count) => self.watch.read(*count),
            Err(_) => {}
        }
        done
    }
}

/// A writer whose watcher clears its line before anything is written.
#[derive(Drop)]
pub struct WatchedWriter<'a, W, T: Wait + Clock> {
    stream: W,
    watch: &'a ShownProgress<'a, T>,
}

impl<'a, W, T: Wait + Clock> WatchedWriter<'a, W, T> {
    pub fn new(stream: W, watch: &'a ShownProgress<'a, T>) -> WatchedWriter<'a, W, T> {
        WatchedWriter { stream, watch }
    }
}

impl<W: Write, T: Wait + Clock> Write for WatchedWriter<'_, W, T> {
    ghost contents = { λ writer. W.contents writer.stream };

    fn write(&mut self, bytes: &[u8]) -> io::Result<usize> {
        self.watch.pause();
        self.stream.write(bytes)
    }

    fn flush(&mut self) -> io::Result<()> {
        self.stream.flush()
    }
}
