//! Readers and writers that tell why they fail.
ghost use Rattle.std.specs.Prelude.{◌≡◌};

use std::io::{self, Read, Write};

/// A reader or a writer that has a name, by which it tells standard error why it fails.
#[derive(Drop)]
pub struct ErrorReporter<'a, S> {
    stream: S,
    name: &'a str,
    errors: io::Stderr,
}

impl<'a, S> ErrorReporter<'a, S> {
    /// The stream by this name.
    pub fn new(stream: S, name: &'a str, errors: io::Stderr) -> ErrorReporter<'a, S>
        ensures stream { result.stream ≡ stream }
        ensures name { result.name ≡ name.entry }
    {
        ErrorReporter {
            stream,
            name,
            errors,
        }
    }

    /// The stream itself.
    pub fn stream(&self) -> &S
        ensures { result.now ≡ self.now.stream }
    {
        &self.stream
    }
}

/// Forwards what a stream did, and reports why it failed, if it did. What standard error takes changes nothing.
fn report<T: Drop>(errors: &mut io::Stderr, name: &str, done: io::Result<T>) -> io::Result<T>
    ensures { result ≡ done }
{
    if let Err(error) = &done {
        let _ = writeln!(errors, "{name}: {error}");
    }
    done
}

impl<R: Read> Read for ErrorReporter<'_, R> {
    ghost remaining = { λ telling. R.remaining telling.stream };

    fn read(&mut self, buffer: &mut [u8]) -> io::Result<usize> {
        let done = self.stream.read(buffer);
        report(&mut self.errors, self.name, done)
    }
}

impl<W: Write> Write for ErrorReporter<'_, W> {
    ghost contents = { λ telling. W.contents telling.stream };

    fn write(&mut self, bytes: &[u8]) -> io::Result<usize> {
        let done = self.stream.write(bytes);
        report(&mut self.errors, self.name, done)
    }

    fn flush(&mut self) -> io::Result<()> {
        let done = self.stream.flush();
        report(&mut self.errors, self.name, done)
    }
}
