//! Files opened beside the standard streams: none takes the place of one that is closed, and none is made empty that is the
//! input, the output or standard error.
ghost use Rattle.std.specs.Prelude.{◌≡◌, ◌↔◌, IfOk, IsTrue, MatchResult, option_and_then};
ghost use Rattle.tcc_cli.specs.Opened.{IsAside, LeavesAsIs};
ghost use Rattle.tcc_cli.specs.FileIds.{AreSame};
ghost use Rattle.tcc_cli.specs.Taken.{IsTaken, id_of};

use crate::input::RecordInput;
use crate::known_file::{FileId, KnownFile, is_same, told};
use std::fs::{self, File, OpenOptions};
use std::io::{self, ErrorKind, Write};
use std::os::fd::AsRawFd;

/// What the standard input is open on.
const INPUT: &str = "/proc/self/fd/0";

/// What the standard output is open on.
const OUTPUT: &str = "/proc/self/fd/1";

/// What standard error is open on.
const ERRORS: &str = "/proc/self/fd/2";

/// The file that a standard stream is open on.
fn stream(rt: &HostRuntime, link: &str) -> io::Result<KnownFile> {
    told(fs::metadata(rt, link))
}

/// The file that the records come from.
fn input_of(rt: &HostRuntime, input: &RecordInput) -> io::Result<KnownFile> {
    match input {
        RecordInput::Standard(_) => stream(rt, INPUT),
        RecordInput::File(file) => Ok(KnownFile::of(file.metadata()?)),
    }
}

/// The files that a run reads from and writes to beside the one that it makes.
#[derive(Drop)]
struct Streams {
    input: KnownFile,
    output: KnownFile,
    /// None where standard error is closed, since nothing goes there then.
    errors: Option<KnownFile>,
}

impl Streams {
    /// Those of a run with this input; an error where the input or the output is closed, or the system doesn't tell.
    fn of(rt: &HostRuntime, input: &RecordInput) -> io::Result<Streams> {
        Ok(Streams {
            input: input_of(rt, input)?,
            output: stream(rt, OUTPUT)?,
            errors: stream(rt, ERRORS).ok(),
        })
    }

    /// The id of the file that notes go to.
    fn errors_id(&self) -> Option<FileId>
        ensures { result ≡ option_and_then id_of self.now.errors }
    {
        match &self.errors {
            Some(errors) => errors.id,
            None => None,
        }
    }

    /// Whether the file is one of them.
    fn have(&self, file: Option<FileId>) -> bool
        ensures { IsTrue result ↔ IsTaken file self.now }
    {
        is_same(file, self.input.id)
            || is_same(file, self.output.id)
            || is_same(file, self.errors_id())
    }
}

/// A file to write, which is neither the input, nor the output, nor standard error.
#[derive(Drop)]
pub struct OutputFile {
    file: File,
    known: KnownFile,
    streams: Streams,
    ghost apart: { IsTaken known.id streams → ⊥ },
}

impl OutputFile {
    /// The file, of which this is known, unless it is one of the streams.
    fn new(file: File, known: KnownFile, streams: Streams) -> io::Result<OutputFile>
        ensures { MatchResult result (λ made. made.file ≡ file) (λ _. IsTaken known.id streams) }
    {
        if streams.have(known.id) {
            let message = "it is the input, the output or standard error";
            return Err(io::Error::new(ErrorKind::ResourceBusy, message));
        }
        Ok(OutputFile {
            file,
            known,
            streams,
        })
    }
}

impl OutputFile {
    /// Whether both are the same file.
    pub(crate) fn is_same(&self, other: &OutputFile) -> bool
        ensures { IsTrue result ↔ AreSame self.now.known.id other.now.known.id }
    {
        is_same(self.known.id, other.known.id)
    }
}

impl Write for OutputFile {
    /// Writes to the file. Where that fails it is made empty again, since a part of some records may pass for a whole history.
    fn write(&mut self, bytes: &[u8]) -> io::Result<usize> {
        match self.file.write(bytes) {
            Ok(count) if count > 0 || bytes.is_empty() => Ok(count),
            failed => {
                // What keeps nothing, as a terminal, has nothing to lose.
                let _ = self.file.set_len(0);
                failed
            }
        }
    }

    fn flush(&mut self) -> io::Result<()> {
        self.file.flush()
    }
}

/// The file by a descriptor that is none of the first three. One that is opened while a standard stream is closed has
/// that stream's.
fn aside(file: File) -> io::Result<File>
    ensures { IfOk result IsAside }
{
    let moved = file.try_clone()?;
    if moved.as_raw_fd() < 3 {
        let message = "a standard stream is closed";
        return Err(io::Error::new(ErrorKind::Other, message));
    }
    Ok(moved)
}

/// Opens a file to read.
pub fn open(rt: &HostRuntime, path: &str) -> io::Result<File>
    ensures { IfOk result IsAside }
{
    aside(fs::open(rt, path)?)
}

/// How a file to write is opened: made where it isn't there, else left as it is.
fn as_it_is() -> OpenOptions
    ensures { LeavesAsIs result }
{
    let mut options = OpenOptions::new();
    options.write(true);
    options.create(true);
    options
}

/// Makes a file to write, and makes it empty where it is there. But where it is the input, the output or standard error, or one of
/// the first two is closed, nothing that it holds is touched.
pub fn make(rt: &HostRuntime, path: &str, input: &RecordInput) -> io::Result<OutputFile>
    ensures { IfOk result (λ made. IsAside made.file) }
{
    let opened = as_it_is().open(rt, path)?;
    let file = aside(opened)?;
    let known = KnownFile::of(file.metadata()?);
    let made = OutputFile::new(file, known, Streams::of(rt, input)?)?;
    if made.known.metadata.is_file() {
        made.file.set_len(0)?;
    }
    Ok(made)
}
