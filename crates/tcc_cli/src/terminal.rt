//! Whether somebody at a terminal waits for the end of a run.
ghost use Rattle.std.specs.Prelude.{◌≡◌, true, false, MatchResult};
ghost use Rattle.std.specs.Fs.{metadata_len, metadata_mode};
ghost use Rattle.tcc_cli.specs.FileIds.{is_character_device};

use crate::input::RecordInput;
use crate::known_file::is_device;
use std::fs::{self, File, Metadata};
use std::io;
use std::os::unix::fs::MetadataExt;

/// What the standard input is open on.
const INPUT: &str = "/proc/self/fd/0";

/// What the standard error is open on.
const ERRORS: &str = "/proc/self/fd/2";

/// The major number of `/dev/null` and the like, which are devices of characters and no terminals.
const MEMORY: u64 = 1;

/// The major number of a device, which its bits from 8 to 19 have.
fn major(device: u64) -> u64 {
    (device >> 8) & 0xfff
}

/// Whether a file is a terminal, by what the system says of it; not where it doesn't tell.
fn is_terminal(told: io::Result<Metadata>) -> bool
    ensures { MatchResult told (λ metadata. result ≡ true → is_character_device (metadata_mode metadata) ≡ true) (λ _. result ≡ false) }
{
    match told {
        Ok(metadata) => is_device(metadata.mode()) && major(metadata.rdev()) != MEMORY,
        Err(_) => false,
    }
}

/// Whether the records are typed at a terminal.
fn is_typed(rt: &HostRuntime, input: &RecordInput) -> bool {
    match input {
        RecordInput::Standard(_) => is_terminal(fs::metadata(rt, INPUT)),
        RecordInput::File(file) => is_terminal(file.metadata()),
    }
}

/// Whether the standard error is a terminal, at which nobody types one of these files.
pub fn are_waited_for(rt: &HostRuntime, one: &File, other: &File) -> bool {
    let typed = is_terminal(one.metadata()) || is_terminal(other.metadata());
    is_terminal(fs::metadata(rt, ERRORS)) && !typed
}

/// How many bytes a file has, by what the system says of it; 0 where it doesn't tell.
fn told_size(told: io::Result<Metadata>) -> u64
    ensures { MatchResult told (λ metadata. result ≡ metadata_len metadata) (λ _. result ≡ 0) }
{
    match told {
        Ok(metadata) => metadata.len(),
        Err(_) => 0,
    }
}

/// How many bytes a file has; 0 where the system doesn't tell, as of a pipe.
pub fn size_of(file: &File) -> u64 {
    told_size(file.metadata())
}

/// Whether the standard error is a terminal, at which nobody types the records.
pub fn is_waited_for(rt: &HostRuntime, input: &RecordInput) -> bool {
    is_terminal(fs::metadata(rt, ERRORS)) && !is_typed(rt, input)
}
