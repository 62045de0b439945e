//! What the system says of files, and which of all files one is.
ghost use Rattle.std.specs.Prelude.{◌≡◌, ◌↔◌, IfOk, IsTrue, MatchResult};
ghost use Rattle.std.specs.Fs.{metadata_mode};
ghost use Rattle.std.specs.IoError.{error_kind};
ghost use Rattle.tcc_cli.specs.FileIds.{AreSame, FailsAs, HasId, id_with, is_character_device};

use std::fs::Metadata;
use std::io;
use std::os::unix::fs::MetadataExt;

/// Which of all files one is: its device, and its number there.
#[derive(Clone, Copy, PartialEq, Eq)]
pub(crate) struct FileId {
    device: u64,
    number: u64,
}

/// Whether a file of this mode is a device of characters.
pub(crate) fn is_device(mode: u32) -> bool
    ensures { result ≡ is_character_device mode }
{
    // The bits for the kind of a file.
    mode & 0o170000 == 0o020000
}

impl FileId {
    /// The id of a file with this mode: none of a terminal, `/dev/null` and the like, which keep nothing that could be lost.
    fn with(mode: u32, device: u64, number: u64) -> Option<FileId>
        ensures { result ≡ id_with mode device number }
    {
        if is_device(mode) {
            return None;
        }
        Some(FileId { device, number })
    }

    fn of(metadata: &Metadata) -> Option<FileId>
        ensures { HasId (metadata_mode metadata.now) result }
    {
        FileId::with(metadata.mode(), metadata.dev(), metadata.ino())
    }
}

/// Whether both are the same file.
pub(crate) fn is_same(one: Option<FileId>, other: Option<FileId>) -> bool
    ensures { IsTrue result ↔ AreSame one other }
{
    match (one, other) {
        (Some(one), Some(other)) => one == other,
        _ => false,
    }
}

/// A file of which the system said what it is.
#[derive(Drop)]
pub(crate) struct KnownFile {
    pub metadata: Metadata,
    pub id: Option<FileId>,
    ghost identified: { HasId (metadata_mode metadata) id },
}

impl KnownFile {
    pub fn of(metadata: Metadata) -> KnownFile
        ensures { result.metadata ≡ metadata }
    {
        let id = FileId::of(&metadata);
        KnownFile { metadata, id }
    }
}

/// The file that a standard stream is open on, by what the system says of it.
pub(crate) fn told(told: io::Result<Metadata>) -> io::Result<KnownFile>
    ensures { MatchResult told (λ metadata. IfOk result (λ known. known.metadata ≡ metadata)) (λ error. FailsAs (error_kind error) result) }
{
    match told {
        Ok(metadata) => Ok(KnownFile::of(metadata)),
        Err(error) => {
            let message = "nothing tells what the input and the output are";
            Err(io::Error::new(error.kind(), message))
        }
    }
}
