//! What is said of one history.
ghost use Rattle.std.specs.Prelude.{◌≡◌};
ghost use Rattle.tcc_batch.specs.Findings.{finding_code, finding_line, unopened};

use std::io::ErrorKind;
use tcc_print::Status;

/// What is said of a history: a line, and the code that a run for it alone ends with.
#[derive(Drop)]
pub enum Finding {
    /// A run for it wrote this line.
    Answered { line: String, code: u8 },
    /// Memory was out before a run had written its line.
    NoMemory,
    /// Its records couldn't be opened.
    Unopened,
}

impl Finding {
    /// What is said of records that couldn't be opened, by why they couldn't.
    pub fn unopened(kind: ErrorKind) -> Finding
        ensures { result ≡ unopened kind }
    {
        match kind {
            ErrorKind::OutOfMemory => Finding::NoMemory,
            _ => Finding::Unopened,
        }
    }

    /// The line, without a line feed.
    pub fn line(&self) -> &str
        ensures { result.now ≡ finding_line self.now }
    {
        match self {
            Finding::Answered { line, .. } => line.as_str(),
            Finding::NoMemory => "memory",
            Finding::Unopened => "device",
        }
    }

    /// The code that a run for this history alone ends with.
    pub fn code(&self) -> u8
        ensures { result ≡ finding_code self.now }
    {
        match self {
            Finding::Answered { code, .. } => *code,
            Finding::NoMemory => Status::Memory.code(),
            Finding::Unopened => Status::Device.code(),
        }
    }
}
