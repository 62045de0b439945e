//! The version of a text, by its first line.
ghost use Rattle.std.specs.Prelude.{◌<◌, IfErr, IfOk, IfSome};
ghost use Rattle.tcc_cert.specs.Versions.{IsReaderOf, IsUntouched};

use super::input::Input;
use super::large::is_header;
use super::large_reader::LargeReader;
use super::parts::CertReader;
use crate::CertFault;
use crate::ranges::MAX_HEADER_BYTES;
use std::io::Read;

/// A certificate's text, by its version.
#[derive(Drop)]
pub enum VersionReader<R> {
    /// Version 1 or 2, whose parts come one by one; or a text whose first line is that of no version.
    Parts(CertReader<R>),
    /// Version 3.
    Large(LargeReader<R>),
}

/// Looks at the first line of a text, and returns the reader of its version. Where there is no first line, since it is too
/// long or cut or the reader failed, it returns that fault. The reader of parts reports a line of no version.
pub fn reader_of<R: Read + Drop>(reader: R) -> Result<VersionReader<R>, CertFault>
    ensures version { IfSome (R.remaining reader) (λ bytes. IsReaderOf R.remaining bytes result) }
    ensures untouched { IfOk result IsUntouched }
    ensures counted { IfErr result (λ fault. 0 < fault.line) }
{
    let mut input = Input::new(reader);
    match input.find_line(MAX_HEADER_BYTES) {
        Ok(length) => {
            if is_header(input.ahead(length)) {
                Ok(VersionReader::Large(LargeReader::over(input)))
            } else {
                Ok(VersionReader::Parts(CertReader::over(input)))
            }
        }
        Err(kind) => Err(input.fault(kind)),
    }
}
