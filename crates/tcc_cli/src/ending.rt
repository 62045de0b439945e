//! How the process ends.
ghost use Rattle.std.specs.Prelude.{◌≡◌};
ghost use Rattle.std.specs.Process.{exit_status};

use std::process::ExitCode;
use tcc_print::Status;

/// What the process ends with, for the status of a run. Of a device that failed standard error is told too.
pub fn exit_code(rt: &HostRuntime, code: u8) -> ExitCode
    ensures { exit_status result ≡ code }
{
    if code == Status::Device.code() {
        let _ = eprintln!(rt; "device");
    }
    ExitCode::from(code)
}
