//! `tcc check` as a program of its own, which has none of the searches. It is for those who take answers from others, and trust only
//! the check.
#![tactic(auto)]

use std::process::ExitCode;
use tcc_cli::{ErrorReporter, check_opened, exit_code, open_both, read_check};

fn main(rt: HostRuntime) -> ExitCode {
    let mut out = ErrorReporter::new(rt.stdout(), "standard output", rt.stderr());
    let code = match read_check(&rt, &mut out) {
        Ok(files) => {
            let opened = open_both(&rt, &files.history, &files.certificate);
            let mut notes = rt.stderr();
            check_opened(rt.alloc(), opened, files.large, &mut out, &mut notes)
        }
        Err(code) => code,
    };
    exit_code(&rt, code)
}
