//! What to do with a file that has no records.

use std::fs;
use tcc_run::Status;

/// Whether the path is that of a folder.
fn is_folder(rt: &HostRuntime, path: &str) -> bool {
    match fs::metadata(rt, path) {
        Ok(found) => found.is_dir(),
        Err(_) => false,
    }
}

/// What to do with the file at a path, if what it is, or its name, says that it has no records.
fn advice_on(rt: &HostRuntime, path: &str) -> Option<&'static str> {
    if is_folder(rt, path) {
        Some("it is a folder: name a file of it, or let tcc-fleet judge each")
    } else if path.ends_with(".edn") {
        Some("it is no file of records: recipes/jepsen.py makes one of a history in EDN")
    } else if path.ends_with(".gz") {
        Some("it is compressed: pipe what 'gunzip -c' writes into tcc")
    } else {
        None
    }
}

/// Says on standard error what to do with the file at the path, where a run with it ended since it has no records.
pub fn advise(rt: &HostRuntime, path: Option<&str>, code: u8) {
    let Some(path) = path else {
        return;
    };
    if code == Status::RowFault.code() || code == Status::Device.code() {
        if let Some(advice) = advice_on(rt, path) {
            // What standard error takes changes nothing.
            let _ = eprintln!(rt; "{path}: {advice}");
        }
    }
}
