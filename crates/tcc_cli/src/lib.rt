//! The command lines of `tcc` and of the checker, and the files that they name: what the words ask for, which files are opened and made,
//! and what is reported where one fails. What `tcc limits` prints is here too.
//!
//! Needs: what runs can be asked for (`tcc_print`, `tcc_verdict`).
//! Must hold: what the words ask for is what a definition says of them; no file that is read is written.
#![tactic(auto)]

mod checker;
mod checking;
mod command_line;
mod ending;
mod files;
mod help;
mod input;
mod known_file;
pub mod laws;
mod limits;
mod opening;
mod quiet;
mod reporting;
mod terminal;

pub use checker::{read_check, read_check_words};
pub use checking::{check_opened, open_both};
pub use command_line::{Files, Request, read, read_words};
pub use ending::exit_code;
pub use files::{open_input, open_output, open_outputs, print_unopened};
pub use help::VERSION;
pub use input::RecordInput;
pub use limits::print_limits;
pub use opening::OutputFile;
pub use quiet::Quiet;
pub use reporting::ErrorReporter;
pub use terminal::{are_waited_for, is_waited_for, size_of};
