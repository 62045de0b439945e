//! How the lines of a survey are written, one after the other.
ghost use Rattle.std.specs.Prelude.{◌≡◌, ℕ, List, IfErr, IfOk, OnOk};
ghost use Rattle.std.specs.Io.KnownBytes.{Appends};
ghost use Rattle.tcc_print.specs.Printed.{CutsOff, EndsIn};

use std::io::Write;
use tcc_base::write_out;
use tcc_print::Status;
use tcc_print::printing::{Made, Sent, print_memory};
use tcc_txn::NoMemory;

/// Writes a line that was made, and leaves the flush to the last one; else the run ends with this number.
pub(crate) fn write_line<W: Write>(made: Made, json: bool, out: &mut W) -> Sent
    ensures whole { (text : List ℕ) → IfOk made (λ bytes. bytes.items ≡ text) → OnOk result (Appends (W.contents out.old) (W.contents out.new) text) }
    ensures ended { (text : List ℕ) → IfOk made (λ bytes. bytes.items ≡ text) → IfErr result (EndsIn json (W.contents out.old) (W.contents out.new) text) }
    ensures made { IfOk made (λ bytes. IfErr result (CutsOff (W.contents out.old) (W.contents out.new) bytes.items)) }
{
    match made {
        Ok(text) => match write_out(out, &text) {
            Ok(()) => Ok(()),
            Err(_) => Err(Status::Device.code()),
        },
        Err(NoMemory) => Err(print_memory(out, json)),
    }
}
