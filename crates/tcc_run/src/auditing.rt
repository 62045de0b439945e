//! The answer for a book.
ghost use Rattle.std.specs.Prelude.{IfOk};
ghost use Rattle.tcc_run.specs.Audited.{IsAudit, IsReadBack};

use crate::audit_fault::AuditFault;
use crate::naming::names;
use std::alloc::Global;
use std::sync::Wait;
use std::thread::Threads;
use tcc_answer::Answer;
use tcc_book::{Book, Pass};
use tcc_explain::laws::written;
use tcc_explain::{Gate, Workers, explain};
use tcc_graph::Level;

/// The first answer, at a level, for exactly what the passes recorded, where they are those of all sessions of the book. It is the same in
/// whatever order their recorders held the lock, and for every number of workers. The gate is called before each start that they search.
/// The answer's certificate has a text, which is read as this certificate. The book stays as it is.
///
/// ```rust
/// let answer = audit(rt, alloc, book, passes, Level::Causal, workers, &OpenGate)?;
/// write_json(alloc, &answer, out)?;
/// Ok(())
/// ```
pub fn audit<G: Gate>(
    rt: &(impl Threads + Wait + Sync),
    alloc: Global,
    book: &Book,
    passes: &[Pass],
    level: Level,
    workers: Workers,
    gate: &G,
) -> Result<Answer, AuditFault>
    ensures audit { IsAudit passes.now level result }
    ensures read { IfOk result IsReadBack }
{
    written();
    let whole = book.whole(rt, alloc, passes).map_err(AuditFault::Whole)?;
    names(&whole);
    explain(rt, alloc, &whole, level, workers, gate).map_err(AuditFault::Explain)
}
