//! A certificate of a cycle that is written row by row, so that nobody has to hold its tables.
ghost use Rattle.std.specs.Prelude.{◌≡◌, ◌≢◌, ℕ, List, [], ◌∷◌, ◌++◌, Option, Result, Err, IsErr, OnOk, OnErr, IfOk, IsOk, take, codes, length};
ghost use Rattle.std.specs.Io.KnownBytes.{Appends, Keeps};
ghost use Rattle.tcc_cert.specs.{declared.certificate.Certificate.TheVariants.Cycle, declared.certificate.CycleClaim.CycleClaim, declared.fault.CertWriteFault.TheVariants.Device, Given.Sends};
ghost use Rattle.tcc_cert.specs.Texts.{line_text, lines_text, numbers_words, certificate_text};
ghost use Rattle.tcc_cert.specs.Begun.{MayTake, begun_lines, given_lines, with_rows};
ghost use Rattle.tcc_cert.specs.private.Writing.{IsSent, far_mark, mark_before, stage_behind};

use crate::lines::{line, number_line};
use crate::outgoing::Outgoing;
use crate::writing::{cycle_sizes, header_line, link_lines};
use crate::{CertWriteFault, CycleClaim, Links, Table, Version};
use std::io::{self, Write};
use tcc_graph::Level;

/// One of the two tables of a cycle.
#[derive(Clone, Copy)]
pub enum CycleTable {
    /// The least lengths of walks.
    Near,
    /// The least costs of routes upward.
    Far,
}

/// How far the writing has come: which row may come next.
#[derive(Clone, Copy)]
enum TableStage {
    /// One of `near`, or the first of `far`.
    Near,
    /// One of `far`.
    Far,
    /// None, since a write failed.
    Failed,
}

/// Writes a claim of a cycle as its rows come: those of `near` in order, then those of `far`, and then the end. After a
/// write that failed nothing more is written, and each further call reports that failure.
pub struct CycleWriter<'w, W: Write> {
    out: &'w mut W,
    outgoing: Outgoing,
    stage: TableStage,
}

impl<W: Write> Drop for CycleWriter<'_, W> {
    fn drop(self)
        ensures { self.exit.0.now ≡ self.entry.out.now }
    {
        let CycleWriter {
            out: _,
            outgoing: _,
            stage: _,
        } = self;
    }
}

/// The line after the rows, and all that still waits.
fn last_line<W: Write>(outgoing: &mut Outgoing, out: &mut W) -> io::Result<()>
    ensures sent { IsSent result (W.contents out.old) outgoing.old (W.contents out.new) outgoing.new (line_text (codes "end" ∷ [])) }
    ensures none { OnOk result (outgoing.new ≡ []) }
{
    line(outgoing, out, b"end", &[])?;
    outgoing.finish(out)
}

/// The line before the rows of `far`, if it was not written yet.
fn far_line<W: Write>(outgoing: &mut Outgoing, out: &mut W, stage: TableStage) -> io::Result<()>
    ensures { IsSent result (W.contents out.old) outgoing.old (W.contents out.new) outgoing.new (far_mark stage) }
{
    match stage {
        TableStage::Near => line(outgoing, out, b"far", &[]),
        TableStage::Far => Ok(()),
        TableStage::Failed => Ok(()),
    }
}

/// What comes after the last row.
fn close<W: Write>(outgoing: &mut Outgoing, out: &mut W, stage: TableStage) -> io::Result<()>
    ensures sent { IsSent result (W.contents out.old) outgoing.old (W.contents out.new) outgoing.new (far_mark stage ++ line_text (codes "end" ∷ [])) }
    ensures none { OnOk result (outgoing.new ≡ []) }
{
    far_line(outgoing, out, stage)?;
    last_line(outgoing, out)
}

/// Writes the lines before the rows of a claim about `count` transactions. Bytes of them that still wait to be written are
/// for `CycleWriter::behind`. Where a write fails, a part of them was written, from their front.
pub fn write_first_lines<W: Write>(
    out: &mut W,
    version: Version,
    level: Level,
    count: usize,
    links: &Links,
    least: u32,
) -> Result<Outgoing, CertWriteFault>
    ensures whole { IfOk result (λ waiting. Sends (W.contents out.old) [] (W.contents out.new) waiting
        (lines_text (begun_lines version level count links.now least))) }
    ensures part { OnErr result ((n : ℕ) × Appends (W.contents out.old) (W.contents out.new)
        (take n (lines_text (begun_lines version level count links.now least)))) }
{
    let mut outgoing = Outgoing::new();
    header_line(&mut outgoing, out, version, level)?;
    let many = links.as_slice().len();
    cycle_sizes(&mut outgoing, out, count, many, least)?;
    link_lines(&mut outgoing, out, links)?;
    line(&mut outgoing, out, b"near", &[])?;
    Ok(outgoing)
}

impl<'w, W: Write> CycleWriter<'w, W> {
    ghost use Rattle.tcc_cert.specs.Given.{HasTaken, HasFailed};

    /// Goes on after the lines before the rows, of which these bytes wait to be written.
    pub fn behind(out: &'w mut W, outgoing: Outgoing) -> CycleWriter<'w, W>
        ensures same_reference { result.out.ghost_name ≡ out.entry.ghost_name }
        ensures same { result.out.now ≡ out.old }
        ensures outgoing { result.outgoing ≡ outgoing }
        ensures stage { result.stage ≡ TableStage.Near }
        ensures begun { (before : Option (List ℕ)) (count : ℕ) (k : CycleClaim)
            → Sends before [] (W.contents out.old) outgoing (lines_text (begun_lines k.version k.level count k.links k.least))
            → HasTaken W.contents before count (record k { near = []; far = [] }) result }
    {
        CycleWriter {
            out,
            outgoing,
            stage: TableStage::Near,
        }
    }

    /// Begins the text of a claim about `count` transactions, whose rows are then to come. It is for callers that write a
    /// certificate's rows as they are made, and hold none of them.
    pub fn begin(
        out: &'w mut W,
        version: Version,
        level: Level,
        count: usize,
        links: &Links,
        least: u32,
    ) -> Result<CycleWriter<'w, W>, CertWriteFault>
        ensures same_reference { IfOk result (λ writer. writer.out.ghost_name ≡ out.entry.ghost_name) }
        ensures begun { IfOk result (HasTaken W.contents (W.contents out.old) count
            (record { version = version; level = level; links = links.now; least = least; near = []; far = [] })) }
    {
        let outgoing = write_first_lines(out, version, level, count, links, least)?;
        Ok(CycleWriter::behind(out, outgoing))
    }

    /// Records whether it was sent.
    fn note(&mut self, sent: io::Result<()>) -> Result<(), CertWriteFault>
        ensures out { self.new.out ≡ self.old.out }
        ensures outgoing { self.new.outgoing ≡ self.old.outgoing }
        ensures ok { OnOk result (IsOk sent) }
        ensures goes_on { OnOk result (self.new.stage ≡ self.old.stage) }
        ensures err { OnErr result (IsErr sent) }
        ensures fails { OnErr result (self.new.stage ≡ TableStage.Failed) }
    {
        match sent {
            Ok(()) => Ok(()),
            Err(_) => {
                self.stage = TableStage::Failed;
                Err(CertWriteFault::Device)
            }
        }
    }

    /// The line before the rows of the table, if it was not written yet; that of `near` is among the first lines.
    fn mark(&mut self, table: CycleTable) -> Result<(), CertWriteFault>
        ensures same_reference { self.new.out.ghost_name ≡ self.old.out.ghost_name }
        ensures sent { self.old.stage ≢ TableStage.Failed
            → IsSent result (W.contents self.old.out.now) self.old.outgoing (W.contents self.new.out.now) self.new.outgoing (mark_before table self.old.stage) }
        ensures stage { OnOk result (self.new.stage ≡ stage_behind table self.old.stage) }
        ensures fails { OnErr result (self.new.stage ≡ TableStage.Failed) }
        ensures stays_failed { self.old.stage ≡ TableStage.Failed → (result ≡ Err Device) × Keeps (W.contents self.old.out.now) (W.contents self.new.out.now) }
    {
        match (self.stage, table) {
            (TableStage::Failed, _) => Err(CertWriteFault::Device),
            (TableStage::Near, CycleTable::Far) => {
                let sent = line(&mut self.outgoing, self.out, b"far", &[]);
                self.note(sent)?;
                self.stage = TableStage::Far;
                Ok(())
            }
            (TableStage::Near, CycleTable::Near) | (TableStage::Far, _) => Ok(()),
        }
    }

    /// The next row of a table. One of `near` has a number for each transaction, and so has one of `far` in version 1. In
    /// version 2 row s of `far` has a number for each transaction from s on.
    pub fn row(&mut self, table: CycleTable, row: &[u32]) -> Result<(), CertWriteFault>
        ensures same_reference { self.new.out.ghost_name ≡ self.old.out.ghost_name }
        ensures whole { (before : Option (List ℕ)) (count : ℕ) (k : CycleClaim) → HasTaken W.contents before count k self.old → MayTake table k
            → OnOk result (HasTaken W.contents before count (with_rows table k (row.now ∷ [])) self.new) }
        ensures part { (before : Option (List ℕ)) (count : ℕ) (k : CycleClaim) → HasTaken W.contents before count k self.old → MayTake table k
            → OnErr result ((n : ℕ) × Appends before (W.contents self.new.out.now)
            (take n (lines_text (given_lines count (with_rows table k (row.now ∷ [])))))) }
        ensures fails { OnErr result (HasFailed self.new) }
        ensures stays_failed { HasFailed self.old → (result ≡ Err Device) × Keeps (W.contents self.old.out.now) (W.contents self.new.out.now) }
    {
        match self.mark(table) {
            Ok(()) => {
                let sent = number_line(&mut self.outgoing, self.out, row);
                self.note(sent)
            }
            Err(fault) => Err(fault),
        }
    }

    /// The end. Where all rows came, the whole text was written.
    pub fn end(self) -> Result<(), CertWriteFault>
        ensures whole { (before : Option (List ℕ)) (k : CycleClaim) → HasTaken W.contents before (length k.near) k self.entry
            → OnOk result (Appends before (W.contents self.exit.0.now) (certificate_text (Cycle k))) }
        ensures part { (before : Option (List ℕ)) (k : CycleClaim) → HasTaken W.contents before (length k.near) k self.entry
            → OnErr result ((n : ℕ) × Appends before (W.contents self.exit.0.now)
            (take n (certificate_text (Cycle k)))) }
        ensures stays_failed { HasFailed self.entry → (result ≡ Err Device) × Keeps (W.contents self.entry.out.now) (W.contents self.exit.0.now) }
    {
        let CycleWriter {
            out,
            mut outgoing,
            stage,
        } = self;
        if let TableStage::Failed = stage {
            return Err(CertWriteFault::Device);
        }
        close(&mut outgoing, out, stage)?;
        Ok(())
    }

    /// All rows of a table.
    fn table(&mut self, table: CycleTable, rows: &Table) -> Result<(), CertWriteFault>
        ensures same_reference { self.new.out.ghost_name ≡ self.old.out.ghost_name }
        ensures whole { (before : Option (List ℕ)) (count : ℕ) (k : CycleClaim) → HasTaken W.contents before count k self.old → MayTake table k
            → OnOk result (HasTaken W.contents before count (with_rows table k rows.now) self.new) }
        ensures part { (before : Option (List ℕ)) (count : ℕ) (k : CycleClaim) → HasTaken W.contents before count k self.old → MayTake table k
            → OnErr result ((n : ℕ) × Appends before (W.contents self.new.out.now) (take n (lines_text (given_lines count (with_rows table k rows.now))))) }
    {
        for row in rows.as_slice() {
            self.row(table, row.as_slice())?;
        }
        Ok(())
    }
}

/// Writes a claim of a cycle whose tables are there.
pub(crate) fn write_cycle<W: Write>(out: &mut W, claim: &CycleClaim) -> Result<(), CertWriteFault>
    ensures whole { OnOk result (Appends (W.contents out.old) (W.contents out.new) (certificate_text (Cycle claim.now))) }
    ensures part { OnErr result ((n : ℕ) × Appends (W.contents out.old) (W.contents out.new) (take n (certificate_text (Cycle claim.now)))) }
{
    let count = claim.near.as_slice().len();
    let begun = write_first_lines(
        out,
        claim.version,
        claim.level,
        count,
        &claim.links,
        claim.least,
    )?;
    let mut writer = CycleWriter::behind(out, begun);
    writer.table(CycleTable::Near, &claim.near)?;
    writer.table(CycleTable::Far, &claim.far)?;
    writer.end()
}
