//! The tables of an anomaly: rows as they were found, in 16 bits a number; they are capped where a row is written.
ghost use Rattle.std.specs.Prelude.{◌≡◌, ◌≤◌, ℕ, List, [], ◌∷◌, Option, All, IfOk, OnErr, OnOk, length, map, take};
ghost use Rattle.std.specs.Io.KnownBytes.{Appends};
ghost use Rattle.tcc_txn.specs.declared.limits.TheConstants.{MAX_COUNT};
ghost use Rattle.tcc_bits.specs.Packed.{at_most};
ghost use Rattle.tcc_cert.specs.{declared.certificate.CycleClaim.CycleClaim, Texts.lines_text, Given.HasTaken};
ghost use Rattle.tcc_cert.specs.Begun.{MayTake, given_lines, with_rows};

use std::alloc::Global;
use std::io::Write;
use std::marker::Model;
use tcc_bits::PackedRow;
use tcc_cert::{CertWriteFault, CycleTable, CycleWriter, Numbers, Table};
use tcc_txn::{MAX_COUNT, NoMemory};

/// Rows of numbers, each of which is the cap where there is none or a greater one: contracts see the capped numbers.
#[derive(Drop)]
pub struct CappedRows {
    rows: Vec<PackedRow>,
    cap: u32,
}

impl Model for CappedRows {
    ghost use Rattle.std.specs.Prelude.{◌≤◌, ℕ, List, All, length, map};
    ghost use Rattle.tcc_txn.specs.declared.limits.TheConstants.{MAX_COUNT};
    ghost use Rattle.tcc_bits.specs.Packed.{at_most};

    ghost Value = { List (List ℕ) };

    ghost view = { λ r. map (map (at_most r.cap)) r.rows.items };

    ghost invariant = { λ r. All (λ row. length row ≤ MAX_COUNT) r.rows.items };
}

/// Gives the writer a row of a table, capped, by way of this buffer.
fn give<W: Write>(
    writer: &mut CycleWriter<'_, W>,
    table: CycleTable,
    row: &PackedRow,
    cap: u32,
    buffer: &mut [u32],
) -> Result<(), CertWriteFault>
    requires { length row.now ≤ length buffer.old }
    ensures long { length buffer.new ≡ length buffer.old }
    ensures same_reference { writer.new.out.ghost_name ≡ writer.old.out.ghost_name }
    ensures whole { (before : Option (List ℕ)) (count : ℕ) (k : CycleClaim) → HasTaken W.contents before count k writer.old → MayTake table k
        → OnOk result (HasTaken W.contents before count (with_rows table k (map (at_most cap) row.now ∷ [])) writer.new) }
    ensures part { (before : Option (List ℕ)) (count : ℕ) (k : CycleClaim) → HasTaken W.contents before count k writer.old → MayTake table k
        → OnErr result ((n : ℕ) × Appends before (W.contents writer.new.out.now)
        (take n (lines_text (given_lines count (with_rows table k (map (at_most cap) row.now ∷ [])))))) }
{
    let numbers = &mut buffer[..row.len()];
    row.write_capped(cap, numbers);
    writer.row(table, numbers)
}

/// The numbers of a row, capped, as a list of their own.
fn numbers_of(alloc: Global, row: &PackedRow, cap: u32) -> Result<Numbers, NoMemory>
    ensures { IfOk result (λ numbers. numbers ≡ map (at_most cap) row.now) }
{
    let mut numbers = vec![in alloc; 0; row.len()]?;
    row.write_capped(cap, &mut numbers);
    Ok(Numbers::new(numbers))
}

impl CappedRows {
    /// These rows with this cap, each with a number for as many transactions as there may be at most.
    pub fn new(rows: Vec<PackedRow>, cap: u32) -> CappedRows
        requires { All (λ row. length row ≤ MAX_COUNT) rows.items }
        ensures { result ≡ map (map (at_most cap)) rows.items }
    {
        CappedRows { rows, cap }
    }

    /// No rows.
    pub fn empty(alloc: Global) -> CappedRows
        ensures { result ≡ [] }
    {
        CappedRows {
            rows: Vec::new(alloc),
            cap: 0,
        }
    }

    /// How many rows there are.
    pub(crate) fn len(&self) -> usize
        ensures { result ≡ length self.now }
    {
        self.rows.len()
    }

    /// The rows as a table of its own.
    pub(crate) fn table(&self, alloc: Global) -> Result<Table, NoMemory>
        ensures { IfOk result (λ table. table ≡ self.now) }
    {
        let mut rows = Vec::new(alloc);
        for row in &self.rows {
            rows.push(numbers_of(alloc, row, self.cap)?)?;
        }
        Ok(Table::new(rows))
    }

    /// Gives the writer all rows as those of a table.
    pub(crate) fn write<W: Write>(
        &self,
        writer: &mut CycleWriter<'_, W>,
        table: CycleTable,
    ) -> Result<(), CertWriteFault>
        ensures same_reference { writer.new.out.ghost_name ≡ writer.old.out.ghost_name }
        ensures whole { (before : Option (List ℕ)) (count : ℕ) (k : CycleClaim) → HasTaken W.contents before count k writer.old → MayTake table k
            → OnOk result (HasTaken W.contents before count (with_rows table k self.now) writer.new) }
        ensures part { (before : Option (List ℕ)) (count : ℕ) (k : CycleClaim) → HasTaken W.contents before count k writer.old → MayTake table k
            → OnErr result ((n : ℕ) × Appends before (W.contents writer.new.out.now) (take n (lines_text (given_lines count (with_rows table k self.now))))) }
    {
        let mut buffer = [0; MAX_COUNT];
        for row in &self.rows {
            give(writer, table, row, self.cap, &mut buffer)?;
        }
        Ok(())
    }
}
