//! The parts of a certificate's text, each with what comes after it.
ghost use Rattle.std.specs.Prelude.{◌≡◌, ◌<◌, ◌+◌, ℕ, IfOk, OnOk};
ghost use Rattle.tcc_cert.specs.{private.Inputs.AsBefore, InputBytes.IsAt, Reading.Position, Ahead.IsBehind};
ghost use Rattle.tcc_cert.specs.Parts.{Parts, end_parts, link_rows, order_parts, order_rest, parts_behind, whole_parts};
ghost use Rattle.tcc_cert.specs.Shapes.{behind_table, height, links_from, rows_from, table_parts, table_rows};
ghost use Rattle.tcc_cert.specs.private.Stages.{IsBegun, IsClaimStep, IsRowStep, IsStepAt, TakesStep};

use super::forms::{OrderSizes, Sizes};
use super::input::Input;
use super::links::link;
use super::rows::row;
use super::shape::TableShape;
use super::words::next_line;
use super::{header, mark};
use crate::ranges::{TextFormat, ranges_of};
use crate::{CertFault, CycleHead, OrderHead, Part, Version};
use std::alloc::Global;
use std::io::Read;
use tcc_graph::Level;

/// The links of a cycle that are left: how many, and over how many transactions.
#[derive(Clone, Copy)]
pub(crate) struct LinksLeft {
    version: Version,
    transactions: u32,
    many: u32,
}

/// The rows of a table that are left: how many, and of which table.
#[derive(Clone, Copy)]
pub(crate) struct RowsLeft {
    version: Version,
    table: TableShape,
    many: u32,
}

/// What comes after the parts that were given.
#[derive(Clone, Copy)]
pub(crate) enum ExpectedPart {
    /// The whole text.
    Whole,
    /// Links of a cycle, and what comes after them.
    Links(LinksLeft),
    /// The line before the rows of a table, these, and what comes after them.
    Mark { version: Version, table: TableShape },
    /// Rows of a table, and what comes after them.
    Rows(RowsLeft),
}

/// How far the reading has come.
#[derive(Clone, Copy)]
pub(crate) enum ReadingStage {
    /// Something is still to be read.
    Going(ExpectedPart),
    /// There are no more parts.
    Ended,
    /// A fault was met.
    Stopped(CertFault),
}

/// A part, and what comes after it, or the first fault.
pub(crate) type NextPart = Result<(Part, ReadingStage), CertFault>;

/// The last line, and nothing after it.
fn end<R: Read>(alloc: Global, input: &mut Input<R>, version: Version) -> NextPart
    ensures works { OnOk result (AsBefore input.old input.new) }
    ensures step { (at : Position) → IsAt R.remaining input.old at → TakesStep R.remaining at.line (end_parts version at) result input.new }
    ensures row { (left : ℕ) → IfOk result (λ given. IsRowStep left given) }
{
    mark(alloc, input, TextFormat::Small(version), b"end")?;
    input.end()?;
    Ok((Part::End, ReadingStage::Ended))
}

/// The next row of a table that has one.
fn table_row<R: Read>(alloc: Global, input: &mut Input<R>, left: RowsLeft) -> NextPart
    requires { 0 < left.many }
    ensures works { OnOk result (AsBefore input.old input.new) }
    ensures step { (at : Position) (from : ℕ) → from + left.many ≡ height left.table → IsAt R.remaining input.old at
        → TakesStep R.remaining at.line (table_rows left.version left.table from left.many at) result input.new }
    ensures row { IfOk result (λ given. IsRowStep (rows_from left.table left.many) given) }
{
    let RowsLeft {
        version,
        table,
        many,
    } = left;
    let columns = table.columns(version, many) as usize;
    let numbers = row(alloc, input, version, columns, table.most(version))?;
    let coming = ExpectedPart::Rows(RowsLeft {
        many: many - 1,
        ..left
    });
    Ok((table.part(numbers), ReadingStage::Going(coming)))
}

/// What comes after the last row of a table: for `near` the line `far`, and its first row.
fn behind_table<R: Read>(alloc: Global, input: &mut Input<R>, last: RowsLeft) -> NextPart
    ensures works { OnOk result (AsBefore input.old input.new) }
    ensures step { (at : Position) → IsAt R.remaining input.old at → TakesStep R.remaining at.line (behind_table last.version last.table at) result input.new }
    ensures row { IfOk result (λ given. IsRowStep (rows_from last.table 0) given) }
{
    let version = last.version;
    match last.table {
        TableShape::Clocks { .. } | TableShape::Far { .. } => end(alloc, input, version),
        TableShape::Near { transactions } => {
            mark(alloc, input, TextFormat::Small(version), b"far")?;
            if transactions == 0 {
                return end(alloc, input, version);
            }
            let left = RowsLeft {
                version,
                table: TableShape::Far { transactions },
                many: transactions,
            };
            table_row(alloc, input, left)
        }
    }
}

/// The next row of a table, or what comes after it where none is left.
fn rows<R: Read>(alloc: Global, input: &mut Input<R>, left: RowsLeft) -> NextPart
    ensures works { OnOk result (AsBefore input.old input.new) }
    ensures step { (at : Position) (from : ℕ) → from + left.many ≡ height left.table → IsAt R.remaining input.old at
        → TakesStep R.remaining at.line (table_rows left.version left.table from left.many at) result input.new }
    ensures row { IfOk result (λ given. IsRowStep (rows_from left.table left.many) given) }
{
    if left.many > 0 {
        table_row(alloc, input, left)
    } else {
        behind_table(alloc, input, left)
    }
}

/// The line before the rows of a table, and the first of these.
fn marked<R: Read>(
    alloc: Global,
    input: &mut Input<R>,
    version: Version,
    table: TableShape,
) -> NextPart
    ensures works { OnOk result (AsBefore input.old input.new) }
    ensures step { (at : Position) → IsAt R.remaining input.old at → TakesStep R.remaining at.line (table_parts version table at) result input.new }
    ensures row { IfOk result (λ given. IsRowStep (rows_from table (height table)) given) }
{
    mark(alloc, input, TextFormat::Small(version), table.word())?;
    let left = RowsLeft {
        version,
        table,
        many: table.height(),
    };
    rows(alloc, input, left)
}

/// What comes after the order of a claim.
fn behind_order(version: Version, level: Level, transactions: u32, sessions: u32) -> ExpectedPart
    ensures behind { (at : Position) → IsBehind result at (order_rest version level transactions sessions at) }
    ensures begun { IsBegun (ReadingStage.Going result) }
{
    let table = TableShape::Clocks {
        transactions,
        sessions,
    };
    match level {
        Level::Causal => ExpectedPart::Mark { version, table },
        Level::Atomic => ExpectedPart::Rows(RowsLeft {
            version,
            table,
            many: 0,
        }),
    }
}

/// The claim of an order.
fn order<R: Read>(
    alloc: Global,
    input: &mut Input<R>,
    version: Version,
    level: Level,
    sizes: OrderSizes,
) -> NextPart
    ensures works { OnOk result (AsBefore input.old input.new) }
    ensures step { (at : Position) → IsAt R.remaining input.old at
        → TakesStep R.remaining at.line (order_parts version level sizes.transactions sizes.sessions at) result input.new }
    ensures claim { IfOk result IsClaimStep }
{
    let order = row(
        alloc,
        input,
        version,
        sizes.transactions as usize,
        ranges_of(version).number,
    )?;
    let coming = behind_order(version, level, sizes.transactions, sizes.sessions);
    let head = OrderHead {
        version,
        level,
        order,
        sessions: sizes.sessions,
    };
    Ok((Part::Order(head), ReadingStage::Going(coming)))
}

/// The next link of a cycle that has one.
fn next_link<R: Read>(alloc: Global, input: &mut Input<R>, left: LinksLeft) -> NextPart
    requires { 0 < left.many }
    ensures works { OnOk result (AsBefore input.old input.new) }
    ensures step { (at : Position) (from : ℕ) → IsAt R.remaining input.old at
        → TakesStep R.remaining at.line (link_rows left.version left.transactions from left.many at) result input.new }
    ensures row { IfOk result (λ given. IsRowStep (links_from left.transactions left.many) given) }
{
    let one = link(alloc, input, TextFormat::Small(left.version))?;
    let coming = ExpectedPart::Links(LinksLeft {
        many: left.many - 1,
        ..left
    });
    Ok((Part::Link(one), ReadingStage::Going(coming)))
}

/// The next link of a cycle, or what comes after the last.
fn links<R: Read>(alloc: Global, input: &mut Input<R>, left: LinksLeft) -> NextPart
    ensures works { OnOk result (AsBefore input.old input.new) }
    ensures step { (at : Position) (from : ℕ) → IsAt R.remaining input.old at
        → TakesStep R.remaining at.line (link_rows left.version left.transactions from left.many at) result input.new }
    ensures row { IfOk result (λ given. IsRowStep (links_from left.transactions left.many) given) }
{
    if left.many > 0 {
        next_link(alloc, input, left)
    } else {
        let transactions = left.transactions;
        let table = TableShape::Near { transactions };
        marked(alloc, input, left.version, table)
    }
}

/// What comes after the first line, up to the links of a cycle or the clocks of an order.
fn claim<R: Read>(alloc: Global, input: &mut Input<R>, version: Version, level: Level) -> NextPart
    ensures works { OnOk result (AsBefore input.old input.new) }
    ensures step { (at : Position) → IsAt R.remaining input.old at → TakesStep R.remaining at.line (parts_behind ((version, level), at)) result input.new }
    ensures claim { IfOk result IsClaimStep }
{
    match next_line::<Sizes<OrderSizes>, R>(alloc, input, TextFormat::Small(version))? {
        Sizes::Order(sizes) => order(alloc, input, version, level, sizes),
        Sizes::Cycle(sizes) => {
            let head = CycleHead {
                version,
                level,
                count: sizes.transactions,
                links: sizes.links,
                least: sizes.cost,
            };
            let left = LinksLeft {
                version,
                transactions: sizes.transactions,
                many: sizes.links,
            };
            Ok((
                Part::Cycle(head),
                ReadingStage::Going(ExpectedPart::Links(left)),
            ))
        }
    }
}

/// The text up to its claim.
fn whole<R: Read>(alloc: Global, input: &mut Input<R>) -> NextPart
    ensures works { OnOk result (AsBefore input.old input.new) }
    ensures step { (at : Position) → IsAt R.remaining input.old at → TakesStep R.remaining at.line (whole_parts at) result input.new }
    ensures claim { IfOk result IsClaimStep }
{
    let (version, level) = header(input)?;
    claim(alloc, input, version, level)
}

/// The next part, and what comes after it.
pub(crate) fn step<R: Read>(alloc: Global, input: &mut Input<R>, coming: ExpectedPart) -> NextPart
    ensures works { OnOk result (AsBefore input.old input.new) }
    ensures step { (at : Position) (ahead : Parts) → IsAt R.remaining input.old at → IsBehind coming at ahead
        → TakesStep R.remaining at.line ahead result input.new }
    ensures follows { IfOk result (λ given. IsStepAt coming given) }
{
    match coming {
        ExpectedPart::Whole => whole(alloc, input),
        ExpectedPart::Links(left) => links(alloc, input, left),
        ExpectedPart::Mark { version, table } => marked(alloc, input, version, table),
        ExpectedPart::Rows(left) => rows(alloc, input, left),
    }
}
