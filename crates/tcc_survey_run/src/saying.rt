//! What is said of a snapshot, and how it is written line by line.
ghost use Rattle.std.specs.Prelude.{◌≡◌, ◌<◌, ◌≤◌, ◌^◌, All, flat_map, map, string_bytes, IfErr, IfOk, OnErr, OnOk};
ghost use Rattle.std.specs.Io.KnownBytes.{Appends};
ghost use Rattle.tcc_reads.specs.Faults.{read_faults};
ghost use Rattle.tcc_reads.specs.History.{count, entry_at, initial};
ghost use Rattle.tcc_graph.specs.{Levels.judged, Numbers.label, declared.level.Level.Level};
ghost use Rattle.tcc_survey.specs.Contradictions.{AreContradicted};
ghost use Rattle.tcc_survey_run.specs.{Told.AreNames, Told.AreTold, private.Saying.SaysFound};
ghost use Rattle.tcc_survey_run.specs.Surveys.{BreaksOff, GoesOut, circle_line, fault_lines, name_line, read_count, read_line, survey_status, survey_text, total_line};

use crate::counting::{NameCount, Totals, names_of};
use crate::options::SurveyOptions;
use crate::outgoing::write_line;
use crate::told::{ToldRead, told_reads};
use crate::{lines, objects};
use std::alloc::Global;
use std::io::Write;
use tcc_graph::LargeGraph;
use tcc_print::Status;
use tcc_print::printing::{Made, Sent, print_memory, send_made, send_unresolved};
use tcc_reads::ReadFault;
use tcc_survey::Contradicted;
use tcc_txn::{Bounds, NoMemory, SnapshotWithin};

/// The line of a contradicted read.
fn read_line(alloc: Global, graph: &LargeGraph, json: bool, told: &ToldRead) -> Made
    requires reader { told.now.reader < count graph.now }
    requires writer { told.now.writer < count graph.now }
    ensures { IfOk result (λ text. text.items ≡ read_line json graph.now told.now) }
{
    let reader = graph.label(alloc, told.reader)?;
    let writer = graph.label(alloc, told.writer)?;
    if json {
        objects::read_object(alloc, reader.as_str(), writer.as_str(), told)
    } else {
        lines::read_line(alloc, reader.as_str(), writer.as_str(), told)
    }
}

/// The line of a usual name.
fn name_line(alloc: Global, json: bool, one: &NameCount) -> Made
    ensures { IfOk result (λ text. text.items ≡ name_line json one.now) }
{
    if json {
        objects::name_object(alloc, one)
    } else {
        lines::name_line(alloc, one)
    }
}

/// The last line.
fn total_line(alloc: Global, json: bool, totals: &Totals) -> Made
    ensures { IfOk result (λ text. text.items ≡ total_line json totals.now.contradicted totals.now.reads totals.now.faults) }
{
    if json {
        objects::total_object(alloc, totals)
    } else {
        lines::total_line(alloc, totals)
    }
}

/// The labels of transactions.
fn labels_of(alloc: Global, graph: &LargeGraph, numbers: &[u32]) -> Result<Vec<String>, NoMemory>
    requires { All (λ t. t < count graph.now) numbers.now }
    ensures { IfOk result (λ labels. map string_bytes labels.items ≡ map (label graph.now) numbers.now) }
{
    let mut labels = Vec::new(alloc);
    for number in numbers {
        labels.push(graph.label(alloc, *number)?)?;
    }
    Ok(labels)
}

/// The line of transactions in a circle.
fn circle_line(alloc: Global, graph: &LargeGraph, json: bool, circle: &[u32]) -> Made
    requires { All (λ t. t < count graph.now) circle.now }
    ensures { IfOk result (λ text. text.items ≡ circle_line json graph.now circle.now) }
{
    let labels = labels_of(alloc, graph, circle)?;
    if json {
        objects::circle_object(alloc, &labels)
    } else {
        lines::circle_line(alloc, &labels)
    }
}

/// How many external reads have a source. It is out of memory only where they are more than 64 bits count.
fn read_count(graph: &LargeGraph) -> Result<usize, NoMemory>
    ensures reads { IfOk result (λ reads. reads ≡ read_count graph.now) }
    ensures many { OnErr result (2 ^ 64 ≤ read_count graph.now) }
{
    let mut reads: usize = 0;
    for number in 0..graph.count() {
        let Some(more) = reads.checked_add(graph.reads_at(number).len()) else {
            return Err(NoMemory);
        };
        reads = more;
    }
    Ok(reads)
}

/// Writes the lines of contradicted reads.
fn write_reads<W: Write>(
    alloc: Global,
    graph: &LargeGraph,
    json: bool,
    told: &[ToldRead],
    out: &mut W,
) -> Sent
    requires readers { All (λ one. one.reader < count graph.now) told.now }
    requires writers { All (λ one. one.writer < count graph.now) told.now }
    ensures whole { OnOk result (Appends (W.contents out.old) (W.contents out.new) (flat_map (read_line json graph.now) told.now)) }
    ensures ended { IfErr result (BreaksOff json (W.contents out.old) (W.contents out.new) (flat_map (read_line json graph.now) told.now)) }
{
    for one in told {
        write_line(read_line(alloc, graph, json, one), json, out)?;
    }
    Ok(())
}

/// Writes the read faults, if there are some.
fn write_faults<W: Write>(alloc: Global, json: bool, faults: &[ReadFault], out: &mut W) -> Sent
    ensures whole { OnOk result (Appends (W.contents out.old) (W.contents out.new) (fault_lines json faults.now)) }
    ensures ended { IfErr result (BreaksOff json (W.contents out.old) (W.contents out.new) (fault_lines json faults.now)) }
{
    if faults.is_empty() {
        return Ok(());
    }
    send_unresolved(alloc, faults, json, out)
}

/// Writes the lines of the usual names.
fn write_names<W: Write>(alloc: Global, json: bool, names: &[NameCount], out: &mut W) -> Sent
    ensures whole { OnOk result (Appends (W.contents out.old) (W.contents out.new) (flat_map (name_line json) names.now)) }
    ensures ended { IfErr result (BreaksOff json (W.contents out.old) (W.contents out.new) (flat_map (name_line json) names.now)) }
{
    for one in names {
        write_line(name_line(alloc, json, one), json, out)?;
    }
    Ok(())
}

/// What the lines of a survey are made of.
#[derive(Drop)]
struct Listing {
    told: Vec<ToldRead>,
    names: Vec<NameCount>,
    /// How many external reads have a source.
    reads: usize,
}

/// Writes all lines of a survey.
fn write_listing<W: Write>(
    alloc: Global,
    graph: &LargeGraph,
    json: bool,
    listing: &Listing,
    faults: &[ReadFault],
    out: &mut W,
) -> Sent
    requires readers { All (λ one. one.reader < count graph.now) listing.now.told.items }
    requires writers { All (λ one. one.writer < count graph.now) listing.now.told.items }
    requires reads { listing.now.reads ≡ read_count graph.now }
    ensures whole { OnOk result (Appends (W.contents out.old) (W.contents out.new)
        (survey_text json graph.now listing.now.told.items faults.now listing.now.names.items)) }
    ensures ended { IfErr result (BreaksOff json (W.contents out.old) (W.contents out.new)
        (survey_text json graph.now listing.now.told.items faults.now listing.now.names.items)) }
{
    write_reads(alloc, graph, json, &listing.told, out)?;
    write_faults(alloc, json, faults, out)?;
    write_names(alloc, json, &listing.names, out)?;
    let totals = Totals {
        contradicted: listing.told.len(),
        reads: listing.reads,
        faults: faults.len(),
    };
    send_made(total_line(alloc, json, &totals), json, out)
}

/// How a run ends that told these contradicted reads and these faults.
fn survey_status(told: &[ToldRead], faults: &[ReadFault]) -> Status
    ensures { result ≡ survey_status told.now faults.now }
{
    if !told.is_empty() {
        Status::Anomaly
    } else if !faults.is_empty() {
        Status::ReadFaults
    } else {
        Status::Success
    }
}

/// What the lines are made of, by what is contradicted.
fn listing_of<B: Bounds>(
    alloc: Global,
    snapshot: &SnapshotWithin<B>,
    graph: &LargeGraph,
    found: &[Contradicted],
) -> Result<Listing, NoMemory>
    requires initial { entry_at graph.now 0 ≡ initial }
    requires found { (level : Level) × AreContradicted (judged graph.now level) found.now }
    ensures told { IfOk result (λ l. AreTold snapshot.now graph.now found.now l.told.items) }
    ensures names { IfOk result (λ l. AreNames l.told.items l.names.items) }
    ensures reads { IfOk result (λ l. l.reads ≡ read_count graph.now) }
    ensures readers { IfOk result (λ l. All (λ one. one.reader < count graph.now) l.told.items) }
    ensures writers { IfOk result (λ l. All (λ one. one.writer < count graph.now) l.told.items) }
{
    let told = told_reads(alloc, snapshot, graph, found)?;
    let names = names_of(alloc, &told)?;
    let reads = read_count(graph)?;
    Ok(Listing { told, names, reads })
}

/// Says what is contradicted, and gives the number that the run ends with.
pub(crate) fn say_found<B: Bounds, W: Write>(
    alloc: Global,
    snapshot: &SnapshotWithin<B>,
    graph: &LargeGraph,
    options: &SurveyOptions,
    found: &[Contradicted],
    faults: &[ReadFault],
    out: &mut W,
) -> u8
    requires initial { entry_at graph.now 0 ≡ initial }
    requires found { AreContradicted (judged graph.now options.now.level) found.now }
    requires faults { faults.now ≡ read_faults snapshot.now }
    ensures { SaysFound options.now.json snapshot.now graph.now found.now (W.contents out.old) (W.contents out.new) result }
{
    let listing = match listing_of(alloc, snapshot, graph, found) {
        Ok(listing) => listing,
        Err(NoMemory) => return print_memory(out, options.json),
    };
    match write_listing(alloc, graph, options.json, &listing, faults, out) {
        Ok(()) => survey_status(&listing.told, faults).code(),
        Err(code) => code,
    }
}

/// Says which transactions are in a circle, and gives the number that the run ends with.
pub(crate) fn say_circle<W: Write>(
    alloc: Global,
    graph: &LargeGraph,
    json: bool,
    circle: &[u32],
    out: &mut W,
) -> u8
    requires { All (λ t. t < count graph.now) circle.now }
    ensures { GoesOut json (W.contents out.old) (W.contents out.new) (circle_line json graph.now circle.now) Status.Anomaly result }
{
    match send_made(circle_line(alloc, graph, json, circle), json, out) {
        Ok(()) => Status::Anomaly.code(),
        Err(code) => code,
    }
}
