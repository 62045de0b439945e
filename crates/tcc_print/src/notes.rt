//! Notes: what standard error says to a person beside the answers, which is what to mend. Each is made as a whole before a byte
//! of it is written; where it can't be made or written it is left out, and nothing else changes.
ghost use Rattle.std.specs.Prelude.{◌≡◌, ◌≢◌, ◌++◌, ℕ, List, IfOk, OnOk, true, length, map, option_map, take};
ghost use Rattle.std.specs.Io.KnownBytes.{Appends};
ghost use Rattle.tcc_print.specs.Notes.{AddsAll, AddsNotes, AddsEach, IsNoted, last_note, no_slice_note, order_note, read_note, read_notes, too_few_text};
ghost use Rattle.tcc_print.specs.RowNotes.{field_shown, line_shown, record_shown, row_note, session_among, session_shown, shown_text};
ghost use Rattle.tcc_rows.specs.declared.fault.RowFaultKind.TheVariants as row_kind;

mod mending;
mod quoted;
mod writers;

use crate::texts::push_told;
use mending::{Shown, push_expected, shown_of};
use quoted::{push_quoted, shown_and_more};
use std::alloc::Global;
use std::io::Write;
use tcc_answer::Answer;
use tcc_answer::pieces::{joined, push};
use tcc_base::send;
use tcc_reads::ReadFault;
use tcc_rows::{RowFault, RowFaultKind};
use tcc_txn::{Bounds, Limits, NoMemory, SnapshotWithin};
use writers::push_writer;

/// How many read faults have a note.
const MOST_NOTED: usize = 5;

/// Writes the note that was made. Returns whether it was written whole: else it couldn't be made, or standard error failed.
fn send_note<N: Write>(made: Result<Vec<u8>, NoMemory>, notes: &mut N) -> bool
    ensures noted { (text : List ℕ) → IfOk made (λ bytes. bytes.items ≡ text) → IsNoted (N.contents notes.old) (N.contents notes.new) text }
    ensures whole { (text : List ℕ) → IfOk made (λ bytes. bytes.items ≡ text) → result ≡ true → Appends (N.contents notes.old) (N.contents notes.new) text }
{
    match made {
        Ok(text) => send(notes, &text).is_ok(),
        Err(NoMemory) => false,
    }
}

/// The note of an order with fewer transactions than are required.
fn too_few(alloc: Global, required: u32, transactions: usize) -> Result<Vec<u8>, NoMemory>
    ensures { IfOk result (λ text. text.items ≡ too_few_text required transactions) }
{
    let text = format!(in alloc; "--require {required}: only {transactions} transactions\n")?;
    Ok(text.into_bytes())
}

/// Notes of an order, which `init` begins, that it has fewer transactions than are required, where it has. Returns whether
/// what there is to note was written whole.
pub fn note_order<N: Write>(alloc: Global, order: &[u32], required: u32, notes: &mut N) -> bool
    ensures noted { IsNoted (N.contents notes.old) (N.contents notes.new) (order_note required (length order.now)) }
    ensures whole { result ≡ true → Appends (N.contents notes.old) (N.contents notes.new) (order_note required (length order.now)) }
{
    let transactions = order.len().saturating_sub(1);
    if transactions < required as usize {
        send_note(too_few(alloc, required, transactions), notes)
    } else {
        true
    }
}

/// Notes of the last answer of a run that it is an order with fewer transactions than are required, where it is one. Returns
/// whether what there is to note was written whole.
pub fn note_last<N: Write>(
    alloc: Global,
    last: &Option<Answer>,
    required: u32,
    notes: &mut N,
) -> bool
    ensures noted { IsNoted (N.contents notes.old) (N.contents notes.new) (last_note required last.now) }
    ensures whole { result ≡ true → Appends (N.contents notes.old) (N.contents notes.new) (last_note required last.now) }
{
    match last {
        Some(Answer::Commit(commit)) => note_order(alloc, commit.order(), required, notes),
        Some(Answer::Anomaly(_)) | None => true,
    }
}

/// The session of a record, where it names one.
fn session_of<'a>(fields: &[&'a [u8]]) -> Option<&'a [u8]>
    ensures { option_map (λ session. session.now) result ≡ session_among (map (λ field. field.now) fields.now) }
{
    match fields {
        [session, _] | [session, _, _, _] => Some(*session),
        _ => None,
    }
}

/// The record with these fields, as a line; of each field what is shown of it, and a byte more.
fn line_of(alloc: Global, first: &[u8], others: &[&[u8]]) -> Result<Vec<u8>, NoMemory>
    ensures { IfOk result (λ line. line.items ≡ line_shown first.now (map (λ field. field.now) others.now)) }
{
    let mut line = joined(alloc, &[shown_and_more(first)])?;
    for field in others {
        push(&mut line, &[b",", shown_and_more(field)])?;
    }
    Ok(line)
}

/// Adds the fields of a record as they are in it, if they are known; of a long one what is shown.
fn push_record(alloc: Global, text: &mut Vec<u8>, fields: &[&[u8]]) -> Result<(), NoMemory>
    ensures { OnOk result (text.new.items ≡ text.old.items ++ record_shown (map (λ field. field.now) fields.now)) }
{
    let Some((first, others)) = fields.split_first() else {
        return Ok(());
    };
    push_quoted(text, &line_of(alloc, first, others)?)?;
    push(text, &[b": "])
}

/// Adds the session of a field's record, where the field isn't the first.
fn push_session(text: &mut Vec<u8>, place: usize, fields: &[&[u8]]) -> Result<(), NoMemory>
    ensures { OnOk result (text.new.items ≡ text.old.items ++ session_shown place (map (λ field. field.now) fields.now)) }
{
    match session_of(fields) {
        Some(session) if place > 0 => {
            push(text, &[b" of session "])?;
            push_quoted(text, session)
        }
        _ => Ok(()),
    }
}

/// Adds the field of a record at this index, if it is known, and the session of the record where that is another field.
fn push_field(text: &mut Vec<u8>, place: usize, fields: &[&[u8]]) -> Result<(), NoMemory>
    ensures { OnOk result (text.new.items ≡ text.old.items ++ field_shown place (map (λ field. field.now) fields.now)) }
{
    let Some(field) = fields.get(place) else {
        return Ok(());
    };
    push_quoted(text, field)?;
    push_session(text, place, fields)?;
    push(text, &[b": "])
}

/// Adds what is shown of a record with a fault of this kind.
fn push_shown(
    alloc: Global,
    text: &mut Vec<u8>,
    shown: Shown,
    fields: &[&[u8]],
) -> Result<(), NoMemory>
    ensures { OnOk result (text.new.items ≡ text.old.items ++ shown_text shown (map (λ field. field.now) fields.now)) }
{
    match shown {
        Shown::Field(place) => push_field(text, place, fields),
        Shown::Record => push_record(alloc, text, fields),
        Shown::Nothing => Ok(()),
    }
}

/// The note of a row fault in an input of these limits: what its record has, of which these are the fields, if they are known,
/// and what is expected there.
fn row(
    alloc: Global,
    limits: Limits,
    fault: &RowFault,
    fields: &[&[u8]],
) -> Result<Vec<u8>, NoMemory>
    ensures { IfOk result (λ text. text.items ≡ row_note limits fault.now (map (λ field. field.now) fields.now)) }
{
    let row = fault.row.to_string(alloc)?;
    let mut text = joined(alloc, &[b"row ", row.as_bytes(), b": "])?;
    push_shown(
        alloc,
        &mut text,
        shown_of(&fault.kind, fields.len()),
        fields,
    )?;
    push_expected(alloc, &mut text, limits, &fault.kind, fields.len())?;
    push(&mut text, &[b"\n"])?;
    Ok(text)
}

/// Notes what a record with a fault has and what is expected there, in an input of these limits. These are the record's fields,
/// if they are known. Of refused memory nothing is noted. Returns whether what there is to note was written whole.
pub fn note_row<N: Write>(
    alloc: Global,
    limits: Limits,
    fault: &RowFault,
    fields: &[&[u8]],
    notes: &mut N,
) -> bool
    ensures noted { fault.now.kind ≢ row_kind.NoMemory
        → IsNoted (N.contents notes.old) (N.contents notes.new) (row_note limits fault.now (map (λ field. field.now) fields.now)) }
    ensures whole { result ≡ true → fault.now.kind ≢ row_kind.NoMemory
        → Appends (N.contents notes.old) (N.contents notes.new) (row_note limits fault.now (map (λ field. field.now) fields.now)) }
    ensures refused { fault.now.kind ≡ row_kind.NoMemory → N.contents notes.new ≡ N.contents notes.old }
{
    if matches!(fault.kind, RowFaultKind::NoMemory) {
        true
    } else {
        send_note(row(alloc, limits, fault, fields), notes)
    }
}

/// The note of a read fault of the snapshot.
fn read<B: Bounds>(
    alloc: Global,
    snapshot: &SnapshotWithin<B>,
    fault: &ReadFault,
) -> Result<Vec<u8>, NoMemory>
    ensures { IfOk result (λ text. text.items ≡ read_note snapshot.now fault.now) }
{
    let mut text = Vec::new(alloc);
    push_told(alloc, &mut text, fault)?;
    push(&mut text, &[b": "])?;
    push_writer(alloc, &mut text, snapshot, fault)?;
    push(&mut text, &[b"\n"])?;
    Ok(text)
}

/// The read faults that have a note: the first ones.
fn first_noted(faults: &[ReadFault]) -> &[ReadFault]
    ensures { result.now ≡ take 5 faults.now }
{
    if faults.len() > MOST_NOTED {
        &faults[..MOST_NOTED]
    } else {
        faults
    }
}

/// Notes of the first of the read faults of the snapshot which write each of them is about. Returns whether all of these notes
/// were written whole.
pub fn note_reads<B: Bounds, N: Write>(
    alloc: Global,
    snapshot: &SnapshotWithin<B>,
    faults: &[ReadFault],
    notes: &mut N,
) -> bool
    ensures noted { AddsNotes (N.contents notes.old) (N.contents notes.new) }
    ensures each { AddsEach (N.contents notes.old) (N.contents notes.new) (read_notes snapshot.now faults.now) }
    ensures whole { result ≡ true → AddsAll (N.contents notes.old) (N.contents notes.new) (read_notes snapshot.now faults.now) }
{
    let first = first_noted(faults);
    let mut whole = true;
    for fault in first {
        let written = send_note(read(alloc, snapshot, fault), notes);
        whole = whole && written;
    }
    whole
}

/// Notes that no slice is within the small limits. Returns whether that was written whole.
pub fn note_no_slice<N: Write>(alloc: Global, notes: &mut N) -> bool
    ensures noted { IsNoted (N.contents notes.old) (N.contents notes.new) no_slice_note }
    ensures whole { result ≡ true → Appends (N.contents notes.old) (N.contents notes.new) no_slice_note }
{
    let note: &[u8] =
        b"--slice: no history within the limits of one without --large has this anomaly\n";
    send_note(joined(alloc, &[note]), notes)
}
