//! Answers as text.
ghost use Rattle.std.specs.Prelude.{◌≡◌, ◌++◌, ℕ, OnOk, IfOk, OnErr, Err, take, flat_map};
ghost use Rattle.std.specs.Io.KnownBytes.{Appends};
ghost use Rattle.tcc_graph.specs.declared.step.Step.TheVariants as step;
ghost use Rattle.tcc_answer.specs.declared.fault.WriteFault.TheVariants as fault;
ghost use Rattle.tcc_answer.specs.Texts.{labels_text, order_text, pair_text, read_text, step_text, walk_text, link_text, shape_word, cycle_text, answer_text};

use crate::pieces::{joined, push};
use crate::{Anomaly, Answer, Commit, Shape, WriteFault};
use std::alloc::Global;
use std::io::Write;
use tcc_base::send;
use tcc_graph::{Labels, Link, Step};
use tcc_txn::{Name, NoMemory};

/// The labels, each after a space.
fn labels_text(alloc: Global, labels: &Labels, numbers: &[u32]) -> Result<Vec<u8>, NoMemory>
    ensures { IfOk result (λ text. text.items ≡ labels_text labels.now numbers.now) }
{
    let mut text = Vec::new(alloc);
    for number in numbers {
        push(&mut text, &[b" ", labels.at(*number).as_bytes()])?;
    }
    Ok(text)
}

fn commit_text(alloc: Global, commit: &Commit) -> Result<Vec<u8>, NoMemory>
    ensures { IfOk result (λ text. text.items ≡ order_text commit.now) }
{
    let transactions = commit.order().len().saturating_sub(1).to_string(alloc)?;
    let sessions = commit.sessions().to_string(alloc)?;
    let order = labels_text(alloc, commit.labels(), commit.order())?;
    joined(
        alloc,
        &[
            b"consistent: ",
            transactions.as_bytes(),
            b" transactions, ",
            sessions.as_bytes(),
            b" sessions\norder:",
            &order,
            b"\n",
        ],
    )
}

/// Adds the word and `U -> V`.
fn push_pair(
    text: &mut Vec<u8>,
    labels: &Labels,
    word: &[u8],
    from: u32,
    to: u32,
) -> Result<(), NoMemory>
    ensures { OnOk result (text.new.items ≡ text.old.items ++ (word.now ++ pair_text labels.now from to)) }
{
    let from = labels.at(from).as_bytes();
    let to = labels.at(to).as_bytes();
    push(text, &[word, from, b" -> ", to])
}

/// Adds the word and `U -> V by KEY`, and ends the line.
fn push_read(
    text: &mut Vec<u8>,
    labels: &Labels,
    word: &[u8],
    from: u32,
    to: u32,
    key: &Name,
) -> Result<(), NoMemory>
    ensures { OnOk result (text.new.items ≡ text.old.items ++ (word.now ++ read_text labels.now from to key.now)) }
{
    push_pair(text, labels, word, from, to)?;
    push(text, &[b" by ", key.bytes(), b"\n"])
}

/// Adds `session U -> V`.
fn push_session(text: &mut Vec<u8>, labels: &Labels, from: u32, to: u32) -> Result<(), NoMemory>
    ensures { OnOk result (text.new.items ≡ text.old.items ++ step_text labels.now (step.Session from to)) }
{
    push_pair(text, labels, b"session ", from, to)?;
    push(text, &[b"\n"])
}

fn push_step(text: &mut Vec<u8>, labels: &Labels, step: &Step) -> Result<(), NoMemory>
    ensures { OnOk result (text.new.items ≡ text.old.items ++ step_text labels.now step.now) }
{
    match step {
        Step::Session { from, to } => push_session(text, labels, *from, *to),
        Step::Reads { from, to, key } => push_read(text, labels, b"reads ", *from, *to, key),
    }
}

/// Adds the steps, each after two spaces.
fn push_walk(text: &mut Vec<u8>, labels: &Labels, walk: &[Step]) -> Result<(), NoMemory>
    ensures { OnOk result (text.new.items ≡ text.old.items ++ walk_text labels.now walk.now) }
{
    for step in walk {
        push(text, &[b"  "])?;
        push_step(text, labels, step)?;
    }
    Ok(())
}

/// Adds the line of a step; or `derived B -> A by KEY, read by C`, the walk from B to C, and `against A -> C by KEY`.
fn push_link(text: &mut Vec<u8>, labels: &Labels, link: &Link) -> Result<(), NoMemory>
    ensures { OnOk result (text.new.items ≡ text.old.items ++ link_text labels.now link.now) }
{
    let (from, to) = (link.from(), link.to());
    match link {
        Link::Session { .. } => push_session(text, labels, from, to),
        Link::Reads { key, .. } => push_read(text, labels, b"reads ", from, to, key),
        Link::Derived {
            key,
            reader,
            walk,
            ..
        } => {
            push_pair(text, labels, b"derived ", from, to)?;
            let by = labels.at(*reader).as_bytes();
            push(text, &[b" by ", key.bytes(), b", read by ", by, b"\n"])?;
            push_walk(text, labels, walk.as_slice())?;
            push_read(text, labels, b"  against ", to, *reader, key)
        }
    }
}

/// Adds the lines of the links.
pub fn push_links(text: &mut Vec<u8>, labels: &Labels, links: &[Link]) -> Result<(), NoMemory>
    ensures { OnOk result (text.new.items ≡ text.old.items ++ flat_map (link_text labels.now) links.now) }
{
    for link in links {
        push_link(text, labels, link)?;
    }
    Ok(())
}

/// The word for a shape.
pub fn shape_word(shape: Shape) -> &'static str
    ensures { result.now ≡ shape_word shape }
{
    match shape {
        Shape::CyclicCausality => "cyclic-causality",
        Shape::StaleInitialRead => "stale-initial-read",
        Shape::OverwrittenRead => "overwritten-read",
        Shape::ConflictCycle => "conflict-cycle",
    }
}

/// The text of a cycle.
fn cycle_text(alloc: Global, anomaly: &Anomaly) -> Result<Vec<u8>, NoMemory>
    ensures { IfOk result (λ text. text.items ≡ cycle_text anomaly.now) }
{
    let steps = anomaly.cost().to_string(alloc)?;
    let shape = shape_word(anomaly.shape()).as_bytes();
    let mut text = joined(
        alloc,
        &[b"anomaly: ", steps.as_bytes(), b" steps, ", shape, b"\n"],
    )?;
    push_links(&mut text, anomaly.labels(), anomaly.links())?;
    Ok(text)
}

fn text_of(alloc: Global, answer: &Answer) -> Result<Vec<u8>, NoMemory>
    ensures { IfOk result (λ text. text.items ≡ answer_text answer.now) }
{
    match answer {
        Answer::Commit(commit) => commit_text(alloc, commit),
        Answer::Anomaly(anomaly) => cycle_text(alloc, anomaly),
    }
}

/// Writes the answer as text. All memory for it is had before a byte is written. An interrupted write and one that takes
/// no bytes are failures too; then a part of the text, from its front, was written.
///
/// ```rust
/// let mut text = Vec::new(alloc);
/// write_text(alloc, answer, &mut text)?;
/// Ok(text)
/// ```
pub fn write_text<W: Write>(alloc: Global, answer: &Answer, out: &mut W) -> Result<(), WriteFault>
    ensures whole { OnOk result (Appends (W.contents out.old) (W.contents out.new) (answer_text answer.now)) }
    ensures part { OnErr result ((n : ℕ) × Appends (W.contents out.old) (W.contents out.new) (take n (answer_text answer.now))) }
    ensures nothing { result ≡ Err fault.NoMemory → out.new ≡ out.old }
{
    let text = text_of(alloc, answer)?;
    send(out, &text)?;
    Ok(())
}
