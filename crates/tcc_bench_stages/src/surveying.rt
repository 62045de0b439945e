//! The contradicted reads of a history within the large limits.
use std::alloc::Global;
use std::io::Read;
use tcc_graph::{LargeGraph, Level};
use tcc_reads::resolve_large;
use tcc_rows::large_snapshot_of;
use tcc_survey::{Contradicted, Surveyed, survey};

/// How many reads are contradicted, 0 where pairs form a circle.
pub fn contradicted(alloc: Global, graph: &LargeGraph, level: Level) -> Option<u32> {
    match survey(alloc, graph, level).ok()? {
        Surveyed::Listed(list) => u32::try_from(list.len()).ok(),
        Surveyed::Circular(_) => Some(0),
    }
}

/// A line for a contradicted read: the numbers of the reader, of the source and of what contradicts it, and between them the
/// key.
fn push_line(
    alloc: Global,
    text: &mut String,
    graph: &LargeGraph,
    one: &Contradicted,
) -> Option<()> {
    let key = graph.keys().get(one.reading.key_index as usize)?;
    let reader = one.reading.reader;
    let source = one.reading.source;
    let writer = one.writer;
    text.push_str(&format!(in alloc; "{reader} {key} {source} {writer}\n").ok()?)
        .ok()
}

/// The contradicted reads, a line for each, and how many they are; or the word `circular`.
pub fn survey_answer<R: Read + Drop>(alloc: Global, reader: R, level: Level) -> Option<String> {
    let snapshot = large_snapshot_of(alloc, reader).ok()?;
    let resolved = resolve_large(alloc, &snapshot).ok()?;
    let graph = LargeGraph::build(alloc, resolved).ok()?;
    let Surveyed::Listed(list) = survey(alloc, &graph, level).ok()? else {
        return format!(in alloc; "circular").ok();
    };
    let mut text = String::new(alloc);
    for one in &list {
        push_line(alloc, &mut text, &graph, one)?;
    }
    let count = list.len();
    text.push_str(&format!(in alloc; "{count}").ok()?).ok()?;
    Some(text)
}
