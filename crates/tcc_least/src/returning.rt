//! Derived links of two steps with a pair back. Each is one of three kinds. The overwriting transaction is between source and
//! reader in session order. Or the reader reads from it. Or it reads from the source, and the reader follows it in its
//! session. With R reads and W writes, at most D of them in each transaction, it takes (R + W) * D look-ups by binary search.
ghost use Rattle.std.specs.Prelude.{◌≡◌, ◌≢◌, ◌≤◌, ◌<◌, ◌⊎◌, ◌↔◌, ◌+◌, ℕ, List, length, Contains, Some, None, IsTrue, MatchOption, nat_lt, nat_le, true, false, zip};
ghost use Rattle.std.specs.List.Sorted.{IsNonDecreasing, IsPartitionPoint};
ghost use Rattle.std.specs.Ordering.{nat_cmp};
ghost use Rattle.tcc_reads.specs.History.{count};
ghost use Rattle.tcc_graph.specs.Relations.{IsSessionPair, IsReadsPair, IsCausalPair, AreInOrder};
ghost use Rattle.tcc_graph.specs.Keys.{keys, key_at, IsWriter};
ghost use Rattle.tcc_graph.specs.Links.{MayContradict};
ghost use Rattle.tcc_least.specs.Shapes.{IsRead, IsReturn, IsFirstPlace};
ghost use Rattle.tcc_least.specs.private.Places.{IsFoundUpTo, IsSound, IsAsGood};
ghost use Rattle.tcc_least.specs.private.Returns.{IsFirstWithin, IsCut, IsSession, IsWriterBetween, IsBetween, IsThrough, IsStale};

use tcc_graph::LargeGraph;

/// The lesser of the least place so far and another one.
fn earlier(best: Option<(u32, u32)>, from: u32, to: u32) -> Option<(u32, u32)>
    ensures either { (result ≡ best) ⊎ (result ≡ Some (from, to)) }
    ensures kept { (k : ℕ) (l : ℕ) → IsFoundUpTo best k l → IsFoundUpTo result k l }
    ensures here { IsFoundUpTo result from to }
{
    let Some((first, second)) = best else {
        return Some((from, to));
    };
    if from < first {
        return Some((from, to));
    }
    if from == first && to < second {
        return Some((from, to));
    }
    best
}

/// How many of ascending numbers are less than `low`.
fn count_below(numbers: &[u32], low: u32) -> usize
    requires { IsNonDecreasing numbers.now }
    ensures bound { result ≤ length numbers.now }
    ensures point { IsPartitionPoint (λ n. nat_lt n low ≡ true) (λ n. nat_lt n low ≡ false) numbers.now result }
{
    numbers.partition_point(|number| *number < low)
}

/// The first of ascending numbers from `low` to below `high`.
fn first_within(numbers: &[u32], low: u32, high: u32) -> Option<u32>
    requires { IsNonDecreasing numbers.now }
    ensures { IsFirstWithin numbers.now low high result }
{
    let index = count_below(numbers, low);
    if index >= numbers.len() {
        return None;
    }
    let number = numbers[index];
    if number < high { Some(number) } else { None }
}

/// The range of the session of a number: the last one known, or the one that begins at the number.
fn session_at(graph: &LargeGraph, session: (u32, u32), number: u32) -> (u32, u32)
    requires number { (0 < number) × (number < count graph.now) × (session.0 ≤ number) × (number ≤ session.1) }
    requires cut { IsCut graph.now session.1 }
    requires session { number < session.1 → IsSession graph.now session.0 session.1 }
    ensures number { (result.0 ≤ number) × (number < result.1) }
    ensures cut { IsCut graph.now result.1 }
    ensures session { IsSession graph.now result.0 result.1 }
{
    if number < session.1 {
        return session;
    }
    graph.numbered();
    let (_next, end) = graph.later(number);
    (number, end)
}

/// The first transaction that overwrites what is read and is between source and reader in session order.
fn first_between(
    graph: &LargeGraph,
    session: (u32, u32),
    reader: u32,
    read: (u32, u32),
) -> Option<u32>
    requires reader { (session.0 ≤ reader) × (reader < session.1) × (reader < count graph.now) }
    requires session { IsSession graph.now session.0 session.1 }
    requires within { (read.0 < length (keys graph.now)) × (read.1 < count graph.now) }
    requires is { IsReadsPair graph.now read.1 reader (key_at graph.now read.0) }
    ensures { MatchOption result ((b : ℕ) → IsWriterBetween graph.now read.1 (key_at graph.now read.0) reader b → ⊥)
        (λ b. IsWriterBetween graph.now read.1 (key_at graph.now read.0) reader b
        × ((d : ℕ) → IsWriterBetween graph.now read.1 (key_at graph.now read.0) reader d → b ≤ d)) }
{
    let (key_index, source) = read;
    let writers = graph.writers_at(key_index);
    if source == 0 {
        return first_within(writers, session.0, reader);
    }
    if source < session.0 {
        return None;
    }
    if source >= reader {
        return None;
    }
    first_within(writers, source + 1, reader)
}

/// The least place so far, and the first of transactions that overwrite what is read and are between source and reader.
fn between_read(
    graph: &LargeGraph,
    session: (u32, u32),
    reader: u32,
    read: (u32, u32),
    best: Option<(u32, u32)>,
) -> Option<(u32, u32)>
    requires reader { (session.0 ≤ reader) × (reader < session.1) × (reader < count graph.now) }
    requires session { IsSession graph.now session.0 session.1 }
    requires within { (read.0 < length (keys graph.now)) × (read.1 < count graph.now) }
    requires is { IsReadsPair graph.now read.1 reader (key_at graph.now read.0) }
    ensures more { IsAsGood graph.now best result }
    ensures found { (b : ℕ) → IsWriterBetween graph.now read.1 (key_at graph.now read.0) reader b → IsFoundUpTo result b read.1 }
{
    match first_between(graph, session, reader, read) {
        Some(writer) => earlier(best, writer, read.1),
        None => best,
    }
}

/// The least place so far, and the places of transactions between the source of a read of the reader and the reader.
fn between(
    graph: &LargeGraph,
    session: (u32, u32),
    reader: u32,
    best: Option<(u32, u32)>,
) -> Option<(u32, u32)>
    requires reader { (session.0 ≤ reader) × (reader < session.1) × (reader < count graph.now) }
    requires session { IsSession graph.now session.0 session.1 }
    ensures more { IsAsGood graph.now best result }
    ensures found { (b : ℕ) (a : ℕ) → IsBetween graph.now reader b a → IsFoundUpTo result b a }
{
    let mut least = best;
    for read in graph.reads_at(reader) {
        least = between_read(graph, session, reader, *read, least);
    }
    least
}

/// Whether a transaction is one of these, which ascend.
fn is_among(numbers: &[u32], number: u32) -> bool
    requires { IsNonDecreasing numbers.now }
    ensures { IsTrue result ↔ Contains numbers.now number }
{
    numbers.binary_search(&number).is_ok()
}

/// Whether a source of a reader overwrites what it reads from another source, and a pair leads there from that one.
fn is_through(graph: &LargeGraph, read: (u32, u32), writer: u32) -> bool
    requires within { (read.0 < length (keys graph.now)) × (read.1 < count graph.now) × (writer < count graph.now) }
    ensures { (c : ℕ) → IsReadsPair graph.now read.1 c (key_at graph.now read.0)
        → IsTrue result ↔ (MayContradict graph.now writer read.1 (key_at graph.now read.0) c × IsCausalPair graph.now read.1 writer) }
{
    if writer == read.1 {
        return false;
    }
    if !is_among(graph.writers_at(read.0), writer) {
        return false;
    }
    graph.causal(read.1, writer)
}

/// The least place so far, and those at which a source of the reader overwrites this read.
fn through_read(
    graph: &LargeGraph,
    reader: u32,
    read: (u32, u32),
    best: Option<(u32, u32)>,
) -> Option<(u32, u32)>
    requires within { (read.0 < length (keys graph.now)) × (read.1 < count graph.now) × (reader < count graph.now) }
    requires is { IsReadsPair graph.now read.1 reader (key_at graph.now read.0) }
    ensures more { IsAsGood graph.now best result }
    ensures found { (b : ℕ) → MayContradict graph.now b read.1 (key_at graph.now read.0) reader → IsRead graph.now b reader
        → IsCausalPair graph.now read.1 b → IsFoundUpTo result b read.1 }
{
    let mut least = best;
    for other in graph.reads_at(reader) {
        if is_through(graph, read, other.1) {
            least = earlier(least, other.1, read.1);
        }
    }
    least
}

/// The least place so far, and those at which a source of the reader overwrites one of its reads from another source.
fn through(graph: &LargeGraph, reader: u32, best: Option<(u32, u32)>) -> Option<(u32, u32)>
    requires { reader < count graph.now }
    ensures more { IsAsGood graph.now best result }
    ensures found { (b : ℕ) (a : ℕ) → IsThrough graph.now reader b a → IsFoundUpTo result b a }
{
    let mut least = best;
    for read in graph.reads_at(reader) {
        least = through_read(graph, reader, *read, least);
    }
    least
}

/// How many of ascending numbers are at most `high`.
fn count_up_to(numbers: &[u32], high: u32) -> usize
    requires { IsNonDecreasing numbers.now }
    ensures bound { result ≤ length numbers.now }
    ensures point { IsPartitionPoint (λ n. nat_le n high ≡ true) (λ n. nat_le n high ≡ false) numbers.now result }
{
    numbers.partition_point(|number| *number <= high)
}

/// Whether one of these readers, each beside its source, comes after `writer` and before `end`, and reads from a `source`
/// other than `writer`.
fn is_read_later(sources: &[u32], readers: &[u32], source: u32, writer: u32, end: u32) -> bool
    requires long { length sources.now ≡ length readers.now }
    requires order { AreInOrder nat_cmp sources.now readers.now }
    requires writer { writer < end }
    ensures { IsTrue result ↔ ((writer ≢ source) × ((c : ℕ) × Contains (zip sources.now readers.now) (source, c) × (writer < c) × (c < end))) }
{
    if source == writer {
        return false;
    }
    let start = count_below(sources, source);
    let stop = count_up_to(sources, source);
    first_within(&readers[start..stop], writer + 1, end).is_some()
}

/// The least place so far, and those of sources of the writer from which a later transaction of its session reads this key.
fn stale_key(
    graph: &LargeGraph,
    end: u32,
    writer: u32,
    key_index: u32,
    best: Option<(u32, u32)>,
) -> Option<(u32, u32)>
    requires writer { (0 < writer) × (writer < end) × (writer < count graph.now) }
    requires key { (key_index < length (keys graph.now)) × IsWriter graph.now writer (key_at graph.now key_index) }
    requires session { (c : ℕ) → IsSessionPair graph.now writer c ↔ ((writer < c) × (c < end)) }
    ensures more { IsAsGood graph.now best result }
    ensures found { (a : ℕ) (c : ℕ) → MayContradict graph.now writer a (key_at graph.now key_index) c → IsSessionPair graph.now writer c
        → IsRead graph.now a writer → IsFoundUpTo result writer a }
{
    let (sources, readers) = graph.readings_of(key_index);
    let mut least = best;
    for read in graph.reads_at(writer) {
        if is_read_later(sources, readers, read.1, writer, end) {
            least = earlier(least, writer, read.1);
        }
    }
    least
}

/// The least place so far, and those of sources of the writer from which a later transaction of its session reads a key that it
/// writes.
fn stale(graph: &LargeGraph, end: u32, writer: u32, best: Option<(u32, u32)>) -> Option<(u32, u32)>
    requires writer { (0 < writer) × (writer < end) × (writer < count graph.now) }
    requires session { (c : ℕ) → IsSessionPair graph.now writer c ↔ ((writer < c) × (c < end)) }
    ensures more { IsAsGood graph.now best result }
    ensures found { (a : ℕ) → IsStale graph.now writer a → IsFoundUpTo result writer a }
{
    let mut least = best;
    for key_index in graph.writes_at(writer) {
        least = stale_key(graph, end, writer, *key_index, least);
    }
    least
}

/// Whether this is another transaction than `init`, and some transaction after `init` reads from it.
fn is_source(graph: &LargeGraph, source: u32) -> bool
    requires { source < count graph.now }
    ensures { IsTrue result ↔ ((0 ≢ source) × ((c : ℕ) × (0 < c) × IsRead graph.now source c)) }
{
    if source == 0 {
        return false;
    }
    for reader in graph.readings_at(source).0 {
        if *reader > 0 {
            return true;
        }
    }
    false
}

/// The least of the places of reads of `init`: it overwrites whatever others read from its source.
fn initial(graph: &LargeGraph) -> Option<(u32, u32)>
    requires { 0 < count graph.now }
    ensures sound { IsSound graph.now result }
    ensures found { (a : ℕ) → IsStale graph.now 0 a → IsFoundUpTo result 0 a }
{
    let mut least = None;
    for read in graph.reads_at(0) {
        if is_source(graph, read.1) {
            least = earlier(least, 0, read.1);
        }
    }
    least
}

/// The first derived link of two steps with a pair back.
pub(crate) fn first_return(graph: &LargeGraph) -> Option<(u32, u32)>
    ensures { MatchOption result ((b : ℕ) (a : ℕ) → IsReturn graph.now b a → ⊥) (λ place. IsFirstPlace (IsReturn graph.now) place.0 place.1) }
{
    let count = graph.count();
    let mut least = through(graph, 0, initial(graph));
    let mut session = (1, 1);
    for number in 1..count {
        session = session_at(graph, session, number);
        least = between(graph, session, number, least);
        least = through(graph, number, least);
        least = stale(graph, session.1, number, least);
    }
    least
}
