//! Each call on names, transactions, snapshots and recordings once, each refusal, and their order.
mod rows;

use crate::tests::builders::{assert_names, assert_shows, name};
use indexmap::IndexSet;
use std::alloc::Global;
use std::collections::BTreeMap;
use std::process::Abort;
use std::test::Fail;
use tcc_rows::{
    Checkpoint, LargeRecording, Recording, RowFault, RowFaultKind, large_snapshot_of, snapshot_of,
};
use tcc_txn::{
    Alike, GrowFault, KeyHints, LARGE_COUNT, LargeSnapshot, Limits, Name, NameFault, Nearby,
    NoMemory, Op, Recorded, Snapshot, SnapshotFault, SymbolTable, Txn, TxnFault, are_same,
};

fn get(key: Name, value: u64) -> Op {
    Op::Get { key, value }
}

fn put(key: Name, value: u64) -> Op {
    Op::Put { key, value }
}

#[test]
fn reads_names(rt: HostRuntime) -> Result<(), Fail> {
    let longest = "abcdefghijklmnopqrstuvwxyzAZ09_.";
    assert_eq!(rt; longest.len(), 32);
    assert_eq!(rt; name(&rt, longest).bytes(), longest.as_bytes());
    assert_eq!(rt; name(&rt, "-").bytes(), "-".as_bytes());
    assert!(rt; name(&rt, "a/1".split_at(1).0).copy()? == name(&rt, "a"));
    Ok(())
}

#[test]
fn refuses_names(rt: HostRuntime) {
    let longer = "abcdefghijklmnopqrstuvwxyzAZ09_.-";
    let worse = "abcdefghijklmnopqrstuvwxyz AZ09_.";
    assert_eq!(rt; longer.len(), 33);
    assert_eq!(rt; worse.len(), 33);
    for (text, want) in [
        ("", NameFault::Empty),
        (longer, NameFault::TooLong),
        (worse, NameFault::TooLong),
        ("a b", NameFault::BadByte { at: 2 }),
        ("/", NameFault::BadByte { at: 1 }),
        ("ab\u{e4}", NameFault::BadByte { at: 3 }),
        ("@[`{:", NameFault::BadByte { at: 1 }),
        ("Z[", NameFault::BadByte { at: 2 }),
        ("z{", NameFault::BadByte { at: 2 }),
        ("9:", NameFault::BadByte { at: 2 }),
    ] {
        assert!(rt;
            Name::read(text.as_bytes()).is_err_and(|fault| fault == want),
            "{text}"
        );
    }
}

/// Names out of order, one of them twice; and the same names in the order of their bytes, each once.
const NAMES: [&str; 6] = ["ab", "a", "A", "a.1", "a-b", "a"];

const IN_ORDER: [&str; 5] = ["A", "a", "a-b", "a.1", "ab"];

#[test]
fn names_are_sorted_in_byte_order(rt: HostRuntime) -> Result<(), Fail> {
    let mut sorted = Vec::new(rt.alloc());
    for text in NAMES {
        sorted.push(name(&rt, text))?;
    }
    sorted.sort_unstable();
    sorted.dedup();
    assert_names(&rt, &sorted, &IN_ORDER);
    Ok(())
}

#[test]
fn names_are_keys_in_byte_order(rt: HostRuntime) -> Result<(), Fail> {
    let mut tree = BTreeMap::new(rt.alloc());
    for text in NAMES {
        tree.insert(name(&rt, text), text.len())?;
    }
    let keys: Vec<Name> = tree.keys().copied().collect(rt.alloc())?;
    assert_names(&rt, &keys, &IN_ORDER);
    assert_eq!(rt; tree.get(&name(&rt, "a-b")).copied(), Some(3));
    Ok(())
}

#[test]
fn names_are_hashed(rt: HostRuntime) -> Result<(), Fail> {
    let mut hashed = IndexSet::new(rt.alloc());
    for text in NAMES {
        hashed.insert(name(&rt, text))?;
    }
    assert_eq!(rt; hashed.len(), 5);
    for (text, index) in [("A", Some(2)), ("b", None)] {
        assert_eq!(rt; hashed.get_index_of(&name(&rt, text)), index);
    }
    Ok(())
}

// More names than the first slots of the table's cache, so that it grows, and each asked for again.
#[test]
fn names_have_numbers(rt: HostRuntime) -> Result<(), Fail> {
    let alloc = rt.alloc();
    let mut table = SymbolTable::new(alloc);
    assert!(rt; table.names().is_empty());
    assert!(rt; table.find(&name(&rt, "k0")).is_none());
    for _ in 0..2u32 {
        for number in 0..300u32 {
            let text = format!(in alloc; "k{number}")?;
            assert_eq!(rt; table.number(name(&rt, text.as_str()))?, number);
        }
    }
    assert_eq!(rt; table.len(), 300);
    assert!(rt; table.names()[299] == name(&rt, "k299"));
    assert!(rt;
        table
            .find(&name(&rt, "k299"))
            .is_some_and(|number| number == 299)
    );
    assert!(rt; table.find(&name(&rt, "k300")).is_none());
    Ok(())
}

// What no clause says: the cache has the last two numbers that were put, and room for as many names as was asked for.
#[test]
fn caches_numbers(rt: HostRuntime) -> Result<(), Fail> {
    let alloc = rt.alloc();
    let (x, y) = (name(&rt, "x"), name(&rt, "y"));
    let mut nearby = Nearby::new(alloc);
    nearby.put(&x, 7);
    assert!(rt; nearby.numbers(&x) == (0, 0));
    assert!(rt; !nearby.has_room(1));
    nearby = Nearby::with_room(alloc, 1000)?;
    assert!(rt; nearby.has_room(1000));
    nearby.put(&x, 7);
    nearby.put(&y, 8);
    nearby.put(&y, 9);
    assert!(rt; nearby.numbers(&x) == (7, 0));
    assert!(rt; nearby.numbers(&y) == (9, 8));
    let names = [y, x];
    assert!(rt; Nearby::of(alloc, &names)?.numbers(&x) == (1, 0));
    Ok(())
}

#[test]
fn makes_transactions(rt: HostRuntime) -> Result<(), Fail> {
    let alloc = rt.alloc();
    let x = name(&rt, "x");
    let mut ops = Vec::new(alloc);
    for _ in 0..256 {
        ops.push(get(x, 0))?;
    }
    let Ok(txn) = Txn::new(ops, true) else {
        panic!(rt; "256 operations are refused");
    };
    assert_eq!(rt; txn.ops().len(), 256);
    assert!(rt; txn.committed());
    let copy = txn.copy(alloc)?;
    assert_eq!(rt; copy.ops().len(), 256);
    assert!(rt; copy.committed());
    let Ok(aborted) = Txn::new(vec![in alloc; put(x, 1)]?, false) else {
        panic!(rt; "a write of 1 is refused");
    };
    assert!(rt; !aborted.committed());
    Ok(())
}

// These operations are refused in this way, and are returned.
fn assert_refused(rt: &impl Abort, ops: Vec<Op>, wanted: TxnFault) -> Vec<Op> {
    let count = ops.len();
    match Txn::new(ops, true) {
        Ok(_) => panic!(rt; "{count} operations are taken"),
        Err((fault, ops)) => {
            assert!(rt; fault == wanted);
            assert_eq!(rt; ops.len(), count);
            ops
        }
    }
}

#[test]
fn refuses_transactions(rt: HostRuntime) -> Result<(), Fail> {
    let x = name(&rt, "x");
    let mut ops = Vec::new(rt.alloc());
    for count in 0..257u64 {
        ops.push(get(x, 0))?;
        if count == 0 {
            ops.push(put(x, 0))?;
            ops = assert_refused(&rt, ops, TxnFault::WriteOfZero { at: 2 });
            ops.pop();
        }
    }
    let mut ops = assert_refused(&rt, ops, TxnFault::TooManyOps);
    ops.push(put(x, 0))?;
    assert_refused(&rt, ops, TxnFault::WriteOfZero { at: 258 });
    Ok(())
}

// `count` transactions without operations, the first aborted.
fn idle(rt: &impl Abort, alloc: Global, count: usize) -> Result<Vec<Txn>, Fail> {
    let mut txns = Vec::new(alloc);
    for number in 0..count {
        match Txn::new(Vec::new(alloc), number > 0) {
            Ok(txn) => txns.push(txn)?,
            Err(_) => panic!(rt; "no operations are refused"),
        }
    }
    Ok(txns)
}

// The session at this index has this name, and this many transactions.
fn assert_session(rt: &impl Abort, snapshot: &Snapshot, index: u32, wanted: (&str, usize)) {
    match snapshot.session(index) {
        Some((session, txns)) => {
            assert_eq!(rt; session.bytes(), wanted.0.as_bytes());
            assert_eq!(rt; txns.len(), wanted.1);
        }
        None => panic!(rt; "no session {index}"),
    }
}

// Each session has as many transactions as come before it in the list.
#[test]
fn makes_snapshots_in_byte_order(rt: HostRuntime) -> Result<(), Fail> {
    let alloc = rt.alloc();
    let mut parts = Vec::new(alloc);
    for text in ["ab", "a", "A", "a.1", "a-b"] {
        let txns = idle(&rt, alloc, parts.len())?;
        parts.push((name(&rt, text), txns))?;
    }
    let Ok(snapshot) = Snapshot::new(parts) else {
        panic!(rt; "five sessions are refused");
    };
    assert_eq!(rt; snapshot.sessions(), 5);
    let mut index = 0u32;
    for wanted in [("A", 2), ("a", 1), ("a-b", 4), ("a.1", 3), ("ab", 0)] {
        assert_session(&rt, &snapshot, index, wanted);
        index = index.wrapping_add(1);
    }
    assert!(rt; snapshot.session(5).is_none());
    Ok(())
}

// `count` sessions s0, s1 .., the first with `transactions` transactions.
fn sessions(
    rt: &impl Abort,
    alloc: Global,
    count: u32,
    transactions: usize,
) -> Result<Vec<(Name, Vec<Txn>)>, Fail> {
    let mut parts = Vec::new(alloc);
    for number in 0..count {
        let text = format!(in alloc; "s{number}")?;
        let held = if number == 0 { transactions } else { 0 };
        parts.push((name(rt, text.as_str()), idle(rt, alloc, held)?))?;
    }
    Ok(parts)
}

#[test]
fn refuses_snapshots(rt: HostRuntime) -> Result<(), Fail> {
    let alloc = rt.alloc();
    assert!(rt; Snapshot::new(sessions(&rt, alloc, 64, 4095)?).is_ok());
    let Err((fault, parts)) = Snapshot::new(sessions(&rt, alloc, 64, 4096)?) else {
        panic!(rt; "4,096 transactions are taken");
    };
    assert!(rt; matches!(fault, SnapshotFault::TooManyTransactions));
    assert_eq!(rt; parts.len(), 64);
    let Err((fault, mut parts)) = Snapshot::new(sessions(&rt, alloc, 65, 4096)?) else {
        panic!(rt; "65 sessions are taken");
    };
    assert!(rt; matches!(fault, SnapshotFault::TooManySessions));
    assert_eq!(rt; parts.len(), 65);
    parts.push((name(&rt, "s7"), Vec::new(alloc)))?;
    parts.push((name(&rt, "s3"), Vec::new(alloc)))?;
    let Err((fault, parts)) = Snapshot::new(parts) else {
        panic!(rt; "two sessions of one name are taken");
    };
    match fault {
        SnapshotFault::Repeated { session } => {
            assert_eq!(rt; session.bytes(), "s7".as_bytes());
        }
        _ => panic!(rt; "two sessions of one name come first"),
    }
    assert_eq!(rt; parts.len(), 67);
    Ok(())
}

#[test]
fn tells_limits(rt: HostRuntime) {
    for (limits, sessions, transactions, keys, bytes) in [
        (Limits::Small, 64, 4_095, 1_024, 134_217_728),
        (
            Limits::Large,
            65_535,
            16_777_215,
            16_777_216,
            17_179_869_184,
        ),
    ] {
        assert_eq!(rt; limits.sessions(), sessions);
        assert_eq!(rt; limits.transactions(), transactions);
        assert_eq!(rt; limits.keys(), keys);
        assert_eq!(rt; limits.bytes(), bytes);
    }
    assert_eq!(rt; LARGE_COUNT, 16_777_216);
}

// Each case has some sessions of which the first has some transactions, and whether that is small.
#[test]
fn makes_large_snapshots(rt: HostRuntime) -> Result<(), Fail> {
    let alloc = rt.alloc();
    for (count, transactions, is_small) in [
        (0, 0, true),
        (64, 4_095, true),
        (64, 4_096, false),
        (65, 4_095, false),
        (300, 5_000, false),
    ] {
        let Ok(large) = LargeSnapshot::new(sessions(&rt, alloc, count, transactions)?) else {
            panic!(rt; "{count} sessions are refused");
        };
        assert_eq!(rt; large.sessions(), count);
        assert!(rt; large.name(count).is_none());
        match large.small_copy(alloc)? {
            Some(snapshot) => {
                assert!(rt; is_small);
                assert_eq!(rt; snapshot.parts().len(), count as usize);
                assert!(rt; snapshot.large().is_same(&large));
            }
            None => {
                assert!(rt; !is_small);
                assert!(rt;
                    large
                        .name(0)
                        .is_some_and(|first| first.bytes() == "s0".as_bytes())
                );
                assert_eq!(rt; large.finished(0), transactions);
            }
        }
    }
    Ok(())
}

// Two transactions, each with hints about its keys: none, all, too few, too many, wrong numbers, or other names. The snapshot is the same.
#[test]
fn adds_with_what_is_told(rt: HostRuntime) -> Result<(), Fail> {
    let alloc = rt.alloc();
    let [x, y, z] = [name(&rt, "x"), name(&rt, "y"), name(&rt, "z")];
    let wanted = added(&rt, alloc, KeyHints::none())?;
    assert_eq!(rt; wanted.finished(0), 2);
    let names = [z, y, x];
    for (names, numbers) in [
        (&names[..], [2, 1, 2].as_slice()),
        (&names[..], [2].as_slice()),
        (&names[..], [2, 1, 2, 0, 0].as_slice()),
        (&names[..], [0, 2, 7].as_slice()),
        (&names[..1], [2, 1, 2].as_slice()),
        (&[], [0, 0, u32::MAX].as_slice()),
    ] {
        let told = KeyHints { names, numbers };
        assert!(rt; added(&rt, alloc, told)?.is_same(&wanted));
    }
    Ok(())
}

// A large snapshot of two transactions of session a, each with a read of x, a write at y and one at x.
fn added(rt: &impl Abort, alloc: Global, told: KeyHints<'_>) -> Result<LargeSnapshot, Fail> {
    let [x, y] = [name(rt, "x"), name(rt, "y")];
    let mut snapshot = LargeSnapshot::empty(alloc);
    for value in [1, 2] {
        let ops = vec![in alloc; get(x, value), put(y, value), put(x, value)]?;
        let Ok(txn) = Txn::new(ops, true) else {
            panic!(rt; "a write of {value} is refused");
        };
        if snapshot.add_told(alloc, name(rt, "a"), txn, told).is_err() {
            panic!(rt; "transaction {value} is refused");
        }
    }
    Ok(snapshot)
}

// Whatever allocation is refused, the snapshot is unchanged, or has one transaction more.
#[test]
fn added_where_memory_is_refused(rt: HostRuntime) -> Result<(), Fail> {
    let alloc = rt.alloc();
    let names = [name(&rt, "x"), name(&rt, "y")];
    let told = KeyHints {
        names: &names,
        numbers: &[1, 0],
    };
    let mut snapshot = LargeSnapshot::empty(alloc);
    for count in 0..3usize {
        let ops = vec![in alloc; get(names[1], 0), put(names[0], 1)]?;
        let Ok(txn) = Txn::new(ops, true) else {
            return Ok(());
        };
        if let Err(fault) = snapshot.add_told(alloc, names[0], txn, told) {
            assert!(rt; fault == GrowFault::NoMemory);
            assert_eq!(rt; snapshot.transactions(), count);
            assert_eq!(rt; snapshot.finished(0), count);
            return Ok(());
        }
    }
    assert_eq!(rt; snapshot.finished(0), 3);
    Ok(())
}

/// Session b finishes two transactions, and session a one, which it aborts.
const RECORDED: &str =
    "b,begin\nb,w,x,1\nb,r,y,0\nb,commit\na,begin\na,r,x,1\na,abort\nb,begin\nb,commit\n";

// The first transaction of session b there: it wrote 1 at x and read 0 at y.
fn assert_recorded(rt: &impl Abort, alloc: Global, recorded: &Recorded<'_>) -> Result<(), Fail> {
    assert!(rt; recorded.committed());
    assert_eq!(rt; recorded.len(), 2);
    let first = put(name(rt, "x"), 1);
    let wanted = [put(name(rt, "x"), 1), get(name(rt, "y"), 0)];
    assert!(rt; recorded.op(0).is_some_and(|op| op.is_same(&first)));
    assert!(rt; recorded.op(2).is_none());
    let mut ops = vec![in alloc; put(name(rt, "z"), 3)]?;
    recorded.fill(&mut ops)?;
    assert!(rt; are_same(&ops, &wanted));
    let txn = recorded.to_txn(alloc)?;
    assert!(rt; are_same(txn.ops(), &ops));
    let again = txn.recorded();
    assert!(rt; again.committed());
    assert_eq!(rt; again.len(), 2);
    assert!(rt; again.op(0).is_some_and(|op| op.is_same(&first)));
    Ok(())
}

#[test]
fn reads_recorded_transactions(rt: HostRuntime) -> Result<(), Fail> {
    let alloc = rt.alloc();
    let Ok(snapshot) = large_snapshot_of(alloc, RECORDED.as_bytes()) else {
        panic!(rt; "two sessions are refused");
    };
    for (i, wanted, finished) in [(0, "a", 1), (1, "b", 2)] {
        assert!(rt;
            snapshot
                .name(i)
                .is_some_and(|name| name.bytes() == wanted.as_bytes())
        );
        assert_eq!(rt; snapshot.finished(i), finished);
        assert!(rt; snapshot.recorded(i, finished).is_none());
    }
    assert!(rt; snapshot.name(2).is_none());
    assert_eq!(rt; snapshot.finished(2), 0);
    assert!(rt;
        snapshot
            .recorded(0, 0)
            .is_some_and(|recorded| !recorded.committed() && recorded.len() == 1)
    );
    match snapshot.recorded(1, 0) {
        Some(recorded) => assert_recorded(&rt, alloc, &recorded)?,
        None => panic!(rt; "no first transaction of b"),
    }
    let Some(small) = snapshot.small_copy(alloc)? else {
        panic!(rt; "two sessions are no small snapshot");
    };
    small.keeps_limits();
    assert!(rt; small.large().is_same(&snapshot));
    Ok(())
}

#[test]
fn records_up_to_each_seal(rt: HostRuntime) -> Result<(), Fail> {
    let alloc = rt.alloc();
    let text =
        "b,begin\nb,commit\nseal\na,begin\nb,begin\nb,abort\na,commit\nseal\nseal\nb,begin\nb,commit\n";
    let mut recording = Recording::new(alloc, text.as_bytes())?;
    assert_eq!(rt; recording.snapshot().sessions(), 0);
    for (want, a, b) in [
        (Checkpoint::Seal, None, 1usize),
        (Checkpoint::Seal, Some(1), 2),
        (Checkpoint::Seal, Some(1), 2),
        (Checkpoint::End, Some(1), 3),
        (Checkpoint::End, Some(1), 3),
    ] {
        assert!(rt;
            recording
                .advance(alloc)
                .is_ok_and(|checkpoint| checkpoint == want)
        );
        assert!(rt; finished(recording.snapshot(), "a") == a);
        assert!(rt; finished(recording.snapshot(), "b") == Some(b));
    }
    Ok(())
}

// Texts that are read within both limits: 65 sessions, 1,025 keys, and a word that is none.
#[test]
fn records_within_large_limits(rt: HostRuntime) -> Result<(), Fail> {
    let alloc = rt.alloc();
    let mut sessions = Vec::new(alloc);
    for number in 0..65u32 {
        sessions.extend_from_slice(format!(in alloc;
            "s{number},begin\ns{number},commit\n"
        )?.as_bytes())?;
    }
    let mut keys = Vec::new(alloc);
    for number in 0..1_025u32 {
        let session = number / 256;
        if number % 256 == 0 {
            keys.extend_from_slice(format!(in alloc; "a{session},begin\n")?.as_bytes())?;
        }
        keys.extend_from_slice(format!(in alloc; "a{session},r,k{number},0\n")?.as_bytes())?;
    }
    for session in 0..5u32 {
        keys.extend_from_slice(format!(in alloc; "a{session},commit\n")?.as_bytes())?;
    }
    for (text, small, large) in [
        (&sessions[..], Some(129), None),
        (&keys[..], Some(1_030), None),
        ("a,begin\na,end\n".as_bytes(), Some(2), Some(2)),
    ] {
        assert!(rt; fault_row(snapshot_of(alloc, text).err()) == small);
        assert!(rt; fault_row(large_snapshot_of(alloc, text).err()) == large);
    }
    let Ok(snapshot) = large_snapshot_of(alloc, &sessions[..]) else {
        panic!(rt; "65 sessions are refused");
    };
    assert_eq!(rt; snapshot.sessions(), 65);
    Ok(())
}

fn fault_row(fault: Option<RowFault>) -> Option<u64> {
    match fault {
        Some(fault) => Some(fault.row),
        None => None,
    }
}

#[test]
fn large_records_up_to_each_seal(rt: HostRuntime) -> Result<(), Fail> {
    let alloc = rt.alloc();
    let text = "b,begin\nb,commit\nseal\na,begin\na,comit\n";
    let mut recording = LargeRecording::new(alloc, text.as_bytes())?;
    assert!(rt;
        recording
            .advance(alloc)
            .is_ok_and(|checkpoint| checkpoint == Checkpoint::Seal)
    );
    assert_eq!(rt; recording.snapshot().sessions(), 1);
    for _ in 0..2 {
        let Err(fault) = recording.advance(alloc) else {
            panic!(rt; "a word that is none is taken");
        };
        assert_eq!(rt; fault.row, 5);
    }
    assert!(rt;
        recording
            .last_field(1)
            .is_some_and(|field| field == "comit".as_bytes())
    );
    assert!(rt; recording.last_field(2).is_none());
    Ok(())
}

#[test]
fn tells_the_last_record(rt: HostRuntime) -> Result<(), Fail> {
    let alloc = rt.alloc();
    let mut recording = Recording::new(alloc, "a,begin\na,r,x,01\n".as_bytes())?;
    assert!(rt; recording.last_field(0).is_none());
    assert!(rt; recording.advance(alloc).is_err());
    let mut index = 0usize;
    for wanted in ["a", "r", "x", "01"] {
        assert!(rt;
            recording
                .last_field(index)
                .is_some_and(|field| field == wanted.as_bytes())
        );
        index = index.wrapping_add(1);
    }
    assert!(rt; recording.last_field(index).is_none());
    Ok(())
}

// How many transactions the session has finished, if any.
fn finished(snapshot: &Snapshot, session: &str) -> Option<usize> {
    for i in 0..snapshot.sessions() {
        if let Some((name, txns)) = snapshot.session(i) {
            if name.bytes() == session.as_bytes() {
                return Some(txns.len());
            }
        }
    }
    None
}

#[test]
fn records_to_a_snapshot(rt: HostRuntime) {
    let alloc = rt.alloc();
    for (text, sessions) in [
        ("", 0),
        ("seal\n", 0),
        ("b,begin\nb,commit\nseal\na,begin\na,abort\n", 2),
    ] {
        let Ok(snapshot) = snapshot_of(alloc, text.as_bytes()) else {
            panic!(rt; "no snapshot: {text}");
        };
        assert_eq!(rt; snapshot.sessions(), sessions, "{text}");
    }
    for (text, row) in [("seal\na,commit\n", 2), ("a,begin\nseal\n", 2), ("x\n", 1)] {
        let Err(fault) = snapshot_of(alloc, text.as_bytes()) else {
            panic!(rt; "no fault: {text}");
        };
        assert_eq!(rt; fault.row, row, "{text}");
    }
}

#[test]
fn a_fault_stays(rt: HostRuntime) -> Result<(), Fail> {
    let alloc = rt.alloc();
    let text = "a,begin\na,commit\nseal\na,commit\nb,begin\nb,commit\n";
    let mut recording = Recording::new(alloc, text.as_bytes())?;
    let Ok(Checkpoint::Seal) = recording.advance(alloc) else {
        panic!(rt; "no seal");
    };
    for _ in 0..2 {
        let Err(fault) = recording.advance(alloc) else {
            panic!(rt; "no fault");
        };
        assert_eq!(rt; fault.row, 4);
        assert!(rt; matches!(fault.kind, RowFaultKind::NotBegun));
        assert_eq!(rt; recording.snapshot().sessions(), 1);
    }
    Ok(())
}

#[test]
fn name_faults_show(rt: HostRuntime) {
    for (fault, text) in [
        (NameFault::Empty, "a name has at least one byte"),
        (NameFault::TooLong, "the name is too long"),
        (
            NameFault::BadByte { at: 7 },
            "byte 7 cannot stand in a name",
        ),
        (NameFault::NoMemory, "out of memory"),
    ] {
        assert_shows(&rt, rt.alloc(), &fault, text);
    }
    assert_shows(&rt, rt.alloc(), &NoMemory, "out of memory");
}

#[test]
fn transaction_faults_show(rt: HostRuntime) {
    for (fault, text) in [
        (TxnFault::WriteOfZero { at: 7 }, "operation 7 writes 0"),
        (TxnFault::TooManyOps, "there are too many operations"),
    ] {
        assert_shows(&rt, rt.alloc(), &fault, text);
    }
}

#[test]
fn snapshot_faults_show(rt: HostRuntime) {
    let session = name(&rt, "a");
    for (fault, text) in [
        (
            SnapshotFault::Repeated { session },
            "session a stands twice",
        ),
        (
            SnapshotFault::TooManySessions,
            "there are too many sessions",
        ),
        (
            SnapshotFault::TooManyTransactions,
            "there are too many transactions",
        ),
        (SnapshotFault::NoMemory, "out of memory"),
    ]
    .iter()
    {
        assert_shows(&rt, rt.alloc(), fault, text);
    }
}

#[test]
fn names_and_row_faults_show(rt: HostRuntime) -> Result<(), Fail> {
    let alloc = rt.alloc();
    let session = name(&rt, "a");
    let kind = RowFaultKind::Unfinished { session };
    let fault = RowFault { row: 7, kind };
    assert_shows(&rt, alloc, &fault, "row 7: the transaction of a has no end");
    let shown = format!(in alloc; "[{session:>3}] {session:?}")?;
    assert_eq!(rt; shown.as_str(), "[  a] a");
    Ok(())
}
