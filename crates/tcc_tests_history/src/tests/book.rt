//! What no clause says: which of two faults is returned, and what is under the lock between two calls.
use crate::tests::builders::name;
use std::alloc::Global;
use std::process::Abort;
use std::sync::Wait;
use std::thread;
use std::thread::Threads;
use tcc_book::{Book, OpenFault, Pass, Receipt, RecordFault, SealFault, WholeFault};
use tcc_txn::{MAX_SESSIONS, MAX_TRANSACTIONS, Name, Op, Snapshot, Txn};

/// The sessions of the recorders that record side by side.
const RECORDERS: &[u8] = b"abcdefgh";

/// How many transactions each of them records, with a seal after each.
const MOST: u32 = 50;

/// How many times they all do so.
const TIMES: u32 = 3;

/// The session whose name is a letter.
fn session(letter: u8) -> Option<Name> {
    Name::read(&[letter]).ok()
}

/// The transaction that writes the value.
fn write(alloc: Global, value: u64) -> Option<Txn> {
    let key = Name::read(b"x").ok()?;
    let mut ops = Vec::new(alloc);
    ops.push(Op::Put { key, value }).ok()?;
    Txn::new(ops, true).ok()
}

/// The pass of a session whose name is a letter.
fn open(rt: &impl Wait, alloc: Global, book: &Book, letter: u8) -> Option<Pass> {
    book.open(rt, alloc, session(letter)?).ok()
}

/// Records the write of the value.
fn record(
    rt: &impl Wait,
    alloc: Global,
    book: &Book,
    pass: &mut Pass,
    value: u64,
) -> Option<Result<Receipt, (RecordFault, Txn)>> {
    Some(book.record(rt, alloc, pass, write(alloc, value)?))
}

/// A transaction that encodes its session and its place: of one to three operations, each third one aborted.
fn telling(alloc: Global, letter: u8, place: u32) -> Option<Txn> {
    let key = Name::read(&[letter]).ok()?;
    let mut ops = Vec::new(alloc);
    for value in 0..u64::from(place % 3) {
        ops.push(Op::Get { key, value }).ok()?;
    }
    ops.push(Op::Put {
        key,
        value: u64::from(place),
    })
    .ok()?;
    Txn::new(ops, place % 3 != 0).ok()
}

/// Whether two operations do the same, at the same key with the same value.
fn do_the_same(one: &Op, other: &Op) -> bool {
    let same_word = match (one, other) {
        (Op::Get { .. }, Op::Get { .. }) => true,
        (Op::Put { .. }, Op::Put { .. }) => true,
        _ => false,
    };
    same_word && one.key() == other.key() && one.value() == other.value()
}

/// Whether two transactions ended alike and did the same.
fn are_alike(one: &Txn, other: &Txn) -> bool {
    for (index, op) in one.ops().iter().enumerate() {
        match other.ops().get(index) {
            Some(same) if do_the_same(op, same) => {}
            _ => return false,
        }
    }
    one.ops().len() == other.ops().len() && one.committed() == other.committed()
}

/// Whether some transactions are a beginning of others.
fn begins(some: &[Txn], all: &[Txn]) -> bool {
    for (index, txn) in some.iter().enumerate() {
        match all.get(index) {
            Some(other) if are_alike(txn, other) => {}
            _ => return false,
        }
    }
    true
}

/// What the session finished, if it is there.
fn finished_by<'a>(snapshot: &'a Snapshot, name: &Name) -> Option<&'a [Txn]> {
    for i in 0..snapshot.sessions() {
        if let Some((session, txns)) = snapshot.session(i) {
            if *session == *name {
                return Some(txns);
            }
        }
    }
    None
}

/// Whether the snapshot has exactly what the pass has recorded so far.
fn has_exactly(snapshot: &Snapshot, pass: &Pass) -> bool {
    match finished_by(snapshot, pass.session()) {
        Some(txns) => txns.len() == pass.recorded().len() && begins(txns, pass.recorded()),
        None => false,
    }
}

/// A recorder at its end: its pass, and the snapshot of each of its seals.
#[derive(Drop)]
struct Recorder {
    pass: Pass,
    seals: Vec<Snapshot>,
}

/// All that a recorder does, with its seals; none where something was not as it should be.
fn life_of(rt: &impl Wait, alloc: Global, book: &Book, pass: Pass, letter: u8) -> Option<Recorder> {
    let mut pass = pass;
    let mut seals = Vec::new(alloc);
    for before in 0..MOST {
        let txn = telling(alloc, letter, before + 1)?;
        let receipt = book.record(rt, alloc, &mut pass, txn).ok()?;
        let sealed = book.seal(rt, alloc, &pass).ok()?;
        if receipt.place != before + 1 || !has_exactly(&sealed, &pass) {
            return None;
        }
        seals.push(sealed).ok()?;
    }
    Some(Recorder { pass, seals })
}

/// Whether for each recorder's session a seal has a beginning of what that one had recorded in the end, and no other session.
fn is_beginning(seal: &Snapshot, recorders: &[Recorder]) -> bool {
    for recorder in recorders {
        match finished_by(seal, recorder.pass.session()) {
            Some(txns) if begins(txns, recorder.pass.recorded()) => {}
            _ => return false,
        }
    }
    seal.sessions() as usize == recorders.len()
}

/// Whether that holds for all seals of a recorder.
fn are_beginnings(seals: &[Snapshot], recorders: &[Recorder]) -> bool {
    for seal in seals {
        if !is_beginning(seal, recorders) {
            return false;
        }
    }
    seals.len() == MOST as usize
}

/// Whether the snapshot has exactly what all of them have recorded.
fn is_whole(snapshot: &Snapshot, recorders: &[Recorder]) -> bool {
    for recorder in recorders {
        if !has_exactly(snapshot, &recorder.pass) {
            return false;
        }
    }
    recorders.len() == RECORDERS.len() && snapshot.sessions() as usize == recorders.len()
}

/// What recorders in threads of their own leave; none where something was not as it should be.
fn side_by_side(
    rt: &(impl Threads + Wait + Sync),
    alloc: Global,
    book: &Book,
) -> Option<Vec<Recorder>> {
    let mut passes = Vec::new(alloc);
    for letter in RECORDERS {
        passes
            .push((open(rt, alloc, book, *letter)?, *letter))
            .ok()?;
    }
    let ends = thread::map_vec(
        rt,
        passes,
        &|pass: (Pass, u8)| { life_of(rt, alloc, book, pass.0, pass.1) },
    )
    .ok()?;
    let mut done = Vec::new(alloc);
    for end in ends {
        done.push(end?).ok()?;
    }
    Some(done)
}

/// Whether the book closes with exactly what these recorders have recorded.
fn closes_whole(rt: &impl Wait, alloc: Global, book: Book, recorders: Vec<Recorder>) -> bool {
    let mut passes = Vec::new(alloc);
    for recorder in recorders {
        if passes.push(recorder.pass).is_err() {
            return false;
        }
    }
    let Ok(whole) = book.whole(rt, alloc, &passes) else {
        return false;
    };
    for pass in &passes {
        if !has_exactly(&whole, pass) {
            return false;
        }
    }
    let sessions = passes.len();
    match book.close(rt, alloc, passes) {
        Ok(closed) => closed.is_same(&whole) && closed.sessions() as usize == sessions,
        Err(_) => false,
    }
}

/// Eight recorders in threads of their own, again and again. Each seal has exactly what its caller recorded, and for each other session a
/// beginning of what that one had recorded in the end. Then all lists are whole, and so the book closes.
#[test]
fn eight_recorders(rt: HostRuntime) {
    for _ in 0..TIMES {
        let alloc = rt.alloc();
        let book = new_book(&rt, alloc);
        let Some(done) = side_by_side(&rt, alloc, &book) else {
            panic!(rt; "a recorder saw something else");
        };
        for recorder in done.iter() {
            assert!(rt; are_beginnings(&recorder.seals, &done));
            match book.seal(&rt, alloc, &recorder.pass) {
                Ok(whole) => assert!(rt; is_whole(&whole, &done)),
                Err(_) => panic!(rt; "not sealed"),
            }
        }
        assert!(rt; closes_whole(&rt, alloc, book, done));
    }
}

/// A book without sessions.
fn new_book(rt: &impl Abort, alloc: Global) -> Book {
    match Book::new(alloc) {
        Ok(book) => book,
        Err(_) => panic!(rt; "no memory"),
    }
}

/// The passes of sessions whose names are letters, opened in this order.
fn opened(rt: &(impl Abort + Wait), alloc: Global, book: &Book, letters: &[u8]) -> Vec<Pass> {
    let mut passes = Vec::new(alloc);
    for letter in letters {
        match open(rt, alloc, book, *letter) {
            Some(pass) => assert!(rt; passes.push(pass).is_ok()),
            None => panic!(rt; "not opened"),
        }
    }
    passes
}

/// Records the writes of the values from 1 to `values`, which have to be accepted.
fn assert_records(
    rt: &(impl Abort + Wait),
    alloc: Global,
    book: &Book,
    pass: &mut Pass,
    values: u64,
) {
    for before in 0..values {
        assert!(rt; record(rt, alloc, book, pass, before + 1).is_some_and(|r| r.is_ok()));
    }
}

/// A session without its pass is reported as missing, the least one first, and nothing is lost by it: book and pass record on.
#[test]
fn missing_passes(rt: HostRuntime) {
    let alloc = rt.alloc();
    let book = new_book(&rt, alloc);
    let others = opened(&rt, alloc, &book, b"cb");
    let passes = opened(&rt, alloc, &book, b"a");
    let missing = session(b'b').map(|session| WholeFault::MissingPass { session });
    assert_eq!(rt; book.whole(&rt, alloc, &passes).err(), missing);
    let Err((fault, book, mut passes)) = book.close(&rt, alloc, passes) else {
        panic!(rt; "whole without a pass");
    };
    assert_eq!(rt; Some(fault), missing);
    for pass in passes.iter_mut() {
        assert_records(&rt, alloc, &book, pass, 2);
    }
    for mut pass in others {
        assert_records(&rt, alloc, &book, &mut pass, 1);
        assert!(rt; passes.push(pass).is_ok());
    }
    let Ok(whole) = book.whole(&rt, alloc, &passes) else {
        panic!(rt; "not whole");
    };
    for pass in &passes {
        assert!(rt; has_exactly(&whole, pass));
    }
    let closed = book.close(&rt, alloc, passes);
    assert!(rt; closed.is_ok_and(|closed| closed.is_same(&whole)));
}

/// A pass of another book is reported as torn, the least one first.
#[test]
fn torn_passes(rt: HostRuntime) {
    let alloc = rt.alloc();
    let (book, other) = (new_book(&rt, alloc), new_book(&rt, alloc));
    let mut passes = opened(&rt, alloc, &other, b"cab");
    for pass in passes.iter_mut() {
        let session = *pass.session();
        let refused = record(&rt, alloc, &book, pass, 1);
        let torn = RecordFault::Torn { session };
        assert!(rt; refused.is_some_and(|r| r.is_err_and(|e| e.0 == torn)));
        let torn = SealFault::Torn { session };
        assert_eq!(rt; book.seal(&rt, alloc, pass).err(), Some(torn));
    }
    let torn = session(b'a').map(|session| WholeFault::Torn { session });
    assert_eq!(rt; book.whole(&rt, alloc, &passes).err(), torn);
}

/// A session is opened once, even if it has recorded nothing yet, and up to a fixed number of sessions are.
#[test]
fn openings(rt: HostRuntime) {
    let alloc = rt.alloc();
    let book = new_book(&rt, alloc);
    for mut pass in opened(&rt, alloc, &book, b"0") {
        let again = book.open(&rt, alloc, *pass.session()).err();
        assert_eq!(rt; again, Some(OpenFault::Taken { held: 0 }));
        assert_records(&rt, alloc, &book, &mut pass, 3);
        let again = book.open(&rt, alloc, *pass.session()).err();
        assert_eq!(rt; again, Some(OpenFault::Taken { held: 3 }));
    }
    let letters = b"123456789abcdefghijklmnopqrstuvwxyzABCDEFGHIJKLMNOPQRSTUVWXYZ_.";
    assert_eq!(rt; letters.len() + 1, MAX_SESSIONS);
    opened(&rt, alloc, &book, letters);
    let many = book.open(&rt, alloc, name(&rt, "no")).err();
    assert_eq!(rt; many, Some(OpenFault::TooManySessions { held: 64 }));
}

/// Whether one session has all that a book can hold, and the other nothing.
fn is_full(rt: &impl Abort, snapshot: &Snapshot) -> bool {
    for (session, held) in [("a", MAX_TRANSACTIONS), ("b", 0)] {
        match finished_by(snapshot, &name(rt, session)) {
            Some(txns) if txns.len() == held => {}
            _ => return false,
        }
    }
    true
}

/// A full book returns the transaction, and is sealed, made whole and closed with all that it holds: so no call gives up at fewer.
#[test]
fn full_book(rt: HostRuntime) {
    let alloc = rt.alloc();
    let book = new_book(&rt, alloc);
    let mut passes = Vec::new(alloc);
    for mut a in opened(&rt, alloc, &book, b"a") {
        assert_records(&rt, alloc, &book, &mut a, MAX_TRANSACTIONS as u64);
        assert!(rt; passes.push(a).is_ok());
    }
    for mut b in opened(&rt, alloc, &book, b"b") {
        let Some(Err((fault, back))) = record(&rt, alloc, &book, &mut b, 7) else {
            panic!(rt; "recorded in a full book");
        };
        assert_eq!(rt; fault, RecordFault::Full { held: 4095 });
        assert!(rt; back.ops().first().is_some_and(|op| op.value() == 7));
        assert!(rt; b.recorded().is_empty());
        assert!(rt; passes.push(b).is_ok());
    }
    for pass in &passes {
        let sealed = book.seal(&rt, alloc, pass);
        assert!(rt; sealed.is_ok_and(|sealed| is_full(&rt, &sealed) && has_exactly(&sealed, pass)));
    }
    let whole = book.whole(&rt, alloc, &passes);
    assert!(rt; whole.is_ok_and(|whole| is_full(&rt, &whole)));
    let closed = book.close(&rt, alloc, passes);
    assert!(rt; closed.is_ok_and(|closed| is_full(&rt, &closed)));
}
