//! What no clause says: that there is an answer, which one it is, and which refusal is returned.
use crate::answers::{OWN_TEXT, text_of};
use crate::books::{audited, opened, record, recorder};
use std::alloc::Global;
use std::process::Abort;
use std::sync::Wait;
use std::test::Fail;
use std::thread;
use std::thread::Threads;
use tcc_answer::Answer;
use tcc_book::{Book, Pass, WholeFault};
use tcc_explain::{ExplainFault, OpenGate, Workers};
use tcc_graph::Level;
use tcc_run::{AuditFault, audit};
use tcc_txn::{MAX_SESSIONS, MAX_TRANSACTIONS, Name, Op, Txn};

/// Whether the audit gives the text.
fn gives(
    rt: &(impl Threads + Wait + Sync),
    alloc: Global,
    book: &Book,
    passes: &[Pass],
    text: &str,
) -> bool {
    let Some(two) = Workers::new(2) else {
        return false;
    };
    for level in [Level::Causal, Level::Atomic] {
        let Ok(answer) = audit(rt, alloc, book, passes, level, two, &OpenGate) else {
            return false;
        };
        if !text_of(alloc, &answer).is_some_and(|out: Vec<u8>| out.as_slice() == text.as_bytes()) {
            return false;
        }
    }
    true
}

/// What recorders leave that record side by side, each in a thread of its own; none where one of them was refused.
fn recorded(
    rt: &(impl Threads + Wait + Sync),
    alloc: Global,
    book: &Book,
    passes: Vec<Pass>,
) -> Option<Vec<Pass>> {
    let ends = thread::map_vec(rt, passes, &|pass| recorder(rt, alloc, book, pass)).ok()?;
    let mut recorded = Vec::new(alloc);
    for end in ends {
        recorded.push(end?).ok()?;
    }
    Some(recorded)
}

/// What recorders leave that record one after another, in this order; none where one of them was refused.
fn one_by_one(rt: &impl Wait, alloc: Global, book: &Book, passes: Vec<Pass>) -> Option<Vec<Pass>> {
    let mut recorded = Vec::new(alloc);
    for pass in passes {
        recorded.push(recorder(rt, alloc, book, pass)?).ok()?;
    }
    Some(recorded)
}

/// The text of an audit is that of the two recorders, once it has both their passes.
fn assert_audited(
    rt: &(impl Abort + Threads + Wait + Sync),
    alloc: Global,
    book: &Book,
    recorded: Vec<Pass>,
) {
    let mut passes = Vec::new(alloc);
    for pass in recorded {
        let missed = audited(rt, alloc, book, &passes);
        assert!(rt;
            matches!(
                missed,
                Err(AuditFault::Whole(WholeFault::MissingPass { .. }))
            )
        );
        assert!(rt; passes.push(pass).is_ok());
    }
    assert!(rt; gives(rt, alloc, book, &passes, OWN_TEXT));
}

/// Two recorders in threads of their own: the text is the same whichever records first, and in whatever order their passes come. A session
/// without its pass is reported as missing, and afterwards book and passes work on.
#[test]
fn two_recorders(rt: HostRuntime) {
    let alloc = rt.alloc();
    for (sessions, in_turn) in [
        ([b"a", b"b"], false),
        ([b"a", b"b"], true),
        ([b"b", b"a"], true),
    ] {
        let Ok(book) = Book::new(alloc) else {
            panic!(rt; "no memory");
        };
        let Some(passes) = opened(&rt, alloc, &book, &[sessions[0], sessions[1]]) else {
            panic!(rt; "not opened");
        };
        let recorded = if in_turn {
            one_by_one(&rt, alloc, &book, passes)
        } else {
            recorded(&rt, alloc, &book, passes)
        };
        let Some(recorded) = recorded else {
            panic!(rt; "a recorder was refused");
        };
        assert_audited(&rt, alloc, &book, recorded);
    }
}

/// A read that no write explains is named, and afterwards book and pass work on.
#[test]
fn unresolved(rt: HostRuntime) {
    let alloc = rt.alloc();
    let Ok(book) = Book::new(alloc) else {
        panic!(rt; "no memory");
    };
    let Some(mut passes) = opened(&rt, alloc, &book, &[b"a"]) else {
        panic!(rt; "not opened");
    };
    let Ok(key) = Name::read(b"x") else {
        panic!(rt; "no name");
    };
    for value in [7, 8] {
        for pass in &mut passes {
            let done = record(&rt, alloc, &book, pass, Op::Get { key, value });
            assert!(rt; done.is_some());
        }
        match audited(&rt, alloc, &book, &passes) {
            Err(AuditFault::Explain(ExplainFault::Reads(faults))) => {
                assert_eq!(rt; faults.len() as u64, value - 6);
            }
            _ => panic!(rt; "no read fault"),
        }
    }
}

/// The sessions of a full book.
const LETTERS: &[u8] = b"0123456789abcdefghijklmnopqrstuvwxyzABCDEFGHIJKLMNOPQRSTUVWXYZ_.";

/// Records `times` transactions without operations.
fn idle(rt: &impl Wait, alloc: Global, book: &Book, pass: &mut Pass, times: usize) -> Option<()> {
    for _ in 0..times {
        let txn = Txn::new(Vec::new(alloc), true).ok()?;
        book.record(rt, alloc, pass, txn).ok()?;
    }
    Some(())
}

/// The passes of as many sessions as there may be. Each has recorded 64 transactions, and the last one fewer: as many as there may be.
fn full(rt: &impl Wait, alloc: Global, book: &Book) -> Option<Vec<Pass>> {
    let mut passes = Vec::new(alloc);
    let mut left = MAX_TRANSACTIONS;
    for letter in LETTERS {
        let mut pass = book.open(rt, alloc, Name::read(&[*letter]).ok()?).ok()?;
        let times = left.min(64);
        idle(rt, alloc, book, &mut pass, times)?;
        left -= times;
        passes.push(pass).ok()?;
    }
    Some(passes)
}

/// A full book of 64 sessions has an answer for all that they recorded: no call gives up at fewer.
#[test]
fn full_book(rt: HostRuntime) {
    let alloc = rt.alloc();
    assert_eq!(&rt; LETTERS.len(), MAX_SESSIONS);
    let book = Book::new(alloc).expect(&rt, "a book");
    let passes = full(&rt, alloc, &book).expect(&rt, "room");
    match audited(&rt, alloc, &book, &passes) {
        Ok(Answer::Commit(commit)) => {
            assert_eq!(&rt; commit.sessions(), 64);
            assert_eq!(&rt; commit.order().len(), 4096);
        }
        _ => panic!(&rt; "no order"),
    }
}
