//! What no clause says about `Rows`. With memory, and readers that do not fail, it gives the answers. The tests also show how it meets
//! readers that fail, and that it asks a reader for no more after its end.
use std::alloc::Global;
use std::cell::Cell;
use std::io::{self, ErrorKind, Read};
use std::process::Abort;
use std::test::Fail;
use tcc_rows::{Item, RowFault, RowFaultKind as Kind, Rows};

// Two transactions, one of them aborted, and a seal: seven records.
const TEXT: &[u8] = b"a,begin\nb,begin\na,w,x,1\nb,r,y,0\na,commit\nseal\nb,abort\n";

// Takes every item off: how many there were before the end or the fault, and the fault.
fn run_out<R: Read + Drop>(
    rt: &impl Abort,
    alloc: Global,
    rows: &mut Rows<R>,
) -> (u64, Option<RowFault>) {
    let mut items = 0u64;
    for _ in 0..u64::MAX {
        match rows.next(alloc) {
            Ok(Item::End) => return (items, None),
            Ok(_) => items = items.saturating_add(1),
            Err(fault) => return (items, Some(fault)),
        }
    }
    panic!(rt; "the rows have no end")
}

// This many items, and then this fault or the end, again and again.
fn gives<R: Read + Drop>(
    rt: &impl Abort,
    alloc: Global,
    reader: R,
    items: u64,
    fault: &Option<RowFault>,
) {
    let Ok(mut rows) = Rows::new(alloc, reader) else {
        panic!(rt; "no memory");
    };
    let (count, end) = run_out(rt, alloc, &mut rows);
    assert_eq!(rt; count, items);
    assert!(rt; end == *fault);
    let (more, again) = run_out(rt, alloc, &mut rows);
    assert_eq!(rt; more, 0);
    assert!(rt; again == *fault);
}

// The bytes, at most `most` at a time, and then an error, where there is one.
#[derive(Drop)]
struct Pieces<'a> {
    bytes: &'a [u8],
    most: usize,
    error: Option<ErrorKind>,
}

impl Read for Pieces<'_> {
    fn read(&mut self, buf: &mut [u8]) -> io::Result<usize> {
        if self.bytes.is_empty() {
            if let Some(kind) = self.error {
                return Err(io::Error::from(kind));
            }
        }
        let count = self.bytes.len().min(buf.len()).min(self.most);
        buf[..count].copy_from_slice(&self.bytes[..count]);
        self.bytes = &self.bytes[count..];
        Ok(count)
    }
}

// Some bytes, then an end, and then a line again and again, as a terminal may give them. It counts
// how often it was asked after its end.
#[derive(Drop)]
struct Reviving<'a> {
    bytes: &'a [u8],
    ended: bool,
    asked: &'a Cell<u32>,
}

impl Read for Reviving<'_> {
    fn read(&mut self, buf: &mut [u8]) -> io::Result<usize> {
        if self.ended {
            self.asked.set(self.asked.get().saturating_add(1));
            self.bytes = b"seal\n";
        }
        let count = self.bytes.len().min(buf.len());
        buf[..count].copy_from_slice(&self.bytes[..count]);
        self.bytes = &self.bytes[count..];
        self.ended = self.ended || count == 0;
        Ok(count)
    }
}

// How many records end in the bytes; each is a line.
fn lines_of(bytes: &[u8]) -> u64 {
    bytes.iter().filter(|byte| **byte == b'\n').count() as u64
}

// What an item is, and for a transaction whether it committed, and how many operations it has.
fn told(item: &Item) -> (&[u8], Option<(bool, usize)>) {
    match item {
        Item::Finished(session, txn) => (session.bytes(), Some((txn.committed(), txn.ops().len()))),
        Item::Unknown(session, txn) => (session.bytes(), Some((txn.committed(), txn.ops().len()))),
        Item::Seal => (b"a seal", None),
        Item::End => (b"the end", None),
    }
}

#[test]
fn gives_what_was_finished(rt: HostRuntime) -> Result<(), Fail> {
    let alloc = rt.alloc();
    let mut rows = Rows::new(alloc, TEXT)?;
    for (what, wanted) in [
        ("a", Some((true, 1))),
        ("a seal", None),
        ("b", Some((false, 1))),
        ("the end", None),
    ] {
        match rows.next(alloc) {
            Ok(item) => assert!(rt; told(&item) == (what.as_bytes(), wanted), "{what}"),
            Err(fault) => panic!(rt; "{fault} before {what}"),
        }
    }
    Ok(())
}

// A reader that fails after any number of bytes: the items of the lines before, and the row after them. The commit is line 5, the seal line
// 6, the abort line 7.
#[test]
fn readers_that_fail(rt: HostRuntime) {
    let alloc = rt.alloc();
    for length in 0..TEXT.len() + 1 {
        let lines = lines_of(&TEXT[..length]);
        for kind in [ErrorKind::Other, ErrorKind::Interrupted] {
            let reader = Pieces {
                bytes: &TEXT[..length],
                most: 7,
                error: Some(kind),
            };
            let fault = Some(RowFault {
                row: lines.saturating_add(1),
                kind: Kind::Read,
            });
            gives(&rt, alloc, reader, lines.saturating_sub(4), &fault);
        }
    }
}

// However many bytes come at a time.
#[test]
fn readers_that_give_little(rt: HostRuntime) {
    let alloc = rt.alloc();
    for most in 1..9 {
        let reader = Pieces {
            bytes: TEXT,
            most,
            error: None,
        };
        gives(&rt, alloc, reader, 3, &None);
    }
}

// An end within the first three bytes, after a line, and after a record that no line feed ends.
#[test]
fn the_end_is_final(rt: HostRuntime) {
    let alloc = rt.alloc();
    for (text, items, row) in [
        ("", 0, 0),
        ("\n", 0, 0),
        ("\n\n", 0, 0),
        ("\n\n\n", 0, 0),
        ("\u{feff}", 0, 0),
        ("a", 0, 1),
        ("ab", 0, 1),
        ("abc", 0, 1),
        ("seal", 1, 0),
        ("seal\n", 1, 0),
        ("seal\nse", 1, 2),
    ] {
        let asked = Cell::new(0);
        let reader = Reviving {
            bytes: text.as_bytes(),
            ended: false,
            asked: &asked,
        };
        let kind = Kind::UnknownWord;
        let fault = if row == 0 {
            None
        } else {
            Some(RowFault { row, kind })
        };
        gives(&rt, alloc, reader, items, &fault);
        assert_eq!(rt; asked.get(), 0, "{text}");
    }
}

// Whatever allocation is refused, there is the end, or `NoMemory` at a row that was reached.
#[test]
fn memory_refused(rt: HostRuntime) {
    let alloc = rt.alloc();
    let Ok(mut rows) = Rows::new(alloc, TEXT) else {
        return;
    };
    let (items, end) = run_out(&rt, alloc, &mut rows);
    let Some(fault) = end else {
        assert_eq!(rt; items, 3);
        return;
    };
    assert!(rt; items <= 3 && fault.row >= 1 && fault.row <= 7);
    assert!(rt; fault.kind == Kind::NoMemory);
    let (more, again) = run_out(&rt, alloc, &mut rows);
    assert_eq!(rt; more, 0);
    assert!(rt; again == Some(fault));
}

// As many seals as there may be, and one more: its record is the fault.
#[test]
fn seals_past_the_last(rt: HostRuntime) -> Result<(), Fail> {
    let alloc = rt.alloc();
    let mut text = Vec::new(alloc);
    for _ in 0..257 {
        text.extend_from_slice(b"seal\n")?;
    }
    let fault = Some(RowFault {
        row: 257,
        kind: Kind::TooManySeals,
    });
    gives(&rt, alloc, text.as_slice(), 256, &fault);
    Ok(())
}

// A reader that never ends is given up, within one record or before the first.
#[test]
fn readers_without_an_end(rt: HostRuntime) {
    let alloc = rt.alloc();
    let fault = Some(RowFault {
        row: 1,
        kind: Kind::Read,
    });
    for byte in [b'a', b'\n'] {
        gives(&rt, alloc, io::repeat(byte), 0, &fault);
    }
}
