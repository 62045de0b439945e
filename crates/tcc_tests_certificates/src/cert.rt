//! Certificates of worked histories, writers that fail, altered texts, and readers that fail.
mod large;
mod parts;
mod rows;
mod streams;
mod texts;

use std::alloc::{AllocError, Global};
use std::io::ErrorKind;
use std::process::Abort;
use std::test::Fail;
use streams::{Failing, Fault, Faulty, gives_twice, nothing_held};
use tcc_base::send;
use tcc_cert::{CertFault, CertFaultKind, CertWriteFault, Certificate, read, write};
use texts::{STALE_READ, STALE_READ_UPWARD, TEXTS, altered};

/// The certificate that a text is.
fn certificate_of(rt: &impl Abort, alloc: Global, text: &str) -> Certificate {
    match read(alloc, text.as_bytes()) {
        Ok(certificate) => certificate,
        Err(_) => panic!(rt; "{text:?} is no certificate"),
    }
}

/// What a writer with room for this many bytes takes of a stale read's text.
fn assert_part(
    rt: &impl Abort,
    alloc: Global,
    certificate: &Certificate,
    room: usize,
    fault: Fault,
    wanted: Result<(), CertWriteFault>,
) {
    let text = STALE_READ.as_bytes();
    let part = text.get(..room).unwrap_or(text);
    let mut out = Faulty {
        taken: Vec::new(alloc),
        room,
        fault,
    };
    assert_eq!(rt;
        write(certificate, &mut out),
        wanted,
        "{fault:?} after {room}"
    );
    assert_eq!(rt; out.taken.as_slice(), part, "{fault:?} after {room}");
    let mut sent = Faulty {
        taken: Vec::new(alloc),
        room,
        fault,
    };
    assert_eq!(rt;
        send(&mut sent, text).is_ok(),
        wanted.is_ok(),
        "{fault:?} after {room}"
    );
    assert_eq!(rt; sent.taken.as_slice(), part, "{fault:?} after {room}");
}

// The text is written up to the byte that is refused, whatever the refusal is.
#[test]
fn writer_fails(rt: HostRuntime) -> Result<(), Fail> {
    let alloc = rt.alloc();
    let certificate = certificate_of(&rt, alloc, STALE_READ);
    let failed = Err(CertWriteFault::Device);
    for fault in [
        Fault::Fails(ErrorKind::Other),
        Fault::TakesNone,
        Fault::IsInterrupted,
    ] {
        for room in 0..STALE_READ.len() {
            assert_part(&rt, alloc, &certificate, room, fault, failed);
        }
    }
    let all = STALE_READ.len();
    assert_part(&rt, alloc, &certificate, all, Fault::TakesNone, Ok(()));
    assert_part(&rt, alloc, &certificate, all, Fault::KeepsAll, failed);
    Ok(())
}

// What was written is read, and written again it is the same; its last line is flushed too.
#[test]
fn worked_texts_are_read(rt: HostRuntime) {
    let alloc = rt.alloc();
    for text in TEXTS {
        let certificate = certificate_of(&rt, alloc, text);
        let mut out = Vec::new(alloc);
        assert_eq!(&rt; write(&certificate, &mut out), Ok(()));
        assert_eq!(&rt; out.as_slice(), text.as_bytes(), "for {text:?}");
        let mut held = nothing_held(alloc);
        assert_eq!(&rt; write(&certificate, &mut held), Ok(()));
        assert_eq!(&rt; held.taken.as_slice(), text.as_bytes(), "for {text:?}");
    }
}

/// A text of whatever version that was read has this fault first.
fn assert_fault<T: Drop>(
    rt: &impl Abort,
    found: Result<T, CertFault>,
    line: u64,
    kind: CertFaultKind,
) {
    match found {
        Ok(_) => panic!(rt; "a certificate is read"),
        Err(fault) => assert_eq!(rt; (fault.line, fault.kind), (line, kind)),
    }
}

/// The number of the line that begins after the last line feed.
fn line_begun(text: &[u8]) -> u64 {
    text.split(|&byte| byte == b'\n').count() as u64
}

/// These texts cut after each byte but the last, with the number of the line that was begun.
fn cuts<'a>(alloc: Global, texts: &[&'a str]) -> Result<Vec<(&'a [u8], u64)>, Fail> {
    let mut cuts = Vec::new(alloc);
    for text in texts {
        for count in 0..text.len() {
            let part = &text.as_bytes()[..count];
            cuts.push((part, line_begun(part)))?;
        }
    }
    Ok(cuts)
}

// The line that was begun has no line feed.
#[test]
fn cut_texts(rt: HostRuntime) -> Result<(), Fail> {
    let alloc = rt.alloc();
    for (part, line) in cuts(alloc, &TEXTS)? {
        assert_fault(&rt, read(alloc, part), line, CertFaultKind::Truncated);
    }
    Ok(())
}

// The reader fails after each number of bytes, all of them too.
#[test]
fn reader_fails(rt: HostRuntime) {
    let alloc = rt.alloc();
    for most in [1, 100] {
        for count in 0..STALE_READ.len() + 1 {
            let text = &STALE_READ.as_bytes()[..count];
            let line = line_begun(text);
            let reader = Failing { text, most };
            assert_fault(&rt, read(alloc, reader), line, CertFaultKind::Read);
        }
    }
    let text = b"tcc-certificate 1\nring\n";
    let reader = Failing { text, most: 5 };
    assert_fault(&rt, read(alloc, reader), 2, CertFaultKind::Word);
}

// However many bytes come at a time, the text is read, and no further than its end.
#[test]
fn pieces(rt: HostRuntime) {
    let alloc = rt.alloc();
    let trailing = "tcc-certificate 1\norder 1 0\n0\nclocks\n\nend\nx";
    let whole = trailing.len() - 1;
    for most in [1, 7, 46, 100] {
        for text in TEXTS {
            let reader = gives_twice(text, most, text.len());
            assert!(&rt; read(alloc, reader).is_ok(), "{text:?} by {most}");
        }
        // The end is final: nothing after it is asked for.
        let reader = gives_twice(trailing, most, whole);
        assert!(&rt; read(alloc, reader).is_ok(), "by {most}");
        let reader = gives_twice(trailing, most, whole - 1);
        assert_fault(&rt, read(alloc, reader), 6, CertFaultKind::Truncated);
    }
}

/// The parts of a text before and after a mark in it.
fn halves<'a>(rt: &impl Abort, text: &'a str, mark: char) -> (&'a str, &'a str) {
    match text.split_once(mark) {
        Some(halves) => halves,
        None => panic!(rt; "no {mark} in {text}"),
    }
}

/// A number that the test writes out.
fn number(rt: &impl Abort, text: &str) -> usize {
    match text.parse::<usize>() {
        Ok(number) => number,
        Err(_) => panic!(rt; "{text} is no number"),
    }
}

/// The result for a text of whatever version: that it is accepted, or the line and the kind of its fault.
fn outcome<T: Drop>(alloc: Global, found: Result<T, CertFault>) -> Result<String, AllocError> {
    match found {
        Ok(_) => format!(in alloc; "taken"),
        Err(fault) => format!(in alloc; "{} {:?}", fault.line, fault.kind),
    }
}

/// Each row of the table has the number of a line of the text, counted from 1, the result with another line in its place,
/// and that line.
fn assert_altered(
    rt: &impl Abort,
    alloc: Global,
    text: &str,
    table: &str,
) -> Result<(), AllocError> {
    for row in table.lines() {
        let (line, rest) = halves(rt, row, ':');
        let (wanted, other) = halves(rt, rest, '|');
        let changed = altered(alloc, text, number(rt, line), other)?;
        let found = outcome(alloc, read(alloc, changed.as_slice()))?;
        assert_eq!(rt; found.as_str(), wanted, "for {other:?} at {line}");
    }
    Ok(())
}

/// Alterations of the stale read.
const ALTERED: &str = "\
    1:1 Header|tcc-certificate 2\n\
    1:1 Header|tcc-certificate 1 causal\n\
    1:1 Header|tcc-certificate 3 causal\n\
    1:1 Header|tcc-certificate  1\n\
    1:1 Header|tcc-certificate 1 \n\
    1:1 Header|\n\
    2:2 Word|ring 3 2 3\n\
    2:2 Word|ring 3 2\n\
    2:2 Word|\n\
    2:2 Word| cycle 3 2 3\n\
    2:2 Count|cycle 3 2\n\
    2:2 Count|cycle 3 2 3 \n\
    2:2 Count|cycle  3 2 3\n\
    2:2 Count|cycle 03 2\n\
    2:2 Number|cycle 03 2 3\n\
    2:2 Number|cycle 0 2 3\n\
    2:2 Number|cycle 3 0 3\n\
    2:2 Number|cycle +3 2 3\n\
    2:2 Number|cycle 3  3\n\
    2:2 TooLarge|cycle 1025 2 3\n\
    2:2 TooLarge|cycle 3 1025 3\n\
    2:2 TooLarge|cycle 3 2 1049601\n\
    2:2 TooLarge|cycle 1025 x 3\n\
    2:2 Number|cycle x 1025 3\n\
    2:2 TooLarge|cycle 18446744073709551619 2 3\n\
    2:2 TooLarge|order 3 65\n\
    2:2 Count|order 3\n\
    3:3 Word|T 0 1\n\
    3:3 Word|s 0 1\n\
    3:3 Count|S 0\n\
    3:3 Count|S 0 1 x\n\
    3:3 TooLarge|S 0 1024\n\
    3:3 Number|S 00 1\n\
    3:3 Count|R 0 1\n\
    3:3 Word|R 0 1 x?\n\
    3:3 Word|R 0 1 \n\
    3:3 TooLarge|R 0 1024 ?\n\
    4:4 Count|D 1 0 x 2\n\
    4:4 Number|D 1 0 x 2 0\n\
    4:4 TooLarge|D 1 0 x 2 1025\n\
    4:4 Word|D 1 0 ! 1024 1\n\
    4:4 Number|D 1 x ! 1024 1\n\
    5:5 Word|D 1 0 x 2 1\n\
    5:5 Count|S 1 2 3\n\
    6:6 Word|far\n\
    6:6 Count|near 1\n\
    6:6 Word|\n\
    7:7 Count|3 1\n\
    7:7 Count|3 1 1 \n\
    7:7 Count| 3 1 1\n\
    7:7 Count|x 1\n\
    7:7 Count|\n\
    7:7 Number|3 1 01\n\
    7:7 Number|3  1\n\
    7:7 TooLarge|1049601 x 1\n\
    7:7 Number|x 1049601 1\n\
    10:10 Word|near\n\
    14:14 Word|done\n\
    14:14 Count|end \n";

/// Alterations of the stale read in version 2. Version 2 accepts what version 1 has no room for. Where a count is accepted,
/// there are then fewer lines or numbers.
const ALTERED_UPWARD: &str = "\
    1:1 Header|tcc-certificate 2\n\
    1:1 Header|tcc-certificate 2 \n\
    1:1 Header|tcc-certificate 2 causal \n\
    2:2 TooLarge|cycle 4097 2 3\n\
    2:2 TooLarge|cycle 3 4097 3\n\
    2:2 TooLarge|cycle 3 2 16781313\n\
    2:2 TooLarge|order 3 65\n\
    3:3 TooLarge|S 0 4096\n\
    4:4 TooLarge|D 1 0 x 2 4097\n\
    7:7 TooLarge|3 1 16781313\n\
    7:7 Count|3 1\n\
    11:11 Count|3 1\n\
    12:12 Count|3 1 1\n\
    12:12 Count|2 3 1\n\
    12:12 Count|3\n\
    13:13 Count|3 3\n\
    13:13 Count|\n\
    2:taken|cycle 3 2 1049601\n\
    2:taken|cycle 3 2 16781312\n\
    3:taken|S 0 1024\n\
    3:taken|S 4095 1\n\
    7:taken|3 1 16781312\n\
    13:taken|1049601\n\
    2:7 Count|cycle 1025 2 3\n\
    2:7 Count|cycle 4096 2 3\n\
    2:6 Word|cycle 3 1025 3\n\
    4:6 Word|D 1 0 x 2 1025\n";

#[test]
fn altered_lines(rt: HostRuntime) -> Result<(), Fail> {
    assert_altered(&rt, rt.alloc(), STALE_READ, ALTERED)?;
    assert_altered(&rt, rt.alloc(), STALE_READ_UPWARD, ALTERED_UPWARD)?;
    Ok(())
}

#[test]
fn trailing_bytes(rt: HostRuntime) -> Result<(), Fail> {
    let alloc = rt.alloc();
    for more in [b'\n', b'x'] {
        let mut text = STALE_READ.as_bytes().to_vec(alloc)?;
        text.push(more)?;
        assert_fault(
            &rt,
            read(alloc, text.as_slice()),
            15,
            CertFaultKind::Trailing,
        );
    }
    Ok(())
}

/// A first line, how many bytes come after it, and what is wrong with them: as a line, where the input ends, and where the
/// reader fails.
type Long<'a> = (&'a str, usize, CertFaultKind, CertFaultKind, CertFaultKind);

fn assert_long(rt: &impl Abort, alloc: Global, row: Long<'_>) -> Result<(), AllocError> {
    let (before, count, whole, ended, failed) = row;
    let line = line_begun(before.as_bytes());
    let mut text = before.as_bytes().to_vec(alloc)?;
    text.extend_from_slice(vec![in alloc; b'a'; count]?.as_slice())?;
    assert_fault(rt, read(alloc, text.as_slice()), line, ended);
    let reader = Failing {
        text: text.as_slice(),
        most: 1000,
    };
    assert_fault(rt, read(alloc, reader), line, failed);
    text.push(b'\n')?;
    assert_fault(rt, read(alloc, text.as_slice()), line, whole);
    Ok(())
}

// A line has at most 8,191 bytes and a line feed, in version 2 after the first at most 36,863, however the reader goes on.
#[test]
fn long_lines(rt: HostRuntime) -> Result<(), Fail> {
    use CertFaultKind::{Header, Read, TooLarge, Truncated, Word};
    let rows = [
        ("", 8191, Header, Truncated, Read),
        ("", 8192, TooLarge, TooLarge, TooLarge),
        ("tcc-certificate 1 atomic\n", 8191, Word, Truncated, Read),
        ("tcc-certificate 1\n", 8192, TooLarge, TooLarge, TooLarge),
        ("tcc-certificate 2 causal\n", 8192, Word, Truncated, Read),
        ("tcc-certificate 2 atomic\n", 36_863, Word, Truncated, Read),
        (
            "tcc-certificate 2 causal\n",
            36_864,
            TooLarge,
            TooLarge,
            TooLarge,
        ),
    ];
    for row in rows {
        assert_long(&rt, rt.alloc(), row)?;
    }
    Ok(())
}
