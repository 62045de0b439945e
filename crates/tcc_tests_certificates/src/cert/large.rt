//! Certificates of version 3, and readers that are picked by the first line.
use super::streams::Failing;
use super::texts::{NO_CLOCKS, STALE_READ, STALE_READ_UPWARD, altered};
use super::{assert_fault, cuts, halves, number, outcome};
use std::test::Fail;
use tcc_cert::{CertFaultKind, VersionReader, read_large, reader_of, write_large};

const NO_RUNS: &str = "tcc-certificate 3 causal\norder 1 0 0\nend\n";

const RUNS: &str = "tcc-certificate 3 causal\norder 11 2 3\n0 4\n1 5\n0 1\nend\n";

const LEAST_STALE_READ: &str =
    "tcc-certificate 3 causal\ncycle 3 2 3\nS 0 1\nD 1 0 x 2 1\nS 1 2\nleast 0\nend\n";

const NO_LEAST: &str =
    "tcc-certificate 3 atomic\ncycle 4 2 4\nD 1 2 x 3 1\nR 1 3 x\nD 2 1 x 3 1\nR 2 3 x\nend\n";

const FIVE_STEPS: &str = "tcc-certificate 3 causal\ncycle 5 2 5\nS 0 1\nD 1 0 x 4 3\nR 1 2 x\n\
    R 2 3 y\nS 3 4\nleast 3\n0 1\n1 1\n2 2\nend\n";

/// The greatest numbers that a text may have.
const GREATEST: &str = "tcc-certificate 3 atomic\ncycle 16777216 1 4294967295\n\
    R 16777215 16777215 x\nleast 1\n65534 16777215\nend\n";

const TEXTS: [&str; 6] = [
    NO_RUNS,
    RUNS,
    LEAST_STALE_READ,
    NO_LEAST,
    FIVE_STEPS,
    GREATEST,
];

// What was read is written as it was.
#[test]
fn worked_texts_are_read(rt: HostRuntime) {
    let alloc = rt.alloc();
    for text in TEXTS {
        match read_large(alloc, text.as_bytes()) {
            Ok(certificate) => {
                let mut out = Vec::new(alloc);
                assert_eq!(&rt; write_large(&certificate, &mut out), Ok(()));
                assert_eq!(&rt; out.as_slice(), text.as_bytes(), "for {text:?}");
            }
            Err(fault) => panic!(&rt; "{text:?}: {fault:?}"),
        }
    }
}

// The text ends there, or its reader fails.
#[test]
fn cut_texts(rt: HostRuntime) -> Result<(), Fail> {
    let alloc = rt.alloc();
    for (text, line) in cuts(alloc, &TEXTS)? {
        let found = read_large(alloc, text);
        assert_fault(&rt, found, line, CertFaultKind::Truncated);
        let found = read_large(alloc, Failing { text, most: 10 });
        assert_fault(&rt, found, line, CertFaultKind::Read);
    }
    Ok(())
}

/// Alterations of the cycle of five steps, as those of the other versions are.
const ALTERED: &str = "\
    1:1 Header|tcc-certificate 3\n\
    1:1 Header|tcc-certificate 2 causal\n\
    2:2 Word|ring 5 2 5\n\
    2:2 Count|cycle 5 2\n\
    2:2 Count|order 5 2\n\
    2:3 Count|order 5 2 5\n\
    2:2 Number|cycle 05 2 5\n\
    2:2 Number|cycle 0 2 5\n\
    2:2 Number|cycle 5 0 5\n\
    2:2 TooLarge|cycle 16777217 2 5\n\
    2:2 TooLarge|cycle 5 16777217 5\n\
    2:2 TooLarge|cycle 5 2 4294967296\n\
    2:2 TooLarge|order 5 65536 5\n\
    2:2 TooLarge|order 5 4 16777216\n\
    2:8 Word|cycle 5 3 5\n\
    2:4 Word|cycle 5 1 5\n\
    3:3 TooLarge|S 0 16777216\n\
    4:4 Number|D 1 0 x 4 0\n\
    4:8 Word|D 1 0 x 4 4\n\
    4:4 TooLarge|D 1 0 x 4 16777217\n\
    8:8 Word|0 1\n\
    8:8 Word|\n\
    8:8 Word|leas 3\n\
    8:8 Count|least\n\
    8:8 Count|least 3 3\n\
    8:8 Number|least 03\n\
    8:8 TooLarge|least 16777216\n\
    8:11 Word|least 2\n\
    8:12 Count|least 4\n\
    8:9 Trailing|end\n\
    8:8 Count|end 3\n\
    9:9 Count|0\n\
    9:9 Count|\n\
    9:9 Count|0 1 \n\
    9:9 Count|least 3 x\n\
    9:9 Number|least 3\n\
    9:9 Number|0 0\n\
    9:9 Number|00 1\n\
    9:9 TooLarge|65535 1\n\
    9:9 TooLarge|0 16777216\n\
    9:taken|0 16777215\n\
    12:12 Word|3 1\n\
    12:12 Count|end \n";

#[test]
fn altered_lines(rt: HostRuntime) -> Result<(), Fail> {
    let alloc = rt.alloc();
    for row in ALTERED.lines() {
        let (line, rest) = halves(&rt, row, ':');
        let (wanted, other) = halves(&rt, rest, '|');
        let changed = altered(alloc, FIVE_STEPS, number(&rt, line), other)?;
        let found = outcome(alloc, read_large(alloc, changed.as_slice()))?;
        assert_eq!(&rt; found.as_str(), wanted, "for {other:?} at {line}");
    }
    Ok(())
}

// A line after the first has at most 127 bytes and a line feed.
#[test]
fn long_lines(rt: HostRuntime) -> Result<(), Fail> {
    let alloc = rt.alloc();
    for (count, kind) in [(127, CertFaultKind::Word), (128, CertFaultKind::TooLarge)] {
        let mut text = b"tcc-certificate 3 causal\n".as_slice().to_vec(alloc)?;
        text.extend_from_slice(vec![in alloc; b'a'; count]?.as_slice())?;
        text.push(b'\n')?;
        assert_fault(&rt, read_large(alloc, text.as_slice()), 2, kind);
    }
    Ok(())
}

// The reader is that of the version in the first line. A line of no version is reported by the reader of parts.
#[test]
fn readers_of_versions(rt: HostRuntime) -> Result<(), Fail> {
    let alloc = rt.alloc();
    for (text, wanted) in [
        (RUNS, "large taken"),
        (NO_LEAST, "large taken"),
        ("tcc-certificate 3 causal\nring\n", "large 2 Word"),
        (STALE_READ, "parts Ok"),
        (STALE_READ_UPWARD, "parts Ok"),
        (NO_CLOCKS, "parts Ok"),
        ("tcc-certificate 3\n", "parts 1 Header"),
        ("", "none 1 Truncated"),
        ("tcc-certificate 3 causal", "none 1 Truncated"),
    ] {
        let found = match reader_of(text.as_bytes()) {
            Ok(VersionReader::Large(reader)) => match reader.read(alloc) {
                Ok(_) => format!(in alloc; "large taken")?,
                Err(fault) => format!(in alloc; "large {} {:?}", fault.line, fault.kind)?,
            },
            Ok(VersionReader::Parts(mut reader)) => match reader.next(alloc) {
                Ok(_) => format!(in alloc; "parts Ok")?,
                Err(fault) => format!(in alloc; "parts {} {:?}", fault.line, fault.kind)?,
            },
            Err(fault) => format!(in alloc; "none {} {:?}", fault.line, fault.kind)?,
        };
        assert_eq!(&rt; found.as_str(), wanted, "for {text:?}");
    }
    Ok(())
}
