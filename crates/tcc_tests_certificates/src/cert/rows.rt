//! Texts row by row: each first line, and outputs that fail at each of their writes.
use super::streams::{Breaking, nothing_held};
use std::alloc::{AllocError, Global};
use std::process::Abort;
use std::test::Fail;
use tcc_cert::{CertWriteFault, CycleTable, CycleWriter, Links, Numbers, Table, Version};
use tcc_graph::{Level, Link};

fn one_link(alloc: Global) -> Result<Links, AllocError> {
    Ok(Links::new(vec![in alloc; Link::Session { from: 0, to: 1 }]?))
}

/// The text of one row of each table.
fn small(alloc: Global, version: Version, level: Level) -> Result<Vec<u8>, Fail> {
    let links = one_link(alloc)?;
    let mut out = Vec::new(alloc);
    let mut writer = CycleWriter::begin(&mut out, version, level, 1, &links, 3)?;
    writer.row(CycleTable::Near, &[1])?;
    writer.row(CycleTable::Far, &[2])?;
    writer.end()?;
    Ok(out)
}

#[test]
fn each_first_line(rt: HostRuntime) -> Result<(), Fail> {
    let alloc = rt.alloc();
    for (version, level, first) in [
        (Version::One, Level::Causal, "tcc-certificate 1\n"),
        (Version::One, Level::Atomic, "tcc-certificate 1 atomic\n"),
        (Version::Two, Level::Causal, "tcc-certificate 2 causal\n"),
        (Version::Two, Level::Atomic, "tcc-certificate 2 atomic\n"),
    ] {
        let mut wanted = first.as_bytes().to_vec(alloc)?;
        wanted.extend_from_slice(b"cycle 1 1 3\nS 0 1\nnear\n1\nfar\n2\nend\n")?;
        let text = small(alloc, version, level)?;
        assert_eq!(&rt; text.as_slice(), wanted.as_slice());
    }
    Ok(())
}

// Row by row too, the last line is flushed.
#[test]
fn the_end_is_flushed(rt: HostRuntime) -> Result<(), Fail> {
    let alloc = rt.alloc();
    let links = one_link(alloc)?;
    let mut out = nothing_held(alloc);
    let mut writer = CycleWriter::begin(&mut out, Version::One, Level::Causal, 1, &links, 3)?;
    writer.row(CycleTable::Near, &[1])?;
    writer.row(CycleTable::Far, &[2])?;
    writer.end()?;
    let wanted = "tcc-certificate 1\ncycle 1 1 3\nS 0 1\nnear\n1\nfar\n2\nend\n";
    assert_eq!(&rt; out.taken.as_slice(), wanted.as_bytes());
    Ok(())
}

/// Once a call has reported that a write failed, each later one does.
fn note(rt: &impl Abort, has_failed: &mut bool, answer: Result<(), CertWriteFault>) {
    if *has_failed {
        assert_eq!(rt; answer, Err(CertWriteFault::Device));
    }
    *has_failed = answer.is_err();
}

const ROWS: usize = 3;

/// Gives rows, as long as rows may be, to an output whose first `works` writes succeed. Returns the output, and whether a
/// write failed.
fn large(rt: &impl Abort, alloc: Global, works: usize) -> Result<(Breaking, bool), AllocError> {
    let links = one_link(alloc)?;
    let row = vec![in alloc; 7u32; 4095]?;
    let mut out = Breaking {
        taken: Vec::new(alloc),
        works,
    };
    let mut has_failed = false;
    match CycleWriter::begin(&mut out, Version::Two, Level::Causal, ROWS, &links, 3) {
        Ok(mut writer) => {
            for _ in 0..ROWS {
                note(
                    rt,
                    &mut has_failed,
                    writer.row(CycleTable::Near, row.as_slice()),
                );
            }
            for _ in 0..ROWS {
                note(
                    rt,
                    &mut has_failed,
                    writer.row(CycleTable::Far, row.as_slice()),
                );
            }
            note(rt, &mut has_failed, writer.end());
        }
        Err(_) => has_failed = true,
    }
    Ok((out, has_failed))
}

// A row of some 8,000 bytes is written in one write or two, and nothing more is written after a failure.
#[test]
fn failing_writes(rt: HostRuntime) -> Result<(), Fail> {
    let alloc = rt.alloc();
    let plenty = 1000;
    let (whole, has_failed) = large(&rt, alloc, plenty)?;
    assert!(&rt; !has_failed);
    let Some(writes) = plenty.checked_sub(whole.works) else {
        panic!(&rt; "fewer writes than none");
    };
    assert!(&rt; writes <= 4 * ROWS, "{writes} writes");
    // Each of the six rows has 4,095 digits and as many spaces and line feeds.
    assert_eq!(&rt;
        whole.taken.len(),
        25 + 12 + 6 + 5 + 2 * ROWS * 8190 + 4 + 4
    );
    for works in 0..writes {
        let (part, has_failed) = large(&rt, alloc, works)?;
        assert!(&rt; has_failed, "after {works} writes");
        assert!(&rt;
            whole.taken.as_slice().starts_with(part.taken.as_slice()),
            "after {works} writes"
        );
    }
    Ok(())
}

#[test]
fn given_back(rt: HostRuntime) -> Result<(), Fail> {
    let alloc = rt.alloc();
    let numbers = Numbers::new(vec![in alloc; 5u32, 6]?).into_vec();
    assert_eq!(&rt; numbers.as_slice(), [5, 6].as_slice());
    let rows = Table::new(vec![in alloc; Numbers::new(numbers)]?).into_vec();
    assert_eq!(&rt; rows.len(), 1);
    assert_eq!(&rt; one_link(alloc)?.into_vec().len(), 1);
    Ok(())
}
