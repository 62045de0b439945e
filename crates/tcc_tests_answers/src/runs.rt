//! Readers that fail in mid-stream and writers that refuse once; the answers of whole runs are in tests/rows.
use crate::answers::{OWN, OWN_TEXT};
use std::alloc::Global;
use std::io::{self, ErrorKind, Read, Write};
use std::process::Abort;
use std::test::Fail;
use std::thread::Threads;
use tcc_explain::Workers;
use tcc_graph::Level;
use tcc_run::{OpenGate, Options, run_check, run_explain};

const OWN_CERTIFICATE: &str = "tcc-certificate 2 causal\ncycle 3 2 3\nS 0 1\nD 1 0 x 2 1\nS 1 2\n\
    near\n3 1 1\n3 3 1\n3 3 3\nfar\n3 1 1\n3 1\n3\nend\n";

// Two transactions, a seal, and one more.
const SEALED: &str = "a,begin\na,w,x,1\na,commit\na,begin\na,w,y,1\na,commit\nseal\n\
    b,begin\nb,w,y,2\nb,commit\n";

const SEALED_TEXT: &str = "consistent: 2 transactions, 1 sessions\norder: init a/1 a/2\n";

const SEALED_TEXTS: &str = "consistent: 2 transactions, 1 sessions\norder: init a/1 a/2\n\
    consistent: 3 transactions, 2 sessions\norder: init a/1 a/2 b/1\n";

const SEALED_JSON: &str = "{\"answer\":\"consistent\",\
    \"order\":[\"init\",\"a/1\",\"a/2\"],\"sessions\":1,\"transactions\":2}\n\
    {\"answer\":\"consistent\",\
    \"order\":[\"init\",\"a/1\",\"a/2\",\"b/1\"],\"sessions\":2,\"transactions\":3}\n";

const SEALED_CERTIFICATE: &str = "tcc-certificate 2 causal\norder 4 2\n0 1 2 3\nclocks\n\
    0 0\n0 0\n1 0\n0 0\nend\n";

const UNRESOLVED: &str = "a,begin\na,r,x,5\na,commit\n";

const UNRESOLVED_TEXT: &str = "unresolved: 1 faults\nThinAir a/1 op 1 x 5\n";

const DEVICE_JSON: &str = "{\"answer\":\"device\"}\n";

// Records that are explained, as text or as JSON: what is printed, the certificate, and the exit code.
const EXPLAINED: [(&str, bool, &str, &str, u8); 5] = [
    (OWN, false, OWN_TEXT, OWN_CERTIFICATE, 1),
    (SEALED, false, SEALED_TEXTS, SEALED_CERTIFICATE, 0),
    (SEALED, true, SEALED_JSON, SEALED_CERTIFICATE, 0),
    (UNRESOLVED, false, UNRESOLVED_TEXT, "", 2),
    (
        "seal\nb,commit\n",
        false,
        "consistent: 0 transactions, 0 sessions\norder: init\nrow 2: NotBegun\n",
        "",
        3,
    ),
];

// Records and certificates that are checked: what is printed, and the exit code.
const CHECKED: [(&str, &str, &str, u8); 3] = [
    (OWN, OWN_CERTIFICATE, "accepted: cycle, 3 steps\n", 0),
    (OWN, SEALED_CERTIFICATE, "rejected: rule 1 at 0 0\n", 7),
    (UNRESOLVED, "ring\n", UNRESOLVED_TEXT, 2),
];

// Explains the records by one worker, and returns the exit code of the run.
fn explained(
    rt: &(impl Threads + Sync),
    alloc: Global,
    records: impl Read + Drop,
    out: &mut impl Write,
    file: &mut Option<impl Write>,
    json: bool,
) -> u8 {
    let options = Options {
        level: Level::Causal,
        workers: Workers::ONE,
        json,
        required: 0,
    };
    let mut notes = io::sink();
    run_explain(
        rt, alloc, records, out, file, &mut notes, options, &OpenGate,
    )
}

// Checks the certificate for the records, and returns the exit code of the run.
fn checked(alloc: Global, records: &str, certificate: &str, out: &mut impl Write) -> u8 {
    let mut notes = io::sink();
    run_check(
        alloc,
        records.as_bytes(),
        certificate.as_bytes(),
        out,
        &mut notes,
    )
}

// A reader that fails after its bytes.
#[derive(Drop)]
struct Broken<'a> {
    bytes: &'a [u8],
}

impl Read for Broken<'_> {
    fn read(&mut self, buffer: &mut [u8]) -> io::Result<usize> {
        if self.bytes.is_empty() {
            return Err(io::Error::from(ErrorKind::Other));
        }
        self.bytes.read(buffer)
    }
}

// A reader that fails after these bytes, and the line that it fails in, counted from 1.
fn broken_after(bytes: &[u8]) -> (Broken<'_>, usize) {
    (Broken { bytes }, bytes.split(|&byte| byte == b'\n').count())
}

// A run whose reader of records fails reports the row, after the answers so far.
#[test]
fn readers_of_records_fail(rt: HostRuntime) -> Result<(), Fail> {
    let alloc = rt.alloc();
    for bytes in 0..SEALED.len() + 1 {
        let (broken, row) = broken_after(&SEALED.as_bytes()[..bytes]);
        let answered = if row > 7 { SEALED_TEXT } else { "" };
        let text = format!(in alloc; "{answered}row {row}: Read\n")?;
        let mut out = Vec::new(alloc);
        let mut file = Some(Vec::new(alloc));
        let code = explained(&rt, alloc, broken, &mut out, &mut file, false);
        assert_eq!(&rt; out.as_slice(), text.as_bytes(), "after {bytes} bytes");
        assert!(&rt; file.is_some_and(|file: Vec<u8>| file.is_empty()));
        assert_eq!(&rt; code, 6);
    }
    Ok(())
}

// The certificate's reader fails in each line, and after the last; where the records have a fault, that is reported.
#[test]
fn readers_of_certificates_fail(rt: HostRuntime) -> Result<(), Fail> {
    let alloc = rt.alloc();
    for bytes in 0..OWN_CERTIFICATE.len() + 1 {
        let (broken, line) = broken_after(&OWN_CERTIFICATE.as_bytes()[..bytes]);
        let text = format!(in alloc; "certificate line {line}: Read\n")?;
        let mut out = Vec::new(alloc);
        let code = run_check(alloc, OWN.as_bytes(), broken, &mut out, &mut io::sink());
        assert_eq!(&rt; out.as_slice(), text.as_bytes(), "after {bytes} bytes");
        assert_eq!(&rt; code, 6);
    }
    Ok(())
}

#[derive(Clone, Copy)]
enum Refusal {
    Write(ErrorKind),
    NoBytes,
    Flush,
}

// A writer that takes one byte at a time; it refuses once, before this many bytes or at the flush, and takes all after
// that.
#[derive(Drop)]
struct Reluctant {
    taken: Vec<u8>,
    room: usize,
    refusal: Refusal,
    has_refused: bool,
}

impl Write for Reluctant {
    fn write(&mut self, bytes: &[u8]) -> io::Result<usize> {
        let Some(first) = bytes.first() else {
            return Ok(0);
        };
        if self.taken.len() >= self.room && !self.has_refused {
            match self.refusal {
                Refusal::Write(kind) => {
                    self.has_refused = true;
                    return Err(io::Error::from(kind));
                }
                Refusal::NoBytes => {
                    self.has_refused = true;
                    return Ok(0);
                }
                Refusal::Flush => {}
            }
        }
        self.taken.push(*first)?;
        Ok(1)
    }

    fn flush(&mut self) -> io::Result<()> {
        match self.refusal {
            Refusal::Flush => Err(io::Error::from(ErrorKind::Other)),
            _ => Ok(()),
        }
    }
}

fn refusing(alloc: Global, room: usize, refusal: Refusal) -> Reluctant {
    Reluctant {
        taken: Vec::new(alloc),
        room,
        refusal,
        has_refused: false,
    }
}

// The text up to the byte that was refused was written, and nothing was written again.
fn stopped(rt: &impl Abort, out: &Reluctant, text: &str, status: u8, code: u8) {
    let sent = text.as_bytes().get(..out.room).unwrap_or(text.as_bytes());
    assert_eq!(rt; out.taken.as_slice(), sent, "of {text:?}");
    let is_cut = out.room < text.len() || matches!(out.refusal, Refusal::Flush);
    assert_eq!(rt; code, if is_cut { 6 } else { status }, "of {text:?}");
}

// Each write of the answers fails, without a file for the certificate, and with one: it then stays empty.
#[test]
fn writers_of_answers_fail(rt: HostRuntime) -> Result<(), Fail> {
    let alloc = rt.alloc();
    for (records, json, text, certificate, status) in EXPLAINED {
        for room in 0..text.len() + 1 {
            let mut out = refusing(alloc, room, Refusal::NoBytes);
            let mut no_file: Option<Vec<u8>> = None;
            let code = explained(&rt, alloc, records.as_bytes(), &mut out, &mut no_file, json);
            stopped(&rt, &out, text, status, code);
            let mut out = refusing(alloc, room, Refusal::Write(ErrorKind::Interrupted));
            let mut file = Some(Vec::new(alloc));
            let code = explained(&rt, alloc, records.as_bytes(), &mut out, &mut file, json);
            stopped(&rt, &out, text, status, code);
            let written = if room < text.len() { "" } else { certificate };
            assert!(&rt; file.is_some_and(|file: Vec<u8>| file.as_slice() == written.as_bytes()));
        }
    }
    Ok(())
}

// Each write of the certificate fails: the line for the device follows the answers.
#[test]
fn writers_of_certificates_fail(rt: HostRuntime) -> Result<(), Fail> {
    let alloc = rt.alloc();
    for (records, json, text, certificate, _status) in EXPLAINED {
        for room in 0..certificate.len() {
            let mut out = Vec::new(alloc);
            let mut file = Some(refusing(alloc, room, Refusal::Write(ErrorKind::Other)));
            let code = explained(&rt, alloc, records.as_bytes(), &mut out, &mut file, json);
            let line = if json { DEVICE_JSON } else { "device\n" };
            let said = format!(in alloc; "{text}{line}")?;
            assert_eq!(&rt; out.as_slice(), said.as_bytes(), "of {text:?}");
            assert_eq!(&rt; code, 6);
            let sent = &certificate.as_bytes()[..room];
            assert!(&rt; file.is_some_and(|file: Reluctant| file.taken.as_slice() == sent));
        }
    }
    Ok(())
}

#[test]
fn writers_of_verdicts_fail(rt: HostRuntime) -> Result<(), Fail> {
    let alloc = rt.alloc();
    for (records, certificate, text, status) in CHECKED {
        for room in 0..text.len() + 1 {
            let mut out = refusing(alloc, room, Refusal::NoBytes);
            let code = checked(alloc, records, certificate, &mut out);
            stopped(&rt, &out, text, status, code);
        }
        // All that was written may be lost where the flush fails.
        let mut out = refusing(alloc, text.len(), Refusal::Flush);
        let code = checked(alloc, records, certificate, &mut out);
        stopped(&rt, &out, text, status, code);
    }
    Ok(())
}
