//! An order and an anomaly as values, and an order as text and as JSON.
ghost use Rattle.std.specs.Prelude.{◌≡◌, [], ◌∷◌, IfOk};
ghost use Rattle.tcc_graph.specs.declared.step.Step.TheVariants as step;
ghost use Rattle.tcc_graph.specs.declared.link.Link.TheVariants as link;

use std::alloc::{AllocError, Global};
use std::process::Abort;
use std::test::Fail;
use tcc_answer::pieces::push;
use tcc_answer::{
    Anomaly, Answer, CappedRows, Commit, Labels, Shape, WriteFault, write_json, write_text,
};
use tcc_cert::{Certificate, Links, Numbers, OrderClaim, Table, Version};
use tcc_graph::{Graph, Level, Link, Step, Walk};
use tcc_reads::resolve;
use tcc_rows::snapshot_of;
use tcc_txn::Name;

const TURNED: &str = "a,begin\na,commit\na,begin\na,commit\nb,begin\nb,commit\n";

/// Their order as text, and then as JSON.
const TURNED_TEXTS: &str = "consistent: 3 transactions, 2 sessions\norder: init b/1 a/1 a/2\n\
    {\"answer\":\"consistent\",\
    \"order\":[\"init\",\"b/1\",\"a/1\",\"a/2\"],\"sessions\":2,\"transactions\":3}\n";

/// The certificate of the stale read at `Atomic`, without rows.
const STALE_CERTIFICATE: &str =
    "tcc-certificate 2 atomic\ncycle 0 2 3\nS 0 1\nD 1 0 x 2 1\nS 1 2\nnear\nfar\nend\n";

/// a/1 writes x, and a/2 reads its initial value.
const STALE_READ: &str = "a,begin\na,w,x,1\na,commit\na,begin\na,r,x,0\na,commit\n";

/// The names of the transactions of these records.
fn labels(alloc: Global, records: &str) -> Option<Labels> {
    let snapshot = snapshot_of(alloc, records.as_bytes()).ok()?;
    let resolved = resolve(alloc, &snapshot).ok()?;
    let graph = Graph::build(alloc, resolved).ok()?;
    Labels::of(alloc, &graph).ok()
}

/// A table without rows: no text of an answer shows its tables.
fn no_rows(alloc: Global) -> Table {
    Table::new(Vec::new(alloc))
}

/// The links of the stale read.
fn stale_links(alloc: Global, key: Name) -> Result<Links, AllocError>
    ensures { IfOk result (λ links. links ≡ link.Session 0 1 ∷ link.Derived 1 0 key 2 (step.Session 1 2 ∷ []) ∷ []) }
{
    let derived = Link::Derived {
        from: 1,
        to: 0,
        key,
        reader: 2,
        walk: Walk::new(vec![in alloc; Step::Session { from: 1, to: 2 }]?),
    };
    let links = vec![in alloc; Link::Session { from: 0, to: 1 }, derived]?;
    Ok(Links::new(links))
}

/// The stale read, as the anomaly that it is at `Atomic` too.
fn stale_read(rt: &impl Abort, alloc: Global) -> Result<Anomaly, AllocError> {
    let links = stale_links(alloc, Name::read(b"x").expect(rt, "a name"))?;
    let labels = labels(alloc, STALE_READ).expect(rt, "labels");
    let (near, far) = (CappedRows::empty(alloc), CappedRows::empty(alloc));
    Ok(Anomaly::new(Level::Atomic, links, 3, near, far, labels))
}

/// An order that is not that of the numbers.
fn turned(rt: &impl Abort, alloc: Global) -> Result<Commit, AllocError> {
    let labels = labels(alloc, TURNED).expect(rt, "labels");
    let order = Numbers::new([0, 3, 1, 2].as_slice().to_vec(alloc)?);
    Ok(Commit::new(Level::Causal, order, 2, no_rows(alloc), labels))
}

#[test]
fn parts_of_an_order(rt: HostRuntime) -> Result<(), Fail> {
    let commit = turned(&rt, rt.alloc())?;
    assert_eq!(&rt; commit.order(), [0, 3, 1, 2].as_slice());
    assert_eq!(&rt; commit.sessions(), 2);
    assert!(&rt;
        matches!(
            commit.certificate(),
            Certificate::Order(OrderClaim {
                version: Version::Two,
                level: Level::Causal,
                sessions: 2,
                ..
            })
        )
    );
    Ok(())
}

#[test]
fn parts_of_an_anomaly(rt: HostRuntime) -> Result<(), Fail> {
    let anomaly = stale_read(&rt, rt.alloc())?;
    assert_eq!(&rt; anomaly.links().len(), 2);
    assert_eq!(&rt; anomaly.cost(), 3);
    assert_eq!(&rt; anomaly.shape(), Shape::StaleInitialRead);
    let answer = Answer::Anomaly(anomaly);
    let mut out = Vec::new(rt.alloc());
    assert!(&rt; answer.write_certificate(&mut out).is_ok());
    assert_eq!(&rt; out.as_slice(), STALE_CERTIFICATE.as_bytes());
    Ok(())
}

#[test]
fn pieces_are_joined(rt: HostRuntime) {
    let mut text = Vec::new(rt.alloc());
    assert!(&rt; push(&mut text, &[b"a", b"", b"bc"]).is_ok());
    assert_eq!(&rt; text.as_slice(), b"abc".as_slice());
}

#[test]
fn texts(rt: HostRuntime) -> Result<(), Fail> {
    let alloc = rt.alloc();
    let answer = Answer::Commit(turned(&rt, alloc)?);
    let mut out = Vec::new(alloc);
    assert_eq!(&rt; write_text(alloc, &answer, &mut out), Ok(()));
    assert_eq!(&rt; write_json(alloc, &answer, &mut out), Ok(()));
    assert_eq!(&rt; out.as_slice(), TURNED_TEXTS.as_bytes());
    Ok(())
}

#[test]
fn faults_as_text(rt: HostRuntime) -> Result<(), Fail> {
    let alloc = rt.alloc();
    let table = [
        (WriteFault::Device, "the answer could not be written"),
        (WriteFault::NoMemory, "out of memory"),
    ];
    for (fault, text) in table {
        assert_eq!(&rt; fault.to_string(alloc)?.as_str(), text);
    }
    Ok(())
}
