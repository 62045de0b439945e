//! Worked certificates, accepted and altered, with verdicts worked out by hand from the rules.
use crate::check::worked::{
    ABORTED, CROSSED, DISTANT, FORKED, LONGER, RELAYED, STALE, TORN, TWO, graph_of,
};
use std::alloc::{AllocError, Global};
use std::process::Abort;
use std::test::Fail;
use tcc_cert::{Certificate, CycleClaim, Links, Numbers, OrderClaim, Table, Version, read};
use tcc_check::{Rule, Verdict, check, check_stream};
use tcc_graph::Level;

/// What the rules say of a certificate of the history of these records.
fn verdict(rt: &impl Abort, alloc: Global, records: &str, certificate: &Certificate) -> Verdict {
    check(alloc, &graph_of(rt, alloc, records), certificate).expect(rt, "a verdict")
}

/// The first broken rule and where, none where the certificate is accepted.
type Wanted = Option<(Rule, u32, u32)>;

/// The certificate's text, with the lines between its first and its last.
fn text_of(alloc: Global, header: &str, claim: &[&str]) -> Result<Vec<u8>, AllocError> {
    let mut text = Vec::new(alloc);
    text.extend_from_slice(b"tcc-certificate ")?;
    text.extend_from_slice(header.as_bytes())?;
    text.push(b'\n')?;
    for part in claim {
        text.extend_from_slice(part.as_bytes())?;
    }
    text.extend_from_slice(b"end\n")?;
    Ok(text)
}

/// What the rules say of the certificate with this text, read before it is judged and judged as it is read.
fn assert_verdict(
    rt: &impl Abort,
    alloc: Global,
    records: &str,
    header: &str,
    claim: &[&str],
    wanted: Wanted,
) {
    let text = text_of(alloc, header, claim).expect(rt, "a text");
    let Ok(certificate) = read(alloc, text.as_slice()) else {
        panic!(rt; "{claim:?} is no certificate {header}");
    };
    let wanted = match wanted {
        Some((rule, row, column)) => Verdict::Rejected {
            rule,
            at: (row, column),
        },
        None => Verdict::Accepted,
    };
    assert_eq!(rt;
        verdict(rt, alloc, records, &certificate),
        wanted,
        "for {header}, {claim:?}"
    );
    assert_eq!(rt;
        check_stream(alloc, &graph_of(rt, alloc, records), text.as_slice()),
        Ok(wanted),
        "for {header}, {claim:?} as a stream"
    );
}

/// What comes after the word in the first line, the links, the table of lengths, the table of costs, and the verdict.
type JudgedRow<'a> = (&'a str, &'a str, &'a str, &'a str, Wanted);

fn assert_cycles(rt: &impl Abort, alloc: Global, records: &str, rows: &[JudgedRow]) {
    for (header, links, near, far, wanted) in rows {
        let claim = [*links, "near\n", *near, "far\n", *far];
        assert_verdict(rt, alloc, records, header, &claim, *wanted);
    }
}

#[test]
fn a_stale_read(rt: HostRuntime) {
    use Rule::{FarLinks, Links, NearPairs, NearSteps, Returns, Sizes};
    let links = "cycle 3 2 3\nS 0 1\nD 1 0 x 2 1\nS 1 2\n";
    let elsewhere = "cycle 3 2 3\nS 0 2\nD 1 0 x 2 1\nS 1 2\n";
    let smaller = "cycle 2 2 3\nS 0 1\nD 1 0 x 2 1\nS 1 2\n";
    let outside = "cycle 3 2 3\nS 0 1\nD 1 0 x 2 1\nS 1 3\n";
    let near = "3 1 1\n3 3 1\n3 3 3\n";
    let few = "3 1\n3 3\n";
    let below = "3 1 1\n0 3 1\n3 3 3\n";
    let distant = "3 2 1\n3 3 1\n3 3 3\n";
    let far = "3 1 1\n2 3 1\n3 3 3\n";
    let less = "3 1\n2 3\n";
    let above = "3 1 1\n2 4 1\n3 3 3\n";
    let cheap = "3 1 1\n2 3 1\n3 3 2\n";
    let upward = "3 1 1\n3 1\n3\n";
    let dear_up = "3 1 1\n3 2\n3\n";
    let cheap_up = "3 1 1\n3 1\n2\n";
    let rows: &[JudgedRow] = &[
        ("1", links, near, far, None),
        ("1", smaller, few, less, Some((Sizes, 0, 0))),
        ("1", outside, near, far, Some((Sizes, 0, 0))),
        ("1", links, near, above, Some((Sizes, 0, 0))),
        ("1", elsewhere, near, far, Some((Links, 2, 0))),
        ("1", links, distant, far, Some((NearPairs, 0, 1))),
        ("1", links, below, far, Some((NearSteps, 1, 1))),
        ("1", links, near, near, Some((FarLinks, 1, 0))),
        ("1", links, near, cheap, Some((Returns, 2, 2))),
        ("1 atomic", links, near, far, None),
        ("1 atomic", links, below, far, None),
        ("2 causal", links, near, upward, None),
        ("2 causal", links, below, upward, Some((NearSteps, 1, 1))),
        ("2 causal", links, near, dear_up, Some((FarLinks, 1, 2))),
        ("2 causal", links, near, cheap_up, Some((Returns, 2, 2))),
        ("2 atomic", links, near, upward, None),
    ];
    assert_cycles(&rt, rt.alloc(), STALE, rows);
}

/// The first wrong link is named, where the first begins too. Numbers out of range come before it, wherever they are.
#[test]
fn wrong_links(rt: HostRuntime) {
    use Rule::{Links, Sizes};
    let near = "3 1 1\n3 3 1\n3 3 3\n";
    let far = "3 1 1\n2 3 1\n3 3 3\n";
    for (links, wanted) in [
        ("cycle 3 2 3\nS 1 2\nD 1 0 x 2 1\nS 1 2\n", (Links, 1, 0)),
        ("cycle 3 2 3\nS 0 0\nD 1 0 x 2 1\nS 1 2\n", (Links, 1, 0)),
        ("cycle 3 1 3\nS 0 1\n", (Links, 1, 0)),
        (
            "cycle 3 3 3\nS 0 1\nS 1 2\nD 1 0 x 2 1\nS 1 2\n",
            (Links, 3, 0),
        ),
        (
            "cycle 3 3 3\nS 0 1\nS 1 0\nD 1 0 x 2 1\nS 1 2\n",
            (Links, 2, 0),
        ),
        ("cycle 3 2 3\nS 0 1\nD 1 0 x 2 1\nS 0 2\n", (Links, 2, 0)),
        ("cycle 3 2 4\nS 0 1\nD 1 0 x 2 1\nS 1 2\n", (Links, 0, 0)),
        ("cycle 3 2 3\nS 0 2\nD 1 0 x 3 1\nS 1 2\n", (Sizes, 0, 0)),
        ("cycle 3 2 3\nS 3 1\nD 1 0 x 2 1\nS 1 2\n", (Sizes, 0, 0)),
    ] {
        let (rule, row, column) = wanted;
        let rows: &[JudgedRow] = &[("1", links, near, far, Some((rule, row, column)))];
        assert_cycles(&rt, rt.alloc(), STALE, rows);
    }
    let dearer = "cycle 3 2 2\nS 0 1\nD 1 0 x 2 1\nS 1 2\n";
    let table = "2 1 1\n2 2 1\n2 2 2\n";
    let rows: &[JudgedRow] = &[("1", dearer, table, table, Some((Links, 0, 0)))];
    assert_cycles(&rt, rt.alloc(), STALE, rows);
}

/// From a/3 the tables have `least` for a/1, which is two places before a/3 itself.
#[test]
fn a_session_of_three(rt: HostRuntime) {
    use Rule::{FarSteps, NearSteps};
    let links = "cycle 4 2 3\nS 0 1\nD 1 0 x 2 1\nS 1 2\n";
    let near = "3 1 1 1\n3 3 1 1\n3 3 3 1\n3 3 3 3\n";
    let far = "3 1 1 1\n2 3 1 1\n3 3 3 1\n3 3 3 3\n";
    let rows: &[JudgedRow] = &[
        ("1", links, near, far, None),
        ("2 causal", links, near, "3 1 1 1\n3 1 1\n3 1\n3\n", None),
    ];
    assert_cycles(&rt, rt.alloc(), LONGER, rows);
    let skipped = "3 1 1 1\n3 3 1 1\n3 3 3 1\n3 0 1 2\n";
    let leapt = "3 1 1 1\n2 3 1 1\n3 3 3 1\n2 0 1 2\n";
    let rows: &[JudgedRow] = &[
        ("1", links, skipped, far, Some((NearSteps, 3, 3))),
        ("1", links, near, leapt, Some((FarSteps, 3, 3))),
    ];
    assert_cycles(&rt, rt.alloc(), LONGER, rows);
}

#[test]
fn other_cycles(rt: HostRuntime) {
    use Rule::{FarSteps, Links, NearSteps, Sizes};
    let alloc = rt.alloc();
    let crossed = "cycle 3 2 2\nR 1 2 x\nR 2 1 y\n";
    let table = "2 1 1\n2 2 1\n2 1 2\n";
    let rows: &[JudgedRow] = &[
        ("1", crossed, table, table, None),
        ("2 causal", crossed, table, "2 1 1\n2 1\n2\n", None),
    ];
    assert_cycles(&rt, alloc, CROSSED, rows);
    let torn = "cycle 4 2 4\nD 1 2 x 3 1\nR 1 3 x\nD 2 1 x 3 1\nR 2 3 x\n";
    let near = "4 1 1 1\n4 4 4 1\n4 4 4 1\n4 4 4 4\n";
    let far = "4 1 1 1\n4 4 2 1\n4 2 4 1\n4 4 4 4\n";
    let low = "4 1 1 1\n4 4 1 1\n4 2 4 1\n4 4 4 4\n";
    let lowered = Some((FarSteps, 1, 1));
    let rows: &[JudgedRow] = &[
        ("1", torn, near, far, None),
        ("1", torn, near, low, lowered),
        ("2 causal", torn, near, "4 1 1 1\n4 2 1\n4 1\n4\n", None),
        ("2 causal", torn, near, "4 1 1 1\n4 1 1\n4 1\n4\n", lowered),
        ("2 atomic", torn, near, "4 1 1 1\n4 2 1\n4 1\n4\n", None),
    ];
    assert_cycles(&rt, alloc, TORN, rows);
    let relayed = "S 0 1\nD 1 0 x 4 3\nR 1 2 x\nR 2 3 y\nS 3 4\nnear\n5 1 1 1 1\n";
    let rest = "5 5 5 1 2\n5 5 5 5 1\n5 5 5 5 5\n";
    let far = "far\n5 1 1 1 1\n4 5 1 2 3\n";
    for (header, sizes, second, wanted) in [
        ("1", "cycle 5 2 5\n", "5 5 1 2 3\n", None),
        ("1", "cycle 5 2 4\n", "5 5 1 2 3\n", Some((Sizes, 0, 0))),
        ("1", "cycle 5 2 6\n", "5 5 1 2 3\n", Some((Links, 0, 0))),
        ("1", "cycle 5 2 5\n", "5 5 1 2 4\n", Some((NearSteps, 1, 4))),
        (
            "1 atomic",
            "cycle 5 2 5\n",
            "5 5 1 2 3\n",
            Some((Links, 2, 0)),
        ),
    ] {
        let claim = [sizes, relayed, second, rest, far, rest];
        assert_verdict(&rt, alloc, RELAYED, header, &claim, wanted);
    }
}

/// Claims that no text has: no links at all, rows of costs in the form of the other version, an order at `Atomic` with
/// clocks.
#[test]
fn no_such_text(rt: HostRuntime) -> Result<(), Fail> {
    let alloc = rt.alloc();
    for (version, rule) in [(Version::One, Rule::Links), (Version::Two, Rule::Sizes)] {
        let mut near = Vec::new(alloc);
        let mut far = Vec::new(alloc);
        for row in [[2, 1, 1], [2, 2, 1], [2, 1, 2]] {
            near.push(Numbers::new(row.to_vec(alloc)?))?;
            far.push(Numbers::new(row.to_vec(alloc)?))?;
        }
        let certificate = Certificate::Cycle(CycleClaim {
            version,
            level: Level::Causal,
            links: Links::new(Vec::new(alloc)),
            least: 2,
            near: Table::new(near),
            far: Table::new(far),
        });
        let rejected = Verdict::Rejected { rule, at: (0, 0) };
        assert_eq!(&rt; verdict(&rt, alloc, CROSSED, &certificate), rejected);
    }
    let mut clocks = Vec::new(alloc);
    for row in [[0], [0], [1]] {
        clocks.push(Numbers::new(row.to_vec(alloc)?))?;
    }
    let certificate = Certificate::Order(OrderClaim {
        version: Version::One,
        level: Level::Atomic,
        order: Numbers::new([0, 1, 2].to_vec(alloc)?),
        sessions: 1,
        clocks: Table::new(clocks),
    });
    let rejected = Verdict::Rejected {
        rule: Rule::Sizes,
        at: (0, 0),
    };
    assert_eq!(&rt; verdict(&rt, alloc, TWO, &certificate), rejected);
    Ok(())
}

#[test]
fn orders(rt: HostRuntime) {
    use Rule::{Axiom, Pairs, Sizes};
    let alloc = rt.alloc();
    let forked = "0 0 0 0\n0 0 0 0\n0 0 0 0\n1 0 0 0\n0 1 0 0\n";
    let reached = "0 0 0 0\n0 0 0 0\n0 0 0 0\n1 1 0 0\n0 1 0 0\n";
    let turned = "order 5 4\n0 3 1 2 4\n";
    for (records, sizes, clocks, wanted) in [
        ("", "order 1 0\n0\n", "\n", None),
        (TWO, "order 3 1\n0 1 2\n", "0\n0\n1\n", None),
        (TWO, "order 3 1\n0 1 2\n", "0\n0\n0\n", Some((Pairs, 0, 0))),
        (TWO, "order 3 1\n0 1 1\n", "0\n0\n1\n", Some((Pairs, 0, 0))),
        (TWO, "order 3 1\n0 2 1\n", "0\n0\n1\n", Some((Pairs, 0, 0))),
        (TWO, "order 2 1\n0 1\n", "0\n0\n", Some((Sizes, 0, 0))),
        (
            TWO,
            "order 3 2\n0 1 2\n",
            "0 0\n0 0\n1 0\n",
            Some((Sizes, 0, 0)),
        ),
        (ABORTED, "order 2 1\n0 1\n", "0\n0\n", None),
        (FORKED, "order 5 4\n0 1 2 3 4\n", forked, None),
        (FORKED, turned, forked, Some((Pairs, 0, 0))),
        (
            FORKED,
            "order 5 4\n0 1 2 3 4\n",
            reached,
            Some((Axiom, 2, 0)),
        ),
    ] {
        for header in ["1", "2 causal"] {
            let claim = [sizes, "clocks\n", clocks];
            assert_verdict(&rt, alloc, records, header, &claim, wanted);
        }
    }
}

/// Only the list, with what single pairs contradict.
#[test]
fn atomic_orders(rt: HostRuntime) {
    use Rule::{Axiom, Pairs, Sizes};
    for (records, claim, wanted) in [
        ("", "order 1 0\n0\n", None),
        (DISTANT, "order 4 2\n0 1 2 3\n", None),
        (DISTANT, "order 4 2\n0 1 3 2\n", Some((Pairs, 0, 0))),
        (DISTANT, "order 4 2\n0 1 2 2\n", Some((Pairs, 0, 0))),
        (DISTANT, "order 4 3\n0 1 2 3\n", Some((Sizes, 0, 0))),
        (RELAYED, "order 5 3\n0 1 2 3 4\n", None),
        (STALE, "order 3 1\n0 1 2\n", Some((Axiom, 1, 0))),
        (FORKED, "order 5 4\n0 1 2 3 4\n", None),
    ] {
        for header in ["1 atomic", "2 atomic"] {
            assert_verdict(&rt, rt.alloc(), records, header, &[claim], wanted);
        }
    }
}

#[test]
fn numbers(rt: HostRuntime) {
    assert_eq!(&rt; Rule::Sizes.number(), 1);
    assert_eq!(&rt; Rule::Axiom.number(), 9);
}
