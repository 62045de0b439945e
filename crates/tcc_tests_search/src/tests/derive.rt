//! Worked histories, with prices and reasons worked out by hand.
use crate::tests::histories::{
    CHAIN, MUTUAL, STALE_READ, TWO_WRITERS, graph_of, is_level, near_of, priced, prices_of,
};
use std::alloc::Global;
use std::process::Abort;
use std::thread::Threads;
use tcc_derive::{first_name, reason};
use tcc_graph::{Level, Link, Step, Walk};
use tcc_txn::Name;

/// A step, from and to, with its key; a session step has an empty one.
type Path<'a> = &'a [(u32, u32, &'a str)];

/// b/1 reads one of two writes of a/1, and the initial value that the other overwrote.
const FRACTURED: &str =
    "a,begin\na,w,x,1\na,w,y,1\na,commit\nb,begin\nb,r,x,1\nb,r,y,0\nb,commit\n";

/// Of two readers of the initial value of x the one with the greater number is nearer to the writer.
const TWO_READERS: &str = "a,begin\na,r,z,1\na,commit\na,begin\na,r,x,0\na,commit\n\
    b,begin\nb,w,x,1\nb,w,z,1\nb,commit\nb,begin\nb,r,x,0\nb,commit\n";

/// Two keys, and then two readers, at one cost.
const TWO_KEYS: &str = "a,begin\na,w,x,1\na,w,y,1\na,commit\na,begin\na,r,y,0\na,r,x,0\na,commit\n\
    a,begin\na,r,x,0\na,commit\n";

/// The later key has the nearer reader.
const NEARER_KEY: &str =
    "a,begin\na,w,x,1\na,w,y,1\na,w,z,1\na,commit\na,begin\na,r,y,0\na,commit\n\
    b,begin\nb,r,z,1\nb,commit\nb,begin\nb,r,x,0\nb,commit\n";

/// Two walks of three steps: the one whose last step starts at the lower number begins with the higher one.
const TWO_WALKS: &str =
    "a,begin\na,w,x,1\na,w,p,1\na,w,q,1\na,commit\nb,begin\nb,r,p,1\nb,w,s,1\nb,commit\n\
    c,begin\nc,r,q,1\nc,w,t,1\nc,commit\nd,begin\nd,r,t,1\nd,w,u,1\nd,commit\n\
    e,begin\ne,r,s,1\ne,w,v,1\ne,commit\nf,begin\nf,r,u,1\nf,r,v,1\nf,r,x,0\nf,commit\n";

/// One read that a walk of three steps contradicts, and one that a single step contradicts.
const FAR_AND_NEAR: &str =
    "a,begin\na,w,x,1\na,w,q,1\na,commit\nc,begin\nc,r,q,1\nc,w,t,1\nc,commit\n\
    d,begin\nd,r,t,1\nd,w,u,1\nd,commit\nf,begin\nf,r,u,1\nf,r,x,0\nf,commit\n\
    g,begin\ng,w,y,1\ng,commit\ng,begin\ng,r,y,0\ng,commit\n";

/// A session step before a read, and of two reads the one of the first key.
const TWO_STEPS: &str =
    "a,begin\na,w,x,1\na,w,q,1\na,w,p,1\na,commit\na,begin\na,r,p,1\na,r,x,0\na,commit\n\
    b,begin\nb,w,w,1\nb,commit\nb,begin\nb,r,w,1\nb,r,v,0\nb,commit\n\
    c,begin\nc,r,q,1\nc,r,p,1\nc,w,v,1\nc,commit\nd,begin\nd,w,v,2\nd,w,r,1\nd,w,m,1\nd,commit\n\
    e,begin\ne,r,r,1\ne,r,m,1\ne,r,v,0\ne,commit\n";

/// The value for a pair in a list of wanted numbers.
fn wanted_at(wanted: &[(u32, u32, u32)], from: u32, to: u32) -> Option<u32> {
    for (a, b, number) in wanted {
        if *a == from && *b == to {
            return Some(*number);
        }
    }
    None
}

/// At this level the prices are these, from and to, and no others: at `Atomic` those of one step, which are 2. A link
/// costs 1 between these pairs, and between others its price.
fn assert_tables(
    rt: &(impl Abort + Threads + Sync),
    alloc: Global,
    level: Level,
    records: &str,
    pairs: &[(u32, u32)],
    wanted: &[(u32, u32, u32)],
) {
    let graph = graph_of(rt, alloc, records);
    let near = near_of(rt, alloc, &graph, level);
    let prices = prices_of(rt, alloc, &graph, &near);
    assert!(rt; is_level(prices.level(), level), "of {records}");
    for from in 0..prices.count() {
        for to in 0..prices.count() {
            let price = wanted_at(wanted, from, to).filter(|price| *price == 2
                || is_level(level, Level::Causal));
            let is_pair = pairs.iter().any(|pair| *pair == (from, to));
            let cost = if is_pair { Some(1) } else { price };
            assert_eq!(rt; prices.price(from, to), price, "of {records}");
            assert_eq!(rt; prices.cost(from, to), cost, "of {records}");
        }
    }
}

fn is_step(step: &Step, wanted: (u32, u32, &str)) -> bool {
    let (from, to, key) = wanted;
    match step {
        Step::Session { from: a, to: b } => *a == from && *b == to && key.is_empty(),
        Step::Reads {
            from: a,
            to: b,
            key: read,
        } => *a == from && *b == to && read.bytes() == key.as_bytes(),
    }
}

fn is_walk(walk: &Walk, wanted: Path<'_>) -> bool {
    walk.as_slice().len() == wanted.len()
        && walk
            .as_slice()
            .iter()
            .zip(wanted)
            .all(|(step, expected)| is_step(step, *expected))
}

/// The link is by this key, this reader and this walk; none where none is wanted.
fn is_reason(found: &Option<Link>, wanted: Option<(&str, u32, Path<'_>)>) -> bool {
    match (found, wanted) {
        (None, None) => true,
        (
            Some(
                Link::Derived {
                    key,
                    reader,
                    walk,
                    ..
                },
            ),
            Some((name, by, path)),
        ) => { key.bytes() == name.as_bytes() && *reader == by && is_walk(walk, path) }
        _ => false,
    }
}

/// The first reason at this level is this one; none where none is wanted.
fn assert_reason(
    rt: &(impl Abort + Threads + Sync),
    alloc: Global,
    level: Level,
    records: &str,
    b: u32,
    a: u32,
    wanted: Option<(&str, u32, Path<'_>)>,
) {
    let graph = graph_of(rt, alloc, records);
    let near = near_of(rt, alloc, &graph, level);
    assert!(rt; b < graph.count());
    assert!(rt; a < graph.count());
    let Ok(found) = reason(alloc, &graph, &near, b, a) else {
        panic!(rt; "no memory");
    };
    assert!(rt; is_reason(&found, wanted), "from {b} to {a} of {records}");
}

#[test]
fn least_prices_and_costs(rt: HostRuntime) {
    let alloc = rt.alloc();
    let cases: [(&str, &[(u32, u32)], &[(u32, u32, u32)]); 6] = [
        (
            FRACTURED,
            &[(0, 1), (0, 2), (1, 2)],
            &[(0, 1, 2), (1, 0, 2)],
        ),
        (STALE_READ, &[(0, 1), (0, 2), (1, 2)], &[(1, 0, 2)]),
        (
            CHAIN,
            &[(0, 1), (0, 2), (0, 3), (0, 4), (1, 2), (2, 3), (3, 4)],
            &[(0, 1, 2), (0, 2, 2), (1, 0, 4)],
        ),
        (
            TWO_WRITERS,
            &[(0, 1), (0, 2), (0, 3), (1, 3), (2, 3)],
            &[(0, 1, 2), (0, 2, 2), (1, 2, 2), (2, 1, 2)],
        ),
        (
            MUTUAL,
            &[(0, 1), (0, 2), (1, 2), (2, 1)],
            &[(0, 1, 2), (0, 2, 2), (1, 0, 3)],
        ),
        (
            TWO_READERS,
            &[(0, 1), (0, 2), (0, 3), (0, 4), (1, 2), (3, 1), (3, 4)],
            &[(3, 0, 2), (0, 3, 2)],
        ),
    ];
    for (records, pairs, wanted) in cases {
        assert_tables(&rt, alloc, Level::Causal, records, pairs, wanted);
        assert_tables(&rt, alloc, Level::Atomic, records, pairs, wanted);
    }
}

#[test]
fn first_reasons(rt: HostRuntime) {
    let alloc = rt.alloc();
    let cases: [(&str, u32, u32, Option<(&str, u32, Path<'_>)>); 16] = [
        (FRACTURED, 1, 0, Some(("y", 2, &[(1, 2, "x")]))),
        (STALE_READ, 0, 0, None),
        (STALE_READ, 0, 1, None),
        (STALE_READ, 1, 1, None),
        (STALE_READ, 2, 0, None),
        (STALE_READ, 1, 0, Some(("x", 2, &[(1, 2, "")]))),
        (
            CHAIN,
            1,
            0,
            Some(("x", 4, &[(1, 2, "x"), (2, 3, "y"), (3, 4, "")])),
        ),
        (CHAIN, 0, 2, Some(("y", 3, &[(0, 3, "")]))),
        (TWO_READERS, 3, 0, Some(("x", 4, &[(3, 4, "")]))),
        (MUTUAL, 1, 0, Some(("x", 1, &[(1, 2, "x"), (2, 1, "y")]))),
        (TWO_KEYS, 1, 0, Some(("x", 2, &[(1, 2, "")]))),
        (NEARER_KEY, 1, 0, Some(("y", 2, &[(1, 2, "")]))),
        (
            TWO_WALKS,
            1,
            0,
            Some(("x", 6, &[(1, 3, "q"), (3, 4, "t"), (4, 6, "u")])),
        ),
        (TWO_STEPS, 1, 0, Some(("x", 2, &[(1, 2, "")]))),
        (TWO_STEPS, 6, 0, Some(("v", 7, &[(6, 7, "m")]))),
        (TWO_STEPS, 5, 0, None),
    ];
    for (records, b, a, wanted) in cases {
        assert_reason(&rt, alloc, Level::Causal, records, b, a, wanted);
    }
}

/// Links are kept by cost up to this limit; `whole` says whether these are all.
fn assert_limit(
    rt: &(impl Abort + Threads + Sync),
    alloc: Global,
    records: &str,
    limit: u16,
    whole: bool,
) {
    let prices = priced(rt, alloc, records, Level::Causal);
    assert_eq!(rt; prices.limit(), limit, "of {records}");
    assert_eq!(rt; prices.is_whole(), whole, "of {records}");
}

/// A step from `init` and a link back of 2 steps, or of 4.
#[test]
fn limits(rt: HostRuntime) {
    let alloc = rt.alloc();
    assert_limit(&rt, alloc, FRACTURED, 3, true);
    assert_limit(&rt, alloc, TWO_WALKS, 5, true);
    assert_limit(&rt, alloc, FAR_AND_NEAR, 3, false);
}

/// At `Atomic` the walk of a reason is one step, and a reader that more steps lead to gives none.
#[test]
fn first_atomic_reasons(rt: HostRuntime) {
    let alloc = rt.alloc();
    let cases: [(&str, u32, u32, Option<(&str, u32, Path<'_>)>); 9] = [
        (FRACTURED, 1, 0, Some(("y", 2, &[(1, 2, "x")]))),
        (FRACTURED, 0, 1, Some(("x", 2, &[(0, 2, "")]))),
        (FRACTURED, 2, 0, None),
        (CHAIN, 1, 0, None),
        (CHAIN, 0, 2, Some(("y", 3, &[(0, 3, "")]))),
        (MUTUAL, 1, 0, None),
        (TWO_READERS, 3, 0, Some(("x", 4, &[(3, 4, "")]))),
        (TWO_WALKS, 1, 0, None),
        (TWO_STEPS, 6, 0, Some(("v", 7, &[(6, 7, "m")]))),
    ];
    for (records, b, a, wanted) in cases {
        assert_reason(&rt, alloc, Level::Atomic, records, b, a, wanted);
    }
}

/// The first of some names, wherever it is in the list; none of none.
#[test]
fn first_of_names(rt: HostRuntime) {
    let names = [Name::read(b"y"), Name::read(b"x"), Name::read(b"z")];
    let [Ok(y), Ok(x), Ok(z)] = names else {
        panic!(rt; "no names");
    };
    assert!(rt; first_name(&[y, x, z]) == Some(x));
    assert!(rt; first_name(&[]).is_none());
}
