//! How many steps the decided cycle has, in histories in which the finder has to look in more than one way. No contract says how few it
//! finds. Its cycle is judged, and then the first of the least ones is looked for, up to as many steps. So a finder that looks less far
//! makes that search longer, which these counts show. They were worked out by hand, and no cycle has fewer. A finder that leaves out one of
//! its ways finds cycles of more steps.
use crate::tests::histories::graph_of;
use std::alloc::Global;
use std::process::Abort;
use tcc_graph::{Level, steps_of};
use tcc_large::decide;

/// A cycle of five reads, at the lower numbers, and one of four. Besides the read that is tried the second has three more, as many as stay
/// below five steps.
const ROUNDS: &str = "a,begin\na,r,t,1\na,w,p,1\na,commit\nb,begin\nb,r,p,1\nb,w,q,1\nb,commit\n\
    c,begin\nc,r,q,1\nc,w,r,1\nc,commit\nd,begin\nd,r,r,1\nd,w,s,1\nd,commit\n\
    e,begin\ne,r,s,1\ne,w,t,1\ne,commit\nm,begin\nm,r,x,1\nm,w,u,1\nm,commit\n\
    n,begin\nn,r,u,1\nn,w,v,1\nn,commit\no,begin\no,r,v,1\no,w,w,1\no,commit\n\
    p,begin\np,r,w,1\np,w,x,1\np,commit\n";

/// From a/1 a session pair past two transactions and a read lead to b/1, or three reads. Another such pair leads on to b/4,
/// from which a/1 reads.
const FAR_PAIRS: &str =
    "a,begin\na,r,y,1\na,w,k,1\na,commit\na,begin\na,commit\na,begin\na,commit\na,begin\na,w,x,1\na,commit\n\
    b,begin\nb,r,x,1\nb,r,m,1\nb,commit\nb,begin\nb,commit\nb,begin\nb,commit\nb,begin\nb,w,y,1\nb,commit\n\
    c,begin\nc,r,k,1\nc,w,l,1\nc,commit\nd,begin\nd,r,l,1\nd,w,m,1\nd,commit\n";

/// f/1 reads the initial x and y. Four steps lead to it from a/1, which wrote x. From b/2, the last of its session to write
/// y, it is four too, but three from b/1. So a cycle through `init` has five steps, and six by the others. Another key of
/// b/2 comes before y.
const INIT: &str = "a,begin\na,w,x,1\na,w,p,1\na,commit\nb,begin\nb,w,y,1\nb,w,q,1\nb,commit\n\
    b,begin\nb,w,y,2\nb,w,r,1\nb,commit\nc,begin\nc,r,p,1\nc,r,r,1\nc,w,s,1\nc,commit\n\
    d,begin\nd,r,s,1\nd,w,t,1\nd,commit\ne,begin\ne,r,t,1\ne,w,u,1\ne,commit\n\
    f,begin\nf,r,u,1\nf,r,w,1\nf,r,x,0\nf,r,y,0\nf,commit\ng,begin\ng,r,q,1\ng,w,v,1\ng,commit\n\
    h,begin\nh,r,v,1\nh,w,w,1\nh,commit\n";

/// An old x is read from a/1. Five steps lead to its readers from a/2, and from a/4, the last to write x. From a/3 four
/// lead to the second reader.
const LATER_WRITERS: &str =
    "a,begin\na,w,x,1\na,commit\na,begin\na,w,x,2\na,commit\na,begin\na,w,x,3\na,w,k,1\na,commit\n\
    a,begin\na,w,x,4\na,w,l,1\na,commit\nb,begin\nb,r,k,1\nb,w,m,1\nb,commit\nc,begin\nc,r,m,1\nc,commit\n\
    c,begin\nc,w,n,1\nc,commit\nd,begin\nd,r,l,1\nd,w,o,1\nd,commit\ne,begin\ne,r,o,1\ne,w,p,1\ne,commit\n\
    f,begin\nf,r,p,1\nf,w,q,1\nf,commit\ng,begin\ng,r,q,1\ng,commit\ng,begin\ng,r,x,1\ng,commit\n\
    h,begin\nh,r,n,1\nh,r,x,1\nh,commit\n";

/// y/1 reads from r/1 what p/1 and p/2 overwrote. Two steps lead to it from p/1, and four from p/2, the last of its session. From r/1 two
/// reads lead to p/1. Over p/2 the cycle has eight steps, and without it five.
const SHORTCUT: &str =
    "p,begin\np,r,m,1\np,w,x,1\np,w,b,1\np,commit\np,begin\np,w,x,2\np,w,c,1\np,commit\n\
    r,begin\nr,w,x,3\nr,w,k,1\nr,commit\ns,begin\ns,r,k,1\ns,w,m,1\ns,commit\n\
    t,begin\nt,r,b,1\nt,w,d,1\nt,commit\nu,begin\nu,r,c,1\nu,w,e,1\nu,commit\n\
    v,begin\nv,r,e,1\nv,w,f,1\nv,commit\nw,begin\nw,r,f,1\nw,w,g,1\nw,commit\n\
    y,begin\ny,r,d,1\ny,r,g,1\ny,r,x,3\ny,commit\n";

/// c/1 reads from a/1 what b/1 and b/2 overwrote. It reads from b/1 too, and three steps lead to it from b/2. From a/1
/// fewest links lead to b/2 over z/1, with seven steps in all. By two reads a/1 comes to b/1, with four.
const CLOSING_BY_A_SOURCE: &str =
    "a,begin\na,w,x,1\na,w,k,1\na,commit\nb,begin\nb,r,m,1\nb,w,x,2\nb,w,l,1\nb,commit\n\
    b,begin\nb,w,x,3\nb,w,n,1\nb,w,y,1\nb,commit\nc,begin\nc,r,l,1\nc,r,p,1\nc,r,x,1\nc,commit\n\
    e,begin\ne,r,z,1\ne,r,y,1\ne,commit\nm,begin\nm,r,k,1\nm,w,m,1\nm,commit\n\
    n,begin\nn,r,n,1\nn,w,o,1\nn,commit\no,begin\no,r,o,1\no,w,p,1\no,commit\n\
    z,begin\nz,r,k,1\nz,w,y,2\nz,w,z,1\nz,commit\n";

/// c/1 and b/4 read an old x from a/1. Three steps lead to c/1 from b/5, the last to write x. Before b/4 that is b/3. As b/2 reads from
/// a/1, there are six steps over b/5, and four over b/3.
const CLOSING_BY_ITS_OWN: &str =
    "a,begin\na,w,x,1\na,w,k,1\na,commit\nb,begin\nb,w,x,2\nb,commit\nb,begin\nb,r,k,1\nb,commit\n\
    b,begin\nb,w,x,3\nb,commit\nb,begin\nb,r,x,1\nb,commit\nb,begin\nb,w,x,4\nb,w,l,1\nb,commit\n\
    c,begin\nc,r,n,1\nc,r,x,1\nc,commit\nd,begin\nd,r,l,1\nd,w,m,1\nd,commit\n\
    e,begin\ne,r,m,1\ne,w,n,1\ne,commit\n";

/// a/1 and b/1 have to come before each other, because of what c/1 and d/1 read: four steps. The links that are kept are longer: from a/2
/// to b/1 and from b/2 to a/1, of four steps each. Over z/1 the cycle has seven steps.
const TWO_CLOSINGS: &str =
    "a,begin\na,w,x,1\na,w,y,1\na,w,i,1\na,w,k,1\na,commit\na,begin\na,w,y,2\na,w,l,1\na,commit\n\
    b,begin\nb,w,x,2\nb,w,y,3\nb,w,j,1\nb,commit\nb,begin\nb,w,x,3\nb,w,m,1\nb,w,u,1\nb,commit\n\
    c,begin\nc,r,j,1\nc,r,p,1\nc,r,x,1\nc,commit\nd,begin\nd,r,k,1\nd,r,q,1\nd,r,y,3\nd,commit\n\
    e,begin\ne,r,z,1\ne,r,u,1\ne,commit\no,begin\no,r,m,1\no,w,o,1\no,commit\n\
    p,begin\np,r,o,1\np,w,p,1\np,commit\nq,begin\nq,r,l,1\nq,w,n,1\nq,commit\n\
    r,begin\nr,r,n,1\nr,w,q,1\nr,commit\nz,begin\nz,r,i,1\nz,w,u,2\nz,w,z,1\nz,commit\n";

/// A read from a/1 to b/1, with a link of six steps back; and links between p/1 and q/1. One of these has three steps. The
/// other has two, by the later of two keys and the later of its readers. By others it has three.
const KEYS_AND_READERS: &str =
    "a,begin\na,w,x,1\na,commit\nb,begin\nb,r,x,1\nb,w,x,2\nb,w,k,1\nb,commit\n\
    c,begin\nc,r,k,1\nc,w,l,1\nc,commit\nd,begin\nd,r,l,1\nd,w,m,1\nd,commit\n\
    e,begin\ne,r,m,1\ne,w,n,1\ne,commit\nf,begin\nf,r,n,1\nf,w,o,1\nf,commit\n\
    g,begin\ng,r,o,1\ng,r,x,1\ng,commit\np,begin\np,w,u,1\np,w,v,1\np,w,y,1\np,w,p,1\np,commit\n\
    q,begin\nq,w,u,2\nq,w,v,2\nq,w,y,2\nq,w,q,1\nq,commit\nr,begin\nr,r,p,1\nr,w,r,1\nr,commit\n\
    s,begin\ns,r,r,1\ns,r,u,2\ns,r,v,2\ns,commit\nt,begin\nt,r,p,1\nt,r,v,2\nt,commit\n\
    v,begin\nv,r,q,1\nv,w,s,1\nv,commit\nw,begin\nw,r,s,1\nw,r,y,1\nw,commit\n";

/// A cycle of three links of two steps each, at the lower numbers, and one of five reads. `Atomic` keeps links also where pairs form a
/// cycle, and `Causal` none.
const PAIRS_BESIDE_LINKS: &str =
    "a,begin\na,w,x,1\na,w,z,2\na,commit\na,begin\na,r,x,2\na,commit\nb,begin\nb,w,x,2\nb,w,y,1\nb,commit\n\
    b,begin\nb,r,y,2\nb,commit\nc,begin\nc,w,y,2\nc,w,z,1\nc,commit\nc,begin\nc,r,z,2\nc,commit\n\
    m,begin\nm,r,u,1\nm,w,p,1\nm,commit\nn,begin\nn,r,p,1\nn,w,q,1\nn,commit\n\
    o,begin\no,r,q,1\no,w,s,1\no,commit\np,begin\np,r,s,1\np,w,t,1\np,commit\n\
    q,begin\nq,r,t,1\nq,w,u,1\nq,commit\n";

/// The same three links; and a cycle of two links of two steps each, and a read. Around one of its transactions leads a link of three
/// steps, which `Atomic` doesn't allow.
const WALK_OF_TWO: &str =
    "a,begin\na,w,x,1\na,w,z,2\na,commit\na,begin\na,r,x,2\na,commit\nb,begin\nb,w,x,2\nb,w,y,1\nb,commit\n\
    b,begin\nb,r,y,2\nb,commit\nc,begin\nc,w,y,2\nc,w,z,1\nc,commit\nc,begin\nc,r,z,2\nc,commit\n\
    p,begin\np,r,k,1\np,w,u,1\np,w,w,1\np,w,m,1\np,commit\np,begin\np,r,u,2\np,commit\n\
    q,begin\nq,w,u,2\nq,w,v,1\nq,commit\nq,begin\nq,r,v,2\nq,commit\n\
    r,begin\nr,w,v,2\nr,w,w,2\nr,w,k,1\nr,commit\ns,begin\ns,r,m,1\ns,w,n,1\ns,commit\n\
    t,begin\nt,r,n,1\nt,r,w,2\nt,commit\n";

/// How many steps the cycle decided of these records at a level has, if there is one.
fn steps_decided(rt: &impl Abort, alloc: Global, records: &str, level: Level) -> Option<usize> {
    let graph = graph_of(rt, alloc, records);
    let (decision, _order) = decide(alloc, &graph, level).expect(rt, "no memory");
    match decision.links() {
        Some(links) => Some(steps_of(links).expect(rt, "no memory")),
        None => None,
    }
}

/// At each level the cycle has this many steps. No other has fewer.
#[test]
fn steps_found(rt: HostRuntime) {
    let alloc = rt.alloc();
    let cases: [(&str, Option<usize>, Option<usize>); 11] = [
        (ROUNDS, Some(4), Some(4)),
        (FAR_PAIRS, Some(4), Some(4)),
        (INIT, Some(5), None),
        (LATER_WRITERS, Some(6), None),
        (SHORTCUT, Some(5), None),
        (CLOSING_BY_A_SOURCE, Some(4), Some(4)),
        (CLOSING_BY_ITS_OWN, Some(4), Some(4)),
        (TWO_CLOSINGS, Some(4), Some(4)),
        (KEYS_AND_READERS, Some(5), None),
        (PAIRS_BESIDE_LINKS, Some(5), Some(5)),
        (WALK_OF_TWO, Some(4), Some(5)),
    ];
    for (records, causal, atomic) in cases {
        let found = steps_decided(&rt, alloc, records, Level::Causal);
        assert!(&rt; found == causal, "of {records}");
        let found = steps_decided(&rt, alloc, records, Level::Atomic);
        assert!(&rt; found == atomic, "of {records}, at atomic");
    }
}
