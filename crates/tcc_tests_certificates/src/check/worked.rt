//! Worked histories, and their graphs.
use std::alloc::Global;
use std::process::Abort;
use tcc_graph::Graph;
use tcc_reads::resolve;
use tcc_rows::snapshot_of;

/// a/1 writes x, and a/2 reads its initial value.
pub const STALE: &str = "a,begin\na,w,x,1\na,commit\na,begin\na,r,x,0\na,commit\n";

/// a/1 writes x, a/2 reads its initial value, and a/3 writes y.
pub const LONGER: &str = "a,begin\na,w,x,1\na,commit\na,begin\na,r,x,0\na,commit\n\
    a,begin\na,w,y,1\na,commit\n";

/// a/1 and b/1 write x, and c/1 reads both values.
pub const TORN: &str = "a,begin\na,w,x,1\na,commit\nb,begin\nb,w,x,2\nb,commit\n\
    c,begin\nc,r,x,1\nc,r,x,2\nc,commit\n";

/// What a/1 writes reaches c/1 by way of b/1, and c/2 reads the initial value.
pub const RELAYED: &str = "a,begin\na,w,x,1\na,commit\nb,begin\nb,r,x,1\nb,w,y,1\nb,commit\n\
    c,begin\nc,r,y,1\nc,commit\nc,begin\nc,r,x,0\nc,commit\n";

/// c/1 and d/1 see the writes of a/1 and b/1 in different orders.
pub const FORKED: &str = "a,begin\na,w,x,1\na,commit\nb,begin\nb,w,y,1\nb,commit\n\
    c,begin\nc,r,x,1\nc,r,y,0\nc,commit\nd,begin\nd,r,x,0\nd,r,y,1\nd,commit\n";

/// a/1 and b/1 read from one another.
pub const CROSSED: &str =
    "a,begin\na,w,x,1\na,r,y,1\na,commit\nb,begin\nb,w,y,1\nb,r,x,1\nb,commit\n";

/// b/1 had observed a/2, but reads the value from before a/1: no single pair leads from a/1 to b/1.
pub const DISTANT: &str = "a,begin\na,w,x,1\na,commit\na,begin\na,w,y,1\na,commit\n\
    b,begin\nb,r,y,1\nb,r,x,0\nb,commit\n";

/// a/1 and a/2 write different keys.
pub const TWO: &str = "a,begin\na,w,x,1\na,commit\na,begin\na,w,y,1\na,commit\n";

/// a/1 is aborted, and a/2 writes x.
pub const ABORTED: &str = "a,begin\na,w,x,9\na,abort\na,begin\na,w,x,1\na,commit\n";

/// The graph of the history of these records.
pub fn graph_of(rt: &impl Abort, alloc: Global, records: &str) -> Graph {
    let snapshot = snapshot_of(alloc, records.as_bytes()).expect(rt, records);
    let resolved = resolve(alloc, &snapshot).expect(rt, records);
    Graph::build(alloc, resolved).expect(rt, records)
}
