//! The links other than session links by cost, of those within the limit, from a bucket sort by cost (`by_cost`). Those of a
//! small cost that many have become a row of marks, and the others are listed one by one. Each link is in exactly one of the
//! two. For N transactions, M links and limit C that takes N C + M steps, and N / 64 words for each row of marks.
ghost use Rattle.std.specs.Prelude.{◌≡◌, ◌<◌, ◌≤◌, ◌+◌, length, All, IfOk, slice_index};
ghost use Rattle.tcc_txn.specs.declared.limits.TheConstants.{MAX_COUNT};
ghost use Rattle.tcc_graph.specs.Tables.{row_of};
ghost use Rattle.tcc_derive.specs.private.Classes.{IsMarksOf, ArePartedBelow, HasClassRows};

use crate::by_cost::cost_buckets;
use rayon::prelude::*;
use std::alloc::Global;
use std::thread::Threads;
use tcc_bits::{ROWS_A_THREAD, Row, mark, words_for};
use tcc_txn::NoMemory;

/// Links that cost more have no row of marks.
const DEAREST: usize = 16;

/// If at least this many links have a cost, they have a row of marks.
const MANY: usize = 32;

/// The links of one cost: the transactions that they lead to are marked.
#[derive(Drop)]
pub struct Class {
    pub cost: u16,
    pub marks: Row<u64>,
}

/// Links by cost: those of a small cost that many have as a row of marks, the others one by one with their costs.
#[derive(Drop)]
pub struct ByClass {
    pub classes: Vec<Class>,
    pub rest: Row<(u16, u16)>,
}

/// A row that marks what these links lead to.
fn marks_of(alloc: Global, links: &[(u16, u16)], count: usize) -> Result<Row<u64>, NoMemory>
    requires { All (λ p. p.0 < count) links.now }
    ensures { IfOk result (IsMarksOf count links.now) }
{
    let mut marks = vec![in alloc; 0; words_for(count)]?;
    for link in links {
        mark(&mut marks, link.0 as usize);
    }
    Ok(Row::new(marks))
}

/// The others outside `first..end` that cost at most the limit, by cost.
fn by_class_row(
    alloc: Global,
    others: &[(u32, u32)],
    first: u32,
    end: u32,
    limit: u16,
    count: usize,
) -> Result<ByClass, NoMemory>
    requires few { count ≤ MAX_COUNT }
    requires within { All (λ p. p.0 < count) others.now }
    ensures { IfOk result (λ links. ArePartedBelow count first end others.now (limit + 1) links.classes.items links.rest) }
{
    let buckets = cost_buckets(alloc, others, first, end, limit)?;
    let many = words_for(count).max(MANY);
    let mut classes = Vec::new(alloc);
    let mut rest = Vec::new(alloc);
    for (cost, bucket) in buckets.iter().enumerate() {
        let links = bucket.as_slice();
        if cost <= DEAREST && links.len() >= many {
            let marks = marks_of(alloc, links, count)?;
            classes.push(Class {
                cost: cost as u16,
                marks,
            })?;
        } else {
            rest.extend_from_slice(links)?;
        }
    }
    Ok(ByClass {
        classes,
        rest: Row::new(rest),
    })
}

/// The links of each transaction by cost, outside the later ones of its session: in rows of marks and one by one.
pub(crate) fn by_class_rows(
    rt: &(impl Threads + Sync),
    alloc: Global,
    others: &[Row<(u32, u32)>],
    ends: &[u32],
    limit: u16,
) -> Result<Vec<ByClass>, NoMemory>
    requires few { length others.now ≤ MAX_COUNT }
    requires ends { length ends.now ≡ length others.now }
    requires within { All (λ row. All (λ p. p.0 < length others.now) row) others.now }
    ensures { IfOk result (λ rows. HasClassRows ends.now others.now limit rows.items) }
{
    (0..others.len())
        .into_par_iter()
        .map(
            |u: usize| -> Result<ByClass, NoMemory>
                requires { (u < length others.now) × (length others.now ≤ MAX_COUNT) × (length ends.now ≡ length others.now)
                    × All (λ p. p.0 < length others.now) (row_of others.now u) }
                ensures { IfOk result (λ links. ArePartedBelow (length others.entry.now) (u + 1) (slice_index ends.entry.now u)
                    (row_of others.entry.now u) (limit + 1) links.classes.items links.rest) }
            {
                by_class_row(
                    alloc,
                    others[u].as_slice(),
                    u as u32 + 1,
                    ends[u],
                    limit,
                    others.len(),
                )
            },
        )
        .with_min_len(ROWS_A_THREAD)
        .collect::<Result<Vec<ByClass>, NoMemory>>(rt, alloc)?
}
