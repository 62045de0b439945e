//! A feedback vertex set of the links among members: each cycle of them passes one of its members. It is the targets of the links that lead
//! back in a depth-first search (Tarjan, SIAM J. Comput. 1(2), 1972). A link that doesn't lead back leads to a member that the search
//! leaves earlier. For M members this takes some M * M steps.
ghost use Rattle.std.specs.Prelude.{◌≡◌, ◌≢◌, ◌≤◌, ◌<◌, ◌↔◌, ◌⊎◌, ◌==◌, ℕ, true, false, length, slice_index, slice_index_or, if◌then◌else◌, All, IfOk, IsTrue, MatchOption};
ghost use Rattle.tcc_lanes.specs.declared.pricing.TheConstants.{NONE};
ghost use Rattle.tcc_lanes.specs.private.Feedback.{IsFeedbackVertexSet, IsMarked, IsUnseen};
ghost use Rattle.tcc_lanes.specs.private.Pricing.{IsTable};

use crate::pricing::NONE;
use crate::stretches::PriceRow;
use std::alloc::Global;
use tcc_txn::NoMemory;

/// Whether a link has a price, and leads to a member that the search hasn't seen.
fn is_unseen(price: u32, is_seen: bool) -> bool
    ensures { IsTrue result ↔ ((price ≢ NONE) × (is_seen ≡ false)) }
{
    price != NONE && !is_seen
}

/// The first member that the search hasn't seen and to which these prices have a link.
fn first_unseen(prices: &[u32], seen: &[bool]) -> Option<usize>
    requires { length prices.now ≡ length seen.now }
    ensures { MatchOption result ((v : ℕ) → v < length seen.now → IsUnseen prices.now seen.now v → ⊥)
        (λ v. (v < length seen.now) × IsUnseen prices.now seen.now v × ((u : ℕ) → u < v → IsUnseen prices.now seen.now u → ⊥)) }
{
    for (column, is_seen) in seen.iter().enumerate() {
        if is_unseen(prices[column], *is_seen) {
            return Some(column);
        }
    }
    None
}

/// The members in descending order; a search is to begin at each of them.
fn roots(alloc: Global, count: usize) -> Result<Vec<usize>, NoMemory>
    ensures { IfOk result (λ path. All (λ v. v < count) path.items) }
{
    let mut path = Vec::new(alloc);
    for above in 0..count {
        path.push(count - above - 1)?;
    }
    Ok(path)
}

/// The turn at which the search first left a member; 0 is none.
fn first_turn(left: usize, turn: usize) -> usize
    ensures { result ≡ (if left == 0 then turn else left) }
{
    if left == 0 { turn } else { left }
}

/// For each member the turn at which a depth-first search leaves it. Whatever these turns are, the set made of them is a feedback vertex
/// set; those of a search make it a small one.
fn turns_left(alloc: Global, rows: &[PriceRow]) -> Result<Vec<usize>, NoMemory>
    requires table { IsTable rows.now }
    ensures { IfOk result (λ left. length left.items ≡ length rows.now) }
{
    let mut left = vec![in alloc; 0; rows.len()]?;
    let mut seen = vec![in alloc; false; rows.len()]?;
    let mut path = roots(alloc, rows.len())?;
    // Each member is taken up as a root and for each link that leads to it, with one more turn for each such link.
    for turn in 1..rows.len().saturating_mul(3).saturating_add(1) {
        let Some(at) = path.pop() else {
            return Ok(left);
        };
        seen[at] = true;
        let prices = rows[at].prices(alloc)?;
        match first_unseen(&prices, &seen) {
            Some(to) => {
                path.push(at)?;
                path.push(to)?;
            }
            None => left[at] = first_turn(left[at], turn),
        }
    }
    Ok(left)
}

/// Whether a member is marked, or a link to it has a price and the search doesn't leave it before a turn.
fn is_back(is_marked: bool, price: u32, left: usize, turn: usize) -> bool
    ensures { IsTrue result ↔ (IsTrue is_marked ⊎ ((price ≢ NONE) × (turn ≤ left))) }
{
    is_marked || price != NONE && turn <= left
}

/// Marks the members to which a link of these prices leads and that the search doesn't leave before a turn.
fn mark_back(prices: &[u32], left: &[usize], turn: usize, marks: &mut [bool])
    requires prices { length prices.now ≡ length marks.old }
    requires left { length left.now ≡ length marks.old }
    ensures same { length marks.new ≡ length marks.old }
    ensures each { (v : ℕ) → v < length marks.old → IsMarked marks.new v
        ↔ (IsMarked marks.old v ⊎ ((slice_index prices.now v ≢ NONE) × (turn ≤ slice_index left.now v))) }
{
    for (v, mark) in marks.iter_mut().enumerate() {
        *mark = is_back(*mark, prices[v], left[v], turn);
    }
}

/// Marks a feedback vertex set: each cycle of links among the members passes a member of it.
pub(crate) fn feedback_vertices(alloc: Global, rows: &[PriceRow]) -> Result<Vec<bool>, NoMemory>
    requires table { IsTable rows.now }
    ensures { IfOk result (λ marks. IsFeedbackVertexSet rows.now marks.items) }
{
    let left = turns_left(alloc, rows)?;
    let mut marks = vec![in alloc; false; rows.len()]?;
    for (from, row) in rows.iter().enumerate() {
        let prices = row.prices(alloc)?;
        mark_back(&prices, &left, left[from], &mut marks);
    }
    Ok(marks)
}
