//! The transactions over which a derived link leads back, and marked indices as a list, while there are few enough. For N transactions this
//! takes N steps.
ghost use Rattle.std.specs.Prelude.{◌≡◌, ◌<◌, ◌≤◌, ◌↔◌, length, IfOk, IsTrue, MatchOption};
ghost use Rattle.tcc_graph.specs.Orders.{IsNumbering};
ghost use Rattle.tcc_judge.specs.Spanned.{AreFew};
ghost use Rattle.tcc_judge.specs.private.Members.{AreListed, AreMarkedBoth, AreMarkedLed, AreMarkedUnder, AreThose, IsMarked};

use std::alloc::Global;
use tcc_txn::NoMemory;

/// Whether a place is not after a last one, if there is one.
fn is_under(place: usize, far: u32) -> bool
    ensures { IsTrue result ↔ ((0 < far) × (place ≤ far)) }
{
    0 < far && place <= far as usize
}

/// Marks the transactions whose place is not after the last one of a place up to it.
pub(crate) fn marked_under(
    alloc: Global,
    count: u32,
    order: &[u32],
    lasts: &[u32],
) -> Result<Vec<bool>, NoMemory>
    requires numbering { IsNumbering count order.now }
    requires long { length lasts.now ≡ length order.now }
    ensures { IfOk result (λ marks. AreMarkedUnder count order.now lasts.now (length order.now) marks.items) }
{
    let mut marks = vec![in alloc; false; count as usize]?;
    let mut far = 0;
    for (place, number) in order.iter().enumerate() {
        far = lasts[place].max(far);
        marks[*number as usize] = is_under(place, far);
    }
    Ok(marks)
}

/// Marks the transactions to which something leads back, by the last that does so for each place; 0 is none.
pub(crate) fn marked_led(
    alloc: Global,
    count: u32,
    order: &[u32],
    lasts: &[u32],
) -> Result<Vec<bool>, NoMemory>
    requires numbering { IsNumbering count order.now }
    requires long { length lasts.now ≡ length order.now }
    ensures { IfOk result (λ marks. AreMarkedLed count order.now lasts.now (length order.now) marks.items) }
{
    let mut marks = vec![in alloc; false; count as usize]?;
    for (place, number) in order.iter().enumerate() {
        marks[*number as usize] = 0 < lasts[place];
    }
    Ok(marks)
}

/// Marks what both lists mark.
pub(crate) fn both_marked(
    alloc: Global,
    one: &[bool],
    other: &[bool],
) -> Result<Vec<bool>, NoMemory>
    requires { length one.now ≡ length other.now }
    ensures { IfOk result (λ marks. AreMarkedBoth one.now other.now (length one.now) marks.items) }
{
    let mut marks = Vec::new(alloc);
    for (index, mark) in one.iter().enumerate() {
        marks.push(*mark && other[index])?;
    }
    Ok(marks)
}

/// The indices that are marked, ascending; none where there are more than `most`.
pub(crate) fn marked(
    alloc: Global,
    marks: &[bool],
    most: usize,
) -> Result<Option<Vec<u32>>, NoMemory>
    ensures { IfOk result (λ found. MatchOption found
        (AreFew most (IsMarked marks.now) → ⊥)
        (λ list. AreThose most (IsMarked marks.now) list.items)) }
{
    let mut found = Vec::new(alloc);
    for (index, mark) in marks.iter().enumerate() {
        if *mark {
            if found.len() >= most {
                return Ok(None);
            }
            let Ok(number) = u32::try_from(index) else {
                return Err(NoMemory);
            };
            found.push(number)?;
        }
    }
    Ok(Some(found))
}

/// The indices that are marked, ascending.
pub(crate) fn all_marked(alloc: Global, marks: &[bool]) -> Result<Vec<u32>, NoMemory>
    ensures { IfOk result (λ list. AreListed (IsMarked marks.now) list.items) }
{
    let mut found = Vec::new(alloc);
    for (index, mark) in marks.iter().enumerate() {
        if *mark {
            let Ok(number) = u32::try_from(index) else {
                return Err(NoMemory);
            };
            found.push(number)?;
        }
    }
    Ok(found)
}
