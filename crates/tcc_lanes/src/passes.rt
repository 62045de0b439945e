//! Two passes along an order, by the derived links that lead back in it: forward from where they end, and backward from where they
//! begin. Each takes N steps for N transactions.
ghost use Rattle.std.specs.Prelude.{◌≡◌, ◌<◌, ◌&&◌, ◌||◌, length, All, IfOk};
ghost use Rattle.tcc_lanes.specs.declared.pricing.TheConstants.{NONE};
ghost use Rattle.tcc_lanes.specs.private.Passes.{AreBeyond, AreCovered, ArePricesOf, AreReachedOn};

use crate::pricing::NONE;
use std::alloc::Global;
use tcc_txn::NoMemory;

/// For each place of the order whether one leads back from after it to it or before it.
pub(crate) fn covered(alloc: Global, order: &[u32], lasts: &[u32]) -> Result<Vec<bool>, NoMemory>
    requires { All (λ v. v < length lasts.now) order.now }
    ensures { IfOk result (λ covered. AreCovered order.now lasts.now (length order.now) covered.items) }
{
    let mut covered = Vec::new(alloc);
    let mut far = 0;
    for (place, number) in order.iter().enumerate() {
        far = lasts[*number as usize].max(far);
        covered.push(place < far as usize)?;
    }
    Ok(covered)
}

/// Whether the next place is reached: this one is reached or a link ends here, and it is covered.
fn is_reached(here: bool, ends: bool, on: bool) -> bool
    ensures { result ≡ ((here || ends) && on) }
{
    (here || ends) && on
}

/// For each place of the order whether it is reached from an earlier place where one ends, over covered places only.
pub(crate) fn reached_on(
    alloc: Global,
    order: &[u32],
    lasts: &[u32],
    covered: &[bool],
) -> Result<Vec<bool>, NoMemory>
    requires inside { All (λ v. v < length lasts.now) order.now }
    requires long { length covered.now ≡ length order.now }
    ensures { IfOk result (λ reached. AreReachedOn order.now lasts.now covered.now (length order.now) reached.items) }
{
    let mut reached = Vec::new(alloc);
    let mut here = false;
    for (place, number) in order.iter().enumerate() {
        reached.push(here)?;
        let ends = 0 < lasts[*number as usize];
        let on = covered[place];
        here = is_reached(here, ends, on);
    }
    Ok(reached)
}

/// For each place of the order the least price of one that begins after it, over covered places only.
pub(crate) fn beyond(
    alloc: Global,
    order: &[u32],
    prices: &[u32],
    covered: &[bool],
) -> Result<Vec<u32>, NoMemory>
    requires inside { All (λ v. v < length prices.now) order.now }
    requires prices { ArePricesOf (length prices.now) prices.now }
    requires long { length covered.now ≡ length order.now }
    ensures { IfOk result (λ beyond. AreBeyond order.now prices.now covered.now 0 beyond.items) }
{
    let mut found = vec![in alloc; NONE; order.len()]?;
    let mut later = NONE;
    for place in (0..order.len()).rev() {
        let here = if covered[place] { later } else { NONE };
        found[place] = here;
        later = prices[order[place] as usize].min(here);
    }
    Ok(found)
}
