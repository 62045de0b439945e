//! Lists in order, each item once.
ghost use Rattle.std.specs.Prelude.{◌≡◌};
ghost use Rattle.tcc_reads.specs.{Sources.sorted_once, private.Sorting.TellsApart};

/// The items in order, each once, in no more memory than they take.
pub(crate) fn sorted_once<T: Ord + Copy>(mut items: Vec<T>) -> Vec<T>
    requires { TellsApart T.cmp }
    ensures { result.items ≡ sorted_once T.cmp items.items }
{
    items.sort_unstable();
    items.dedup();
    items.shrink_to_fit();
    items
}
