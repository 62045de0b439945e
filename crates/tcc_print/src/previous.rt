//! What a run said last.
ghost use Rattle.std.specs.Prelude.{◌≡◌, ◌≢◌, IfSome, MatchResult, Some};

/// What a run said last.
#[derive(Drop)]
pub struct PreviousAnswer<O> {
    pub outcome: O,
    /// How many transactions it was said for.
    pub transactions: usize,
}

/// What was said last, where that was for this number of transactions, since nothing was finished after it. Else, as an error, what was
/// said last, if anything was.
pub fn unchanged<O>(
    last: Option<PreviousAnswer<O>>,
    transactions: usize,
) -> Result<PreviousAnswer<O>, Option<PreviousAnswer<O>>>
    ensures { MatchResult result (λ same. (last ≡ Some same) × (same.transactions ≡ transactions))
        (λ other. (other ≡ last) × IfSome last (λ last. last.transactions ≢ transactions)) }
{
    let Some(last) = last else {
        return Err(None);
    };
    if last.transactions == transactions {
        Ok(last)
    } else {
        Err(Some(last))
    }
}
