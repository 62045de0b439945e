//! The laws of records. What they finish keeps the limits of a snapshot, and depends on the records of each session alone. If
//! the bytes are too many, the last record is the fault. What the small limits accept has the same answers under the large
//! ones.
ghost use Rattle.std.specs.Prelude.{◌≡◌, ◌≢◌, ◌<◌, ◌++◌, ℕ, List, [], None, Some, false, fold, length, map, take};
ghost use Rattle.std.specs.FinMap as sessions;
ghost use Rattle.tcc_rows.specs.{BothLimits.KeepsSmall, Failing.AreLawful, Failing.records_before, Items.finished_in, Items.with_item, Settling.Pending, Settling.told, Settling.with_shown, declared.rows.Item.Item, declared.fault.RowFaultKind.TheVariants.Read};
ghost use Rattle.tcc_rows.specs.Answers.{answers_of, answers_within, records_of};
ghost use Rattle.tcc_rows.specs.Interleaved.{AreInterleaved, AreSealedAlike, records_by_none};
ghost use Rattle.tcc_rows.specs.Recordings.{has_seal, items_until, seals_in};
ghost use Rattle.tcc_txn.specs.{Finished.KeepsLimits, Nested.IsNested, Snapshots.Sessions, Snapshots.snapshot_fault, declared.limits.Limits.TheVariants.Large, declared.limits.TheConstants.MAX_INPUT_BYTES};

/// What the first items of a text finish, however many, is a snapshot: there are not too many sessions and transactions.
pub fn finished_is_snapshot()
    ensures limits { (text : List ℕ) (n : ℕ) → KeepsLimits (finished_in (take n (answers_of text).items)) }
    ensures taken { (text : List ℕ) (n : ℕ) → snapshot_fault (sessions.entries (finished_in (take n (answers_of text).items))) ≡ None }
{}

/// Two texts with the same records of each session, interleaved anyhow, finish the same if both have no fault, wherever they
/// seal. If they also have the same records without a session, one has no fault if the other has none. A text whose records
/// all have a session has no seal.
pub fn interleaved()
    ensures finished { (text other : List ℕ) → AreInterleaved (records_of text) (records_of other) → (answers_of text).fault ≡ None
        → (answers_of other).fault ≡ None → finished_in (answers_of text).items ≡ finished_in (answers_of other).items }
    ensures lawful { (text other : List ℕ) → AreInterleaved (records_of text) (records_of other)
        → records_by_none (records_of text) ≡ records_by_none (records_of other) → (answers_of text).fault ≡ None
        → (answers_of other).fault ≡ None }
    ensures unsealed { (text : List ℕ) → records_by_none (records_of text) ≡ [] → has_seal (answers_of text).items ≡ false }
{}

/// Take two texts with the same records of each session, interleaved anyhow, and with the seals after the same records of each
/// session. If one has no fault, the other has none, and there are as many seals. Before each seal, and in the end, they
/// finish the same.
pub fn sealed_alike()
    ensures lawful { (text other : List ℕ) → AreSealedAlike (records_of text) (records_of other) → (answers_of text).fault ≡ None
        → (answers_of other).fault ≡ None }
    ensures seals { (text other : List ℕ) → AreSealedAlike (records_of text) (records_of other) → (answers_of text).fault ≡ None
        → seals_in (answers_of text).items ≡ seals_in (answers_of other).items }
    ensures finished { (text other : List ℕ) → AreSealedAlike (records_of text) (records_of other) → (answers_of text).fault ≡ None
        → (k : ℕ) → finished_in (items_until (answers_of text).items k) ≡ finished_in (items_until (answers_of other).items k) }
{}

/// A text of more bytes than the limit has a fault. If all records that end within the limit are lawful, the fault is `Read`,
/// at the one record after them.
pub fn past_the_limit()
    ensures faulty { (text : List ℕ) → MAX_INPUT_BYTES < length text → (answers_of text).fault ≢ None }
    ensures read { (text : List ℕ) → MAX_INPUT_BYTES < length text
        → AreLawful [] (records_before (length (records_of text)) (records_of text))
        → (answers_of text).fault ≡ Some (record { row = length (records_of text); kind = Read }) }
{}

/// A text without a fault under the small limits has the same answers under the large ones: the same items, and no fault. So
/// has each text of at most as many bytes as the small limit allows whose fault isn't too many sessions, transactions, keys or
/// seals.
pub fn within_large()
    ensures lawful { (text : List ℕ) → (answers_of text).fault ≡ None → answers_within Large text ≡ answers_of text }
    ensures kept { (text : List ℕ) → (answers_of text).fault ≡ None → KeepsSmall text }
    ensures same { (text : List ℕ) → KeepsSmall text → answers_within Large text ≡ answers_of text }
{}

/// What some items finish is continued by what they finish together with more.
pub fn finished_continues()
    ensures { (items more : List Item) → IsNested (finished_in items) (finished_in (items ++ more)) }
{}

/// Whichever other pending transactions were committed in truth: what is finished, when only those count of which a value was
/// read, is continued by what is finished with the others too. So by the law `tcc_explain::laws::grown` leaving them out makes
/// no anomaly.
pub fn settling_continues()
    ensures { (s : Sessions) (pending others : Pending) → IsNested (with_shown s pending) (fold with_item (with_shown s pending) (map told others)) }
{}
