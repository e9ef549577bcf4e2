//! The laws of the aggregates, for states of any kind and rows of them. Each is the contract of a
//! function that does nothing.

ghost use Rattle.std.specs.Prelude.{◌≡◌, ℕ, ◌+◌, ◌≤◌, ◌↔◌, ℤ, List, [], ◌∷◌, ◌++◌, length};
ghost use Rattle.std.specs.Prelude.{IsPermutation, ◌≤ℤ◌, Some, None, Contains, All};
ghost use Rattle.std.specs.Cmp.{IsTotalOrder};
ghost use Rattle.agg_laws.specs.declared.aggregate_kind.AggKind.{AggKind};
ghost use Rattle.agg_laws.specs.declared.states.AggState.{AggState};
ghost use Rattle.agg_laws.specs.Kind.{width_of};
ghost use Rattle.agg_laws.specs.Numbers.{least_of, greatest_of, AreWhole, most_stored};
ghost use Rattle.agg_laws.specs.States.{kind_of, state_of, unit_of, merged, Fits, IsStored};
ghost use Rattle.agg_laws.specs.States.{spelling};
ghost use Rattle.agg_laws.specs.Rows.{row_of, units_of, kinds_of, merged_rows, RowFits, RowStored};
ghost use Rattle.agg_laws.specs.Rows.{weight_of, row_weight};
ghost use Rattle.agg_laws.specs.Order.{state_order};

/// The state of a list goes by its numbers alone, in any grouping and order, and how many values
/// states stand for adds up.
pub fn aggregates_law()
    ensures of_none { (k : AggKind) → state_of k [] ≡ unit_of k }
    ensures nothing_added { (v : AggState) → merged v (unit_of (kind_of v)) ≡ v }
    ensures of_both { (k : AggKind) (xs ys : List ℤ)
        → state_of k (xs ++ ys) ≡ merged (state_of k xs) (state_of k ys) }
    ensures any_grouping { (u v w : AggState) → merged (merged u v) w ≡ merged u (merged v w) }
    ensures any_order { (v w : AggState) → merged v w ≡ merged w v }
    ensures permuted { (k : AggKind) (xs ys : List ℤ) → IsPermutation xs ys
        → state_of k ys ≡ state_of k xs }
    ensures fits_of { (k : AggKind) (xs : List ℤ) → AreWhole xs → Fits (state_of k xs) (length xs) }
    ensures fits_both { (v w : AggState) (n m : ℕ) → Fits v n → Fits w m
        → Fits (merged v w) (n + m) }
    ensures fits_more { (v : AggState) (n m : ℕ) → Fits v n → n ≤ m → Fits v m }
{}

/// Each stored state stands for no more values than a segment has rows, and of a kind has a
/// spelling of its own, of the kind's width.
pub fn spellings_law()
    ensures stored_fits { (v : AggState) → IsStored v → Fits v most_stored }
    ensures spelled { (v : AggState) → IsStored v → length (spelling v) ≡ width_of (kind_of v) }
    ensures one_spelling { (v w : AggState) → kind_of v ≡ kind_of w → IsStored v → IsStored w
        → spelling v ≡ spelling w → v ≡ w }
{}

/// The same place by place.
pub fn rows_law()
    ensures of_none { (ks : List AggKind) → row_of ks [] ≡ units_of ks }
    ensures nothing_added { (vs : List AggState) → merged_rows vs (units_of (kinds_of vs)) ≡ vs }
    ensures of_both { (ks : List AggKind) (xs ys : List (List ℤ))
        → row_of ks (xs ++ ys) ≡ merged_rows (row_of ks xs) (row_of ks ys) }
    ensures any_grouping { (us vs ws : List AggState)
        → merged_rows (merged_rows us vs) ws ≡ merged_rows us (merged_rows vs ws) }
    ensures any_order { (vs ws : List AggState) → merged_rows vs ws ≡ merged_rows ws vs }
    ensures permuted { (ks : List AggKind) (xs ys : List (List ℤ)) → IsPermutation xs ys
        → row_of ks ys ≡ row_of ks xs }
    ensures fits_both { (vs ws : List AggState) (n m : ℕ) → RowFits vs n → RowFits ws m
        → RowFits (merged_rows vs ws) (n + m) }
    ensures fits_more { (vs : List AggState) (n m : ℕ) → RowFits vs n → n ≤ m → RowFits vs m }
{}

/// The weight of states is the least number of values that they can come from. Weights add up when
/// states are merged, and stored states that weigh no more than a segment has rows are stored when
/// they are merged.
pub fn weights_law()
    ensures least { (v : AggState) (n : ℕ) → Fits v n → weight_of v ≤ n }
    ensures reached { (v : AggState) (n : ℕ) → Fits v n → Fits v (weight_of v) }
    ensures both { (v w : AggState) → weight_of (merged v w) ≤ weight_of v + weight_of w }
    ensures row_least { (vs : List AggState) (n : ℕ) → RowFits vs n → row_weight vs ≤ n }
    ensures row_reached { (vs : List AggState) (n : ℕ) → RowFits vs n → RowFits vs (row_weight vs) }
    ensures row_both { (vs ws : List AggState)
        → row_weight (merged_rows vs ws) ≤ row_weight vs + row_weight ws }
    ensures stored { (vs ws : List AggState) → RowStored vs → RowStored ws
        → row_weight vs + row_weight ws ≤ most_stored → RowStored (merged_rows vs ws) }
{}

/// The order of states is total.
pub fn order_law()
    ensures { IsTotalOrder state_order }
{}

/// The least of some numbers is one of them and no greater than any, and there is none just of no
/// numbers; the greatest likewise.
pub fn extremes_law()
    ensures least { (xs : List ℤ) (m : ℤ) → least_of xs ≡ Some m
        → Contains xs m × All (λ x. m ≤ℤ x) xs }
    ensures no_least { (xs : List ℤ) → least_of xs ≡ None → xs ≡ [] }
    ensures greatest { (xs : List ℤ) (m : ℤ) → greatest_of xs ≡ Some m
        → Contains xs m × All (λ x. x ≤ℤ m) xs }
    ensures no_greatest { (xs : List ℤ) → greatest_of xs ≡ None → xs ≡ [] }
{}
