//! The laws of merged documents and of the star-tree. Each is the contract of a function that does
//! nothing.

ghost use Rattle.std.specs.Prelude.{◌≡◌, ℕ, ◌+◌, ◌-◌, ◌*◌, ◌++◌, replicate, ◌<◌, ◌≤◌, Bool, true};
ghost use Rattle.std.specs.Prelude.{ℤ, List, length, map, sum, IsTrue, IsPermutation, None, []};
ghost use Rattle.std.specs.Prelude.{◌↔◌};
ghost use Rattle.std.specs.List.{filter};
ghost use Rattle.std.specs.FinMap.{is_sorted, find};
ghost use Rattle.std.specs.Ordering.{eq_by_cmp};
ghost use Rattle.agg_laws.specs.declared.aggregate_kind.AggKind.{AggKind};
ghost use Rattle.agg_laws.specs.declared.states.AggState.{AggState};
ghost use Rattle.agg_laws.specs.declared.tree_shape.TreeShape.{TreeShape};
ghost use Rattle.agg_laws.specs.Numbers.{most_stored};
ghost use Rattle.agg_laws.specs.Rows.{merged_rows, row_weight};
ghost use Rattle.agg_laws.specs.Merged.{total, rekey, weights};
ghost use Rattle.agg_laws.specs.Tree.{star, dims_order, set_star, CoversRows, merged_docs, tree_of};
ghost use Rattle.agg_laws.specs.Tree.{HaveNoStar, Nodes, CoversTree, rows_at};
ghost use Rattle.state_columns.specs.Docs.{Doc, HaveIds, AreStored, FitShares, projected};
ghost use Rattle.state_columns.specs.Docs.{states_of};
ghost use Rattle.state_columns.specs.Documents.{aggregated, one_document, documents_of};
ghost use Rattle.star_tree.specs.Picks.{Task, picks, read_of, ArePartedBy, KeepGroups, HaveDocs};
ghost use Rattle.star_tree.specs.Shares.{ShareTree};
ghost use Rattle.star_tree.specs.Groups.{groups_of, passing, rows_that_hold, rows_with_key};
ghost use Rattle.star_tree.specs.Flat.{flat, nodes_in, tree_bytes, FlatAt, node_at};
ghost use Rattle.star_tree.specs.NodeRules.{count_at, AreCounted, KeepsRules, IsRoot};
ghost use Rattle.star_tree.specs.Worked.{views, views_shape, views_nodes, views_documents};
ghost use Rattle.star_tree.specs.Worked.{with_leaf, leaf_of_seven, leaves_of_six, leaves_of_two};
ghost use Rattle.star_tree.specs.Worked.{skips_countries, country_skipped, views_of_the_usa};
ghost use Rattle.star_tree.specs.Worked.{one_country};
ghost use Rattle.star_tree.specs.FlatNodes.{IsOfTree};
ghost use Rattle.star_tree.specs.Reads.{factor, bound};

/// Merged documents are the one list whose combinations ascend, are those of the list, and have the
/// merged states of their own entries. It does not matter in which order the list is, whether it
/// was merged before a dimension is starred, and whether it is merged before a part with certain
/// combinations is taken.
pub fn merged_law()
    ensures ascending { (docs : List Doc)
        → IsTrue (is_sorted dims_order (merged_docs merged_rows docs)) }
    ensures own_entries { (docs : List Doc) (dims : List ℕ)
        → find dims_order dims (merged_docs merged_rows docs)
        ≡ total merged_rows (eq_by_cmp dims_order dims) docs }
    ensures only { (some docs : List Doc) → IsTrue (is_sorted dims_order some)
        → ((dims : List ℕ) → find dims_order dims some
        ≡ total merged_rows (eq_by_cmp dims_order dims) docs)
        → some ≡ merged_docs merged_rows docs }
    ensures any_order { (docs others : List Doc) → IsPermutation docs others
        → merged_docs merged_rows others ≡ merged_docs merged_rows docs }
    ensures starred { (d : ℕ) (docs : List Doc)
        → merged_docs merged_rows (rekey (set_star d) (merged_docs merged_rows docs))
        ≡ merged_docs merged_rows (rekey (set_star d) docs) }
    ensures part { (p : List ℕ → Bool) (docs : List Doc)
        → filter (λ e. p e.0) (merged_docs merged_rows docs)
        ≡ merged_docs merged_rows (filter (λ e. p e.0) docs) }
    ensures whole { (p : List ℕ → Bool) (docs : List Doc)
        → total merged_rows p (merged_docs merged_rows docs) ≡ total merged_rows p docs }
{}

/// The states of rows of numbers, one at a time, merge to the states of all of them.
pub fn projected_law()
    ensures { (ks : List AggKind) (p : List ℕ → Bool) (rows : List (List ℕ × List ℤ))
        → total merged_rows p (projected ks rows)
        ≡ states_of ks (map (λ row. row.1) (filter (λ row. p row.0) rows)) }
{}

/// Documents stand for no more values when they are merged, and stay stored where they stand for no
/// more than a segment has.
pub fn shares_law()
    ensures merged { (docs : List Doc)
        → weights row_weight (merged_docs merged_rows docs) ≤ weights row_weight docs }
    ensures least { (docs : List Doc) (shares : List ℕ) → FitShares docs shares
        → weights row_weight docs ≤ sum shares }
    ensures reached { (docs : List Doc) (shares : List ℕ) → FitShares docs shares
        → FitShares docs (map (λ e. row_weight e.1) docs) }
    ensures stored { (docs : List Doc) → AreStored docs → weights row_weight docs ≤ most_stored
        → AreStored (merged_docs merged_rows docs) }
{}

/// Each node of the tree of some documents has just those that agree with its path, starred where
/// the path is and merged, and its aggregated document has their states.
pub fn covers_law()
    ensures { (shape : TreeShape) (k : ℕ) (docs : List Doc) → HaveNoStar k docs
        → CoversTree merged_rows docs (tree_of merged_rows shape k docs) }
{}

/// The ordinary children of each split node have the node's rows, each row under just one of them,
/// and a star child has the same rows as the node.
pub fn children_law()
    ensures { (shape : TreeShape) (k : ℕ) (docs : List Doc) → HaveNoStar k docs
        → ShareTree docs (tree_of merged_rows shape k docs) }
{}

/// The documents that a query reads of a tree part the rows: each row that holds is in just one
/// pick, whose remaining tests it passes; any other is in none, or in one whose remaining tests it
/// fails. The documents of a pick are those that cover the rows of its path, or the one that stands
/// for them. On each grouped dimension a pick has the rows' own ids.
pub fn picks_law()
    ensures parted { (t : Task) (shape : TreeShape) (k : ℕ) (docs : List Doc) → HaveNoStar k docs
        → ArePartedBy t k (picks merged_rows t k (tree_of merged_rows shape k docs)) docs }
    ensures documents { (t : Task) (shape : TreeShape) (k : ℕ) (docs : List Doc) → HaveIds k docs
        → HaveNoStar k docs
        → HaveDocs merged_rows k docs (picks merged_rows t k (tree_of merged_rows shape k docs)) }
    ensures grouped { (t : Task) (shape : TreeShape) (k : ℕ) (docs : List Doc)
        → KeepGroups t k (picks merged_rows t k (tree_of merged_rows shape k docs)) }
{}

/// A query reads at most the leaf size times one factor for each dimension, where no factor is 0.
pub fn reads_law()
    ensures { (t : Task) (shape : TreeShape) (k : ℕ) (docs : List Doc) → HaveIds k docs
        → HaveNoStar k docs → 1 ≤ shape.leaf
        → ((d : ℕ) → d < k → 1 ≤ factor merged_rows t shape docs d)
        → read_of (picks merged_rows t k (tree_of merged_rows shape k docs))
        ≤ bound merged_rows t shape docs k }
{}

/// The aggregated document of a node has the ids of the node's path, and star on each further
/// dimension. Its states are those of the rows that agree with the path, merged.
pub fn aggregated_law()
    ensures { (k : ℕ) (rows docs : List Doc) (path : List ℕ) → HaveIds k rows → length path ≤ k
        → CoversRows merged_rows rows path docs
        → aggregated merged_rows (length path) docs
        ≡ one_document (path ++ replicate (k - length path) star) (total merged_rows (λ _. true)
        (rows_at path rows)) }
{}

/// The answer from a tree is the fold of the rows that hold. The groups of what is read of the tree
/// and passes its remaining tests are those of the rows that hold; the states of a key are those of
/// the numbers of just the rows that hold and have it, pair by pair; and a key is among the groups
/// exactly where such a row has it.
pub fn answer_law()
    ensures groups { (t : Task) (shape : TreeShape) (k : ℕ) (docs : List Doc) → HaveIds k docs
        → HaveNoStar k docs
        → groups_of merged_rows t k (passing t k (picks merged_rows t k (tree_of merged_rows shape
        k docs)))
        ≡ groups_of merged_rows t k (rows_that_hold t k docs) }
    ensures states { (t : Task) (shape : TreeShape) (k : ℕ) (ks : List AggKind) (rows : List (List
        ℕ × List ℤ)) (key : List ℕ)
        → HaveIds k rows → HaveNoStar k rows
        → find dims_order key (groups_of merged_rows t k (passing t k (picks merged_rows t k
        (tree_of merged_rows shape k (projected ks rows)))))
        ≡ states_of ks (map (λ row. row.1) (rows_with_key t k key rows)) }
    ensures keys { (t : Task) (shape : TreeShape) (k : ℕ) (ks : List AggKind) (rows : List (List ℕ
        × List ℤ)) (key : List ℕ)
        → HaveIds k rows → HaveNoStar k rows
        → (find dims_order key (groups_of merged_rows t k (passing t k (picks merged_rows t k
        (tree_of merged_rows shape k (projected ks rows))))) ≡ None)
        ↔ (rows_with_key t k key rows ≡ []) }
{}

/// The tree written flat. Its documents are those that the visits append, and its nodes are as many
/// as the nested tree has. From the root on, the numbers lay out the nested tree; and each node of
/// the flat tree is a node of the nested one.
pub fn flat_law()
    ensures documents { (tree : Nodes (List AggState))
        → (flat merged_rows tree).1 ≡ documents_of merged_rows tree }
    ensures count { (shape : TreeShape) (k : ℕ) (docs : List Doc)
        → length (flat merged_rows (tree_of merged_rows shape k docs)).0
        ≡ nodes_in (tree_of merged_rows shape k docs) }
    ensures bytes { (width : ℕ) (shape : TreeShape) (k : ℕ) (docs : List Doc)
        → tree_bytes merged_rows width (tree_of merged_rows shape k docs)
        ≡ width * length (documents_of merged_rows (tree_of merged_rows shape k docs)) + 28 *
        nodes_in (tree_of merged_rows shape k docs) }
    ensures nested { (shape : TreeShape) (k : ℕ) (docs : List Doc) → HaveIds k docs
        → HaveNoStar k docs
        → FlatAt merged_rows 0 0 (tree_of merged_rows shape k docs) (flat merged_rows (tree_of
        merged_rows shape k docs)) }
    ensures each { (shape : TreeShape) (k : ℕ) (docs : List Doc) → HaveIds k docs
        → HaveNoStar k docs
        → (at : ℕ) → at < length (flat merged_rows (tree_of merged_rows shape k docs)).0
        → IsOfTree merged_rows shape k docs at (flat merged_rows (tree_of merged_rows shape k
        docs)) }
{}

/// The nodes of the flat tree keep the rules by which the nodes of a file are checked, where each
/// id of the rows is below its dimension's count. The root is the first node. There are no nodes,
/// and no documents, just where there are no rows.
pub fn node_rules_law()
    ensures rules { (shape : TreeShape) (k : ℕ) (docs : List Doc) (counts : List ℕ)
        → HaveIds k docs → HaveNoStar k docs
        → ((d : ℕ) → count_at counts d ≤ star) → AreCounted k counts docs
        → (at : ℕ) → at < length (flat merged_rows (tree_of merged_rows shape k docs)).0
        → KeepsRules shape k counts (length (flat merged_rows (tree_of merged_rows shape k
        docs)).1) (flat merged_rows (tree_of merged_rows shape k docs)).0 at }
    ensures root { (shape : TreeShape) (k : ℕ) (docs : List Doc)
        → 0 < length (flat merged_rows (tree_of merged_rows shape k docs)).0
        → IsRoot (node_at (flat merged_rows (tree_of merged_rows shape k docs)).0 0) }
    ensures no_nodes { (shape : TreeShape) (k : ℕ) (docs : List Doc)
        → ((flat merged_rows (tree_of merged_rows shape k docs)).0 ≡ []) ↔ (docs ≡ []) }
    ensures no_documents { (shape : TreeShape) (k : ℕ) (docs : List Doc)
        → ((flat merged_rows (tree_of merged_rows shape k docs)).1 ≡ []) ↔ (docs ≡ []) }
{}

/// The definition of the flat tree gives the nodes and documents that were worked by hand.
pub fn worked_law()
    ensures views { flat merged_rows (tree_of merged_rows views_shape 3 (projected
        views_shape.kinds views)) ≡ (views_nodes, views_documents) }
    ensures ten { flat merged_rows (tree_of merged_rows (with_leaf 10) 3 (projected
        views_shape.kinds views)) ≡ leaf_of_seven }
    ensures seven { flat merged_rows (tree_of merged_rows (with_leaf 7) 3 (projected
        views_shape.kinds views)) ≡ leaf_of_seven }
    ensures six { flat merged_rows (tree_of merged_rows (with_leaf 6) 3 (projected
        views_shape.kinds views)) ≡ leaves_of_six }
    ensures two { flat merged_rows (tree_of merged_rows (with_leaf 2) 3 (projected
        views_shape.kinds views)) ≡ leaves_of_two }
    ensures skipped { flat merged_rows (tree_of merged_rows skips_countries 3 (projected
        views_shape.kinds views)) ≡ country_skipped }
    ensures one_value { flat merged_rows (tree_of merged_rows (with_leaf 1) 3 (projected
        views_shape.kinds views_of_the_usa)) ≡ one_country }
    ensures no_rows { flat merged_rows (tree_of merged_rows (with_leaf 1) 3 (projected
        views_shape.kinds [])) ≡ ([], []) }
{}
