//! The laws of walks. Each is the contract of a function that does nothing of its own.

ghost use Rattle.std.specs.Prelude.{◌≡◌, ℕ, ◌^◌, ◌<◌, ◌≤◌, [], List, length, map};
ghost use Rattle.std.specs.Prelude.{All, count_by};
ghost use Rattle.star_tree.specs.declared.node.Node.{Node};
ghost use Rattle.agg_laws.specs.declared.states.AggState.{AggState};
ghost use Rattle.agg_laws.specs.declared.tree_shape.TreeShape.{TreeShape};
ghost use Rattle.agg_laws.specs.Rows.{merged_rows};
ghost use Rattle.state_columns.specs.Docs.{Doc, HaveIds};
ghost use Rattle.agg_laws.specs.Tree.{Nodes, none, agrees, tree_of, HaveNoStar};
ghost use Rattle.star_tree.specs.Flat.{Flat, FlatAt, flat};
ghost use Rattle.star_tree.specs.Picks.{Task, picks};
ghost use Rattle.star_tree.specs.Picks as nested;
ghost use Rattle.star_tree.specs.Reads.{factor, bound};
ghost use Rattle.star_tree.specs.Groups.{groups_of, rows_that_hold};
ghost use Rattle.star_tree.specs.NodeRules.{KeepsRules};
ghost use Rattle.star_walk.specs.declared.pick.Pick.{Pick};
ghost use Rattle.star_walk.specs.Walking.{AreWalkable, tree_picks};
ghost use Rattle.star_walk.specs.Images.{bare, shown, read_of, passing, AreWithin};
ghost use Rattle.star_walk.specs.Covering.{covers, AreCovered, HaveValues, has_number};
ghost use Rattle.star_walk.specs.Coalescing.{coalesced, numbers_of, AreApart};

/// A walk goes through any nodes that keep the rules by which the nodes of a file are checked, and
/// picks ranges of their documents.
pub fn walkable_law()
    ensures walkable { (shape : TreeShape) (counts : List ℕ) (documents : ℕ) (ns : List Node)
        → documents < 2 ^ 32
        → ((at : ℕ) → at < length ns → KeepsRules shape shape.dims counts documents ns at)
        → AreWalkable ns }
    ensures within { (t : Task) (shape : TreeShape) (counts : List ℕ) (documents : ℕ) (ns : List
        Node) → ((at : ℕ) → at < length ns → KeepsRules shape shape.dims counts documents ns at)
        → AreWithin documents shape.dims (tree_picks t shape.dims ns) }
{}

/// The picks of a flat tree are those of the nested tree that it lays out, pick by pick: each has
/// the same level and the same documents. So just as many documents are read of the tree of some
/// rows as of the nested tree, at most the leaf size times one factor for each dimension, where no
/// factor is 0; and the groups of what is read and passes its remaining tests are those of the rows
/// that hold.
pub fn walk_law()
    ensures nested { (t : Task) (k : ℕ) (tree : Nodes (List AggState)) (f : Flat (List AggState))
        → (tree ≡ none → f.0 ≡ []) → FlatAt merged_rows 0 0 tree f
        → map (shown f.1) (tree_picks t k f.0) ≡ map bare (picks merged_rows t k tree) }
    ensures count { (t : Task) (shape : TreeShape) (k : ℕ) (docs : List Doc) → HaveIds k docs
        → HaveNoStar k docs
        → read_of (tree_picks t k (flat merged_rows (tree_of merged_rows shape k docs)).0)
        ≡ nested.read_of (picks merged_rows t k (tree_of merged_rows shape k docs)) }
    ensures reads { (t : Task) (shape : TreeShape) (k : ℕ) (docs : List Doc) → HaveIds k docs
        → HaveNoStar k docs → 1 ≤ shape.leaf
        → ((d : ℕ) → d < k → 1 ≤ factor merged_rows t shape docs d)
        → read_of (tree_picks t k (flat merged_rows (tree_of merged_rows shape k docs)).0)
        ≤ bound merged_rows t shape docs k }
    ensures groups { (t : Task) (shape : TreeShape) (k : ℕ) (docs : List Doc) → HaveIds k docs
        → HaveNoStar k docs
        → groups_of merged_rows t k (passing t k
        (flat merged_rows (tree_of merged_rows shape k docs)).1
        (tree_picks t k (flat merged_rows (tree_of merged_rows shape k docs)).0))
        ≡ groups_of merged_rows t k (rows_that_hold t k docs) }
{}

/// Each row that holds is covered by exactly one pick, whose remaining tests it passes. A row that
/// does not hold is covered by none, or by one whose remaining tests, from the pick's level on, it
/// fails. On a grouped dimension the picked documents have the row's own value. A pick of the
/// nested tree covers just those rows that agree with the path of its node, and no document of the
/// flat tree is picked twice.
pub fn covered_law()
    ensures nested { (t : Task) (shape : TreeShape) (k : ℕ) (rows : List Doc) → HaveIds k rows
        → HaveNoStar k rows
        → AreCovered t k (map bare
        (picks merged_rows t k (tree_of merged_rows shape k rows))) rows }
    ensures paths { (t : Task) (shape : TreeShape) (k : ℕ) (rows : List Doc) → HaveIds k rows
        → HaveNoStar k rows
        → All (λ p. All (λ row. covers row.0 (bare p) ≡ agrees p.path row.0) rows)
        (picks merged_rows t k (tree_of merged_rows shape k rows)) }
    ensures flat { (t : Task) (shape : TreeShape) (k : ℕ) (rows : List Doc) → HaveIds k rows
        → HaveNoStar k rows
        → AreCovered t k (map (shown (flat merged_rows (tree_of merged_rows shape k rows)).1)
        (tree_picks t k (flat merged_rows (tree_of merged_rows shape k rows)).0)) rows }
    ensures values { (t : Task) (shape : TreeShape) (k : ℕ) (rows : List Doc) → HaveIds k rows
        → HaveNoStar k rows
        → All (λ p. HaveValues t k rows p.1)
        (map (shown (flat merged_rows (tree_of merged_rows shape k rows)).1)
        (tree_picks t k (flat merged_rows (tree_of merged_rows shape k rows)).0)) }
    ensures once { (t : Task) (shape : TreeShape) (k : ℕ) (rows : List Doc) (at : ℕ)
        → HaveIds k rows → HaveNoStar k rows
        → count_by (has_number at)
        (tree_picks t k (flat merged_rows (tree_of merged_rows shape k rows)).0) ≤ 1 }
{}

/// Joined picks are of the same documents in the same order, with the same levels; and none of them
/// could be coalesced with the next.
pub fn coalesced_law()
    ensures same { (documents k : ℕ) (ps : List Pick) → AreWithin documents k ps
        → numbers_of (coalesced ps) ≡ numbers_of ps }
    ensures within { (documents k : ℕ) (ps : List Pick) → AreWithin documents k ps
        → AreWithin documents k (coalesced ps) }
    ensures apart { (ps : List Pick) → AreApart (coalesced ps) }
    ensures read { (documents k : ℕ) (ps : List Pick) → AreWithin documents k ps
        → read_of (coalesced ps) ≡ read_of ps }
    ensures passing { (t : Task) (k : ℕ) (docs : List Doc) (ps : List Pick)
        → AreWithin (length docs) k ps → passing t k docs (coalesced ps) ≡ passing t k docs ps }
{}
