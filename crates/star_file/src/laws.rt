//! The laws of nodes as bytes. Each is the contract of a function that does nothing of its own.

ghost use Rattle.std.specs.Prelude.{◌≡◌, ℕ, ◌+◌, ◌*◌, ◌^◌, ◌<◌, ◌≤◌, List, length};
ghost use Rattle.star_tree.specs.declared.node.Node.{Node};
ghost use Rattle.agg_laws.specs.declared.tree_shape.TreeShape.{TreeShape};
ghost use Rattle.agg_laws.specs.Rows.{merged_rows};
ghost use Rattle.state_columns.specs.Docs.{Doc, HaveIds, HaveShape, AreStored};
ghost use Rattle.agg_laws.specs.Tree.{star, tree_of, HaveNoStar};
ghost use Rattle.star_tree.specs.Flat.{flat, tree_bytes};
ghost use Rattle.state_columns.specs.Region.{range};
ghost use Rattle.star_tree.specs.NodeRules.{count_at, AreCounted};
ghost use Rattle.star_file.specs.Bytes.{doc_bytes, nodes_section};
ghost use Rattle.star_file.specs.Reading.{DocsHaveIds, HasDocuments, SpellDocs};
ghost use Rattle.star_file.specs.Rules.{widths, most_bytes, AreWords, KeepAll, KeepsSection};

/// The nodes of the flat tree keep all rules, where the tree takes no more bytes than one may; and
/// the section of nodes that keep all rules is read as such.
pub fn nodes_law()
    ensures trees { (shape : TreeShape) (docs : List Doc) (counts : List ℕ)
        → HaveIds shape.dims docs → HaveNoStar shape.dims docs
        → ((d : ℕ) → count_at counts d ≤ star) → AreCounted shape.dims counts docs
        → tree_bytes merged_rows (4 * shape.dims + widths shape.kinds) (tree_of merged_rows shape
        shape.dims docs) ≤ most_bytes
        → KeepAll shape counts (length (flat merged_rows (tree_of merged_rows shape shape.dims
        docs)).1) (flat merged_rows (tree_of merged_rows shape shape.dims docs)).0 }
    ensures sections { (shape : TreeShape) (counts : List ℕ) (documents : ℕ) (ns : List Node)
        → documents < 2 ^ 32 → AreWords ns → KeepAll shape counts documents ns
        → KeepsSection shape counts (nodes_section documents ns) }
{}

/// The documents that are written are those that their section has, from any number to any other;
/// and bytes spell no others.
pub fn docs_law()
    ensures written { (shape : TreeShape) (counts : List ℕ) (docs : List Doc) (from to : ℕ)
        → length counts ≡ shape.dims → HaveShape shape.dims shape.kinds docs → AreStored docs
        → DocsHaveIds counts docs → from ≤ to → to ≤ length docs
        → HasDocuments shape counts from to (doc_bytes docs) (range from to docs) }
    ensures only { (shape : TreeShape) (counts : List ℕ) (n : ℕ) (bytes : List ℕ) (xs ys : List Doc)
        → SpellDocs shape counts n bytes xs → SpellDocs shape counts n bytes ys → xs ≡ ys }
{}
