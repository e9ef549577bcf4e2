//! What a segment's file has of a star-tree.

ghost use Rattle.std.specs.Prelude.{◌≡◌};

use agg_laws::TreeShape;
use outside::Place;
use segment_head::OpenTree;
use star_file::Node;
use table_schema::TreeSetting;

/// What a segment's file has of a star-tree: its shape, how many values each split dimension has,
/// its nodes, and where its documents are.
#[derive(Clone, Copy)]
pub struct TreePart<'a> {
    pub shape: &'a TreeShape,
    pub counts: &'a [u32],
    pub nodes: &'a [Node],
    pub documents: &'a Place,
}

impl<'a> TreePart<'a> {
    /// A tree of this setting that was read, with its documents in this place.
    pub fn of_file(setting: &'a TreeSetting, opened: &'a OpenTree, documents: &'a Place) -> Self
        ensures shape { result.shape.now ≡ setting.now.shape }
        ensures counts { result.counts.now ≡ opened.now.counts.items }
        ensures nodes { result.nodes.now ≡ opened.now.nodes.nodes }
        ensures documents { result.documents.now ≡ documents.now }
    {
        TreePart {
            shape: &setting.shape,
            counts: opened.counts.as_slice(),
            nodes: opened.nodes.nodes.as_slice(),
            documents,
        }
    }
}
