//! A law of the heads of images: the contract of a function that does nothing.
ghost use Rattle.segment_head.specs.Laws.{HeadTellsTrees};

/// The head of the image of rows tells of each tree how many documents and which nodes the tree of
/// the rows has, written flat.
pub fn head_tells_trees_law()
    ensures { HeadTellsTrees }
{}
