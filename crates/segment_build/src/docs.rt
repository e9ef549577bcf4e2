//! The documents of a star-tree, as a file has them.
ghost use Rattle.std.specs.Prelude.{◌<◌, ◌≤◌, ◌^◌, length};

use star_file::StarTree;

/// The documents of a tree that can be written.
#[derive(Drop)]
pub struct TreeDocs {
    pub tree: StarTree,
    ghost at_most: { length tree.docs.docs < 2 ^ 32 },
    ghost few_kinds: { length tree.docs.kinds ≤ 16 },
}
