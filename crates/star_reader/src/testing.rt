//! Documents are tested on the dimensions that a walk left to be tested.

ghost use Rattle.std.specs.Prelude.{◌≡◌, ◌<◌, ◌≤◌, ◌-◌, length};
ghost use Rattle.state_columns.specs.Docs.{doc_at};
ghost use Rattle.star_tree.specs.Picks.{holds_from};
ghost use Rattle.star_walk.specs.Walking.{task_of};

use star_file::SpelledDocs;
use star_walk::Task;

/// Whether a document passes the tests of its dimensions from a level on.
pub(crate) fn passes_from(task: &Task, table: &SpelledDocs<'_>, at: u32, level: usize) -> bool
    requires at_most { length task.now.matched ≤ 16 }
    requires dims { table.now.dims ≡ length task.now.matched }
    requires level { level ≤ length task.now.matched }
    requires at { at < length table.now.docs }
    ensures { result ≡ holds_from (task_of task.now.matched task.now.grouped)
        (length task.now.matched - level) level (doc_at table.now.docs at).0 }
{
    for dim in level..task.matched.len() {
        if !task.passes(dim, table.dim(at, dim as u8)) {
            return false;
        }
    }
    true
}
