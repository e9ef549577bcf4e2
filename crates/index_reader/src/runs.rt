//! Ids as runs of ids that follow one another.
ghost use Rattle.std.specs.Prelude.{◌≡◌, IfOk};

use doc_lists::{DocList, NoMemory};
use std::alloc::Global;
use value_ids::IdSet;

/// The ids of a set, as runs.
pub fn runs_of(alloc: Global, ids: &IdSet) -> Result<DocList, NoMemory>
    ensures { IfOk result (λ list. list ≡ ids.now) }
{
    let mut list = DocList::new(alloc);
    let ids = ids.as_slice();
    for id in ids {
        list.push(*id)?;
    }
    Ok(list)
}
