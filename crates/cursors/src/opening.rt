//! A new cursor, and the pool that cursors have their groups in.
ghost use Rattle.std.specs.Prelude.{◌≡◌, ◌<◌, ◌≤◌, ◌++◌, ◌∷◌, [], IfOk, OnErr, OnOk, Some, length, map};
ghost use Rattle.segment_file.specs.Names.{file_of};
ghost use Rattle.state_pool.specs.Pool.{held};
ghost use Rattle.cursor_serve.specs.Machine.{most_cursors};
ghost use Rattle.cursors.specs.Kept.{IsEmptyPool, IsPool, KeepsAside};
ghost use Rattle.cursors.specs.Opened.{IsNewCursor};

use crate::cursor::Cursor;
use crate::places::{MOST_CURSOR_GROUPS, MOST_CURSORS};
use agg_laws::AggKind;
use group_table::{GroupTable, SlotPool, kinds_in};
use outside::{Name, NoMemory, Seq};
use segment_file::segment_file_name;
use std::alloc::Global;
use table_schema::BoundQuery;

/// The most aggregates of a query.
const MOST_AGGS: usize = 16;

/// A pool with an owner for each cursor, and one more, which takes no slot.
pub fn cursor_pool(alloc: Global) -> Result<SlotPool, NoMemory>
    ensures { IfOk result IsEmptyPool }
{
    let kinds = Seq::from_vec(vec![in alloc; AggKind::Count; MOST_AGGS]?);
    let quotas = Seq::from_vec(vec![in alloc; MOST_CURSOR_GROUPS; MOST_CURSORS + 1]?);
    SlotPool::with_slots(alloc, &kinds, &quotas)
}

/// A cursor over these segments, which are live, with its groups over no rows.
pub fn new_cursor(
    alloc: Global,
    pool: &mut SlotPool,
    owner: u16,
    name: &str,
    query: BoundQuery,
    segments: Seq<Name>,
) -> Result<Cursor, NoMemory>
    requires pool { IsPool pool.old }
    requires owner { owner < most_cursors }
    requires free { held pool.old owner ≡ 0 }
    requires few { (length query.aggs ≤ 16) × (length segments ≤ 512) }
    ensures made { IfOk result (IsNewCursor owner name.now query segments pool.new) }
    ensures keeps { KeepsAside owner owner pool.old pool.new }
    ensures free { OnErr result (held pool.new owner ≡ 0) }
{
    let name = Name::from_text(alloc, name)?;
    let files = live_files(alloc, segments.as_slice())?;
    let kinds = kinds_in(alloc, query.aggs.as_slice())?;
    pool.set_kinds(owner, kinds);
    let groups = GroupTable::new(alloc, &query, pool, owner)?;
    Ok(Cursor {
        name,
        query,
        segments,
        answered: 0,
        files,
        owner,
        groups,
    })
}

// The files of segments that are live.
fn live_files(alloc: Global, names: &[Name]) -> Result<Vec<Option<Name>>, NoMemory>
    ensures { IfOk result (λ files. files.items ≡ map (λ name. Some (file_of name)) names.now) }
{
    let mut files = Vec::with_capacity(alloc, names.len())?;
    for name in names {
        push_live(alloc, name, &mut files)?;
    }
    Ok(files)
}

// Adds the file of a segment that is live.
fn push_live(alloc: Global, name: &Name, files: &mut Vec<Option<Name>>) -> Result<(), NoMemory>
    ensures { OnOk result (files.new.items ≡ files.old.items ++ Some (file_of name.now) ∷ []) }
{
    let file = Name::from_string(alloc, segment_file_name(alloc, name.as_str())?)?;
    files.push(Some(file))?;
    Ok(())
}
