//! Makes rows of three dimensions into documents with a sum and a count, and merges them with each
//! dimension starred in turn: what the benchmark of merging runs. It prints how many documents come
//! of each, and on standard error the microseconds of making and of merging.
ghost use Rattle.std.specs.Prelude.{◌≡◌, ◌≤◌, [], length, IfOk};
ghost use Rattle.agg_laws.specs.Rows.{row_weight};
ghost use Rattle.agg_laws.specs.Merged.{weights};

use agg_laws::{AggKind, Kinds, NoMemory, TreeShape};
use star_table::StarTable;
use std::io;
use std::time::Instant;

const MOST_ROWS: u32 = 1_000_000;

// How many ids each dimension has, for few, some and many documents.
const CARDINALITIES: [[u32; 3]; 3] = [[20, 20, 10], [100, 100, 25], [1000, 1000, 1000]];

// The next of a row of numbers that seem to be random.
fn next_number(x: u64) -> u64 {
    let x = x ^ x.wrapping_shl(13);
    let x = x ^ x.wrapping_shr(7);
    x ^ x.wrapping_shl(17)
}

// An id of a dimension.
fn id_of(x: u64, ids: u32) -> u32 {
    (x % 1_000_003) as u32 % ids.max(1)
}

// Adds a document for each of some rows.
fn fill(table: &mut StarTable, rows: u32, ids: [u32; 3])
    requires empty { table.old.docs ≡ [] }
    requires dims { table.old.dims ≡ 3 }
    requires kinds { length table.old.kinds ≡ 2 }
    requires spare { rows ≤ table.old.spare }
    ensures rows { length table.new.docs ≡ rows }
    ensures weight_fits { weights row_weight table.new.docs ≤ rows }
    ensures dims { table.new.dims ≡ 3 }
    ensures kinds { table.new.kinds ≡ table.old.kinds }
{
    let mut x: u64 = 88172645463325252;
    for _ in 0..rows {
        x = next_number(x);
        let dims = [
            id_of(x, ids[0]),
            id_of(x / 1_000_003, ids[1]),
            id_of(x / 1_000_006_000_009, ids[2]),
        ];
        table.append_values(&dims, &[(x % 1000) as i64, 0]);
    }
}

// Documents of rows, and how many come of them once a dimension is starred.
fn merge_on(
    rt: &HostRuntime,
    shape: &TreeShape,
    rows: u32,
    ids: [u32; 3],
    level: u8,
) -> io::Result<u32>
    requires some { 1 ≤ rows }
    requires at_most { rows ≤ 1000000 }
    requires dims { shape.now.dims ≡ 3 }
    requires kinds { length shape.now.kinds ≡ 2 }
{
    let begin = Instant::now(rt)?;
    let mut table = StarTable::new(rt.alloc(), shape)?;
    table.reserve(rows.saturating_add(rows))?;
    fill(&mut table, rows, ids);
    let made = begin.elapsed(rt)?.as_micros();
    let begin = Instant::now(rt)?;
    table.reserve(rows)?;
    let count = table.append_starred(0, rows, level)?;
    let merged = begin.elapsed(rt)?.as_micros();
    eprintln!(rt; "{made} {merged}")?;
    Ok(count)
}

// A sum and a count.
fn pairs(rt: &HostRuntime) -> Result<Kinds, NoMemory>
    ensures { IfOk result (λ kinds. length kinds ≡ 2) }
{
    let mut kinds = Kinds::new(rt.alloc());
    kinds.push(AggKind::Sum)?;
    kinds.push(AggKind::Count)?;
    Ok(kinds)
}

// How many rows a word asks for.
fn asked(word: &str) -> u32
    ensures some { 1 ≤ result }
    ensures at_most { result ≤ 1000000 }
{
    match word.parse::<u32>() {
        Ok(rows) => rows.clamp(1, MOST_ROWS),
        Err(_) => 1,
    }
}

/// Merges so many rows with no dimension starred and with each in turn, for few, some and many
/// documents, and prints how many come of them.
pub fn run_star(rt: &HostRuntime, word: &str) -> io::Result<()> {
    let rows = asked(word);
    let shape = TreeShape {
        dims: 3,
        skipped: 0,
        leaf: 1,
        kinds: pairs(rt)?,
    };
    for ids in CARDINALITIES {
        for level in 0..4u8 {
            let count = merge_on(rt, &shape, rows, ids, level)?;
            println!(rt; "{count}")?;
        }
    }
    Ok(())
}
