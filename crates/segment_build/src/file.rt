//! The file of sections.
ghost use Rattle.std.specs.Prelude.{◌≡◌, ◌<◌, ◌++◌, ◌^◌, length, map, IfOk, OnOk};
ghost use Rattle.std.specs.List.{concat};
ghost use Rattle.table_schema.specs.ValidTable.{IsValidTable};
ghost use Rattle.segment_file.specs.Front.{file_end, front_bytes};
ghost use Rattle.segment_file.specs.Names.{IsSegmentName};
ghost use Rattle.segment_file.specs.Parts.{sections_of};
ghost use Rattle.segment_build.specs.Made.{each_bytes, front_over};

use crate::section::MadeSection;
use outside::NoMemory;
use segment_file::{Front, sections_of};
use std::alloc::Global;
use table_schema::Table;

/// The front of the file of these sections.
pub(crate) fn front_of(
    alloc: Global,
    table: &Table,
    name: &str,
    rows: u32,
    sections: &[MadeSection],
) -> Result<Vec<u8>, NoMemory>
    requires valid { IsValidTable table.now }
    requires name { IsSegmentName name.now }
    requires each { length sections.now ≡ length (sections_of table.now) }
    requires short { file_end table.now name.now (front_over rows sections.now) < 2 ^ 64 }
    ensures { IfOk result (λ front. front.items
        ≡ front_bytes table.now name.now (front_over rows sections.now)) }
{
    let parts = sections_of(alloc, table)?;
    let front = Front::new(rows, sizes_of(alloc, sections)?);
    front.write(alloc, table, name, &parts)
}

// Appends the bytes of sections. Memory is taken once.
pub(crate) fn push_all(sections: &[MadeSection], file: &mut Vec<u8>) -> Result<(), NoMemory>
    ensures { OnOk result (file.new.items ≡ file.old.items ++ concat (each_bytes sections.now)) }
{
    file.reserve(total(sections))?;
    for section in sections {
        section.write(file)?;
    }
    Ok(())
}

/// How long each of these sections is.
pub(crate) fn sizes_of(alloc: Global, sections: &[MadeSection]) -> Result<Vec<u64>, NoMemory>
    ensures { IfOk result (λ sizes. sizes.items ≡ map length (each_bytes sections.now)) }
{
    let mut sizes = Vec::with_capacity(alloc, sections.len())?;
    for section in sections {
        sizes.push(section.size())?;
    }
    Ok(sizes)
}

// How long they are together.
fn total(sections: &[MadeSection]) -> usize {
    let mut size: usize = 0;
    for section in sections {
        size = size.saturating_add(section.size() as usize);
    }
    size
}
