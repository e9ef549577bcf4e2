//! A section of a file that is made.
ghost use Rattle.std.specs.Prelude.{◌≡◌, ◌≤◌, ◌<◌, ◌++◌, length, OnOk};
ghost use Rattle.outside.specs.Seen.{seen};
ghost use Rattle.star_file.specs.Bytes.{doc_bytes};
ghost use Rattle.state_columns.specs.Region.{range};
ghost use Rattle.segment_build.specs.Made.{section_bytes};

use crate::docs::TreeDocs;
use crate::taking::give_bytes;
use crate::{PIECE, Taker};
use outside::{Bytes, NoMemory, Shelf};
use star_file::{doc_size, write_docs, write_docs_range};
use std::alloc::Global;

/// A section of a file: its bytes, or what they are made of when they are given.
#[derive(Drop)]
pub enum MadeSection {
    /// The bytes.
    Stands(Bytes),
    /// The documents of a star-tree.
    Docs(TreeDocs),
}

impl MadeSection {
    /// How many bytes it has.
    pub(crate) fn size(&self) -> u64
        ensures { result ≡ length (section_bytes self.now) }
    {
        match self {
            MadeSection::Stands(bytes) => bytes.len() as u64,
            MadeSection::Docs(docs) => {
                docs.tree.docs.len() as u64 * u64::from(doc_size(&docs.tree))
            }
        }
    }

    /// Appends its bytes.
    pub(crate) fn write(&self, out: &mut Vec<u8>) -> Result<(), NoMemory>
        ensures { OnOk result (out.new.items ≡ out.old.items ++ section_bytes self.now) }
    {
        match self {
            MadeSection::Stands(bytes) => out.extend_from_slice(bytes.as_slice()),
            MadeSection::Docs(docs) => write_docs(&docs.tree, out),
        }
    }

    /// Gives its bytes to a taker. Documents are made a range after the other.
    pub(crate) fn give<S: Shelf, T: Taker<S>>(
        &self,
        alloc: Global,
        taker: &mut T,
        shelf: &mut S,
    ) -> Result<(), T::Fault>
        ensures { T.takes (section_bytes self.now) result taker.old (seen S.Shelf shelf.old)
            taker.new (seen S.Shelf shelf.new) }
    {
        match self {
            MadeSection::Stands(bytes) => give_bytes(alloc, taker, shelf, bytes.as_slice()),
            MadeSection::Docs(docs) => give_docs(alloc, taker, shelf, docs),
        }
    }
}

// Gives the documents of a tree to a taker, a range of them after the other.
fn give_docs<S: Shelf, T: Taker<S>>(
    alloc: Global,
    taker: &mut T,
    shelf: &mut S,
    docs: &TreeDocs,
) -> Result<(), T::Fault>
    ensures { T.takes (doc_bytes docs.now.tree.docs.docs) result taker.old (seen S.Shelf shelf.old)
        taker.new (seen S.Shelf shelf.new) }
{
    let count = docs.tree.docs.len() as u32;
    let many = docs_at_once(docs);
    let mut buffer = Vec::new(alloc);
    let mut from = 0;
    'pieces: while count - from > many {
        let to = from + many;
        if let Err(fault) = give_range(alloc, taker, shelf, docs, from, to, &mut buffer) {
            return Err(fault);
        }
        from = to;
    }
    give_range(alloc, taker, shelf, docs, from, count, &mut buffer)
}

// How many documents are made at once: as many as are handed on at once.
fn docs_at_once(docs: &TreeDocs) -> u32
    ensures some { 1 ≤ result }
    ensures at_most { result ≤ 65536 }
{
    let width = doc_size(&docs.tree).max(1);
    (PIECE as u32 / width).max(1)
}

// Gives the documents from one number up to another, which are made in the buffer.
fn give_range<S: Shelf, T: Taker<S>>(
    alloc: Global,
    taker: &mut T,
    shelf: &mut S,
    docs: &TreeDocs,
    from: u32,
    to: u32,
    buffer: &mut Vec<u8>,
) -> Result<(), T::Fault>
    requires order { from ≤ to }
    requires there { to ≤ length docs.now.tree.docs.docs }
    ensures { T.takes (doc_bytes (range from to docs.now.tree.docs.docs)) result
        taker.old (seen S.Shelf shelf.old) taker.new (seen S.Shelf shelf.new) }
{
    buffer.clear();
    if let Err(_) = write_docs_range(&docs.tree, from, to, buffer) {
        return Err(T::no_memory());
    }
    give_bytes(alloc, taker, shelf, buffer)
}
