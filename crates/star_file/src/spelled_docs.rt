//! Documents in the bytes that spell them.

ghost use Rattle.std.specs.Prelude.{◌≡◌, ◌*◌, ◌<◌, length, slice_get, List, Some, []};
ghost use Rattle.agg_laws.specs.Tree.{dim};
ghost use Rattle.state_columns.specs.Docs.{AreStored, Doc, HaveShape, doc_at};
ghost use Rattle.star_file.specs.Reading.{AreReadable, SpellDocs, doc_width};

use crate::checking::number;
use crate::doc_reading::{between, doc_of, width_of};
use crate::rules::widths;
use agg_laws::{AggState, TreeShape};
use outside::Bytes;
use std::alloc::Global;
use std::marker::Model;

/// Documents of one shape in the bytes that spell them, of which each has as many. What is not
/// asked for is not read out of the bytes.
#[derive(Drop)]
pub struct SpelledDocs<'a> {
    shape: &'a TreeShape,
    counts: &'a [u32],
    count: u32,
    width: usize,
    bytes: Bytes,
}

impl<'a> Model for SpelledDocs<'a> {
    ghost use Rattle.state_columns.specs.Docs.{Docs};
    ghost use Rattle.star_file.specs.Spelled.{AreSpelled, docs_in};

    ghost Value = { Docs };

    ghost view = { λ t. record {
      dims = t.shape.now.dims;
      kinds = t.shape.now.kinds;
      docs = docs_in t.shape.now t.count t.bytes;
      spare = 0;
    } };

    ghost invariant = { λ t. AreSpelled t.shape.now t.counts.now t.count t.width t.bytes };
}

impl<'a> SpelledDocs<'a> {
    /// Bytes that are just those of so many documents.
    pub(crate) fn of_bytes(
        bytes: Bytes,
        shape: &'a TreeShape,
        counts: &'a [u32],
        count: u32,
    ) -> Self
        requires readable { AreReadable shape.now counts.now }
        requires size { length bytes ≡ count * doc_width shape.now }
        requires spelled { (docs : List Doc) × SpellDocs shape.now counts.now count bytes docs }
        ensures { (docs : List Doc) → SpellDocs shape.now counts.now count bytes docs
            → result ≡ record {
              dims = shape.now.dims;
              kinds = shape.now.kinds;
              docs = docs;
              spare = 0;
            } }
    {
        SpelledDocs {
            shape,
            counts,
            count,
            width: width_of(shape),
            bytes,
        }
    }

    /// No documents.
    pub(crate) fn none(alloc: Global, shape: &'a TreeShape, counts: &'a [u32]) -> Self
        requires { AreReadable shape.now counts.now }
        ensures { result
            ≡ record { dims = shape.now.dims; kinds = shape.now.kinds; docs = []; spare = 0 } }
    {
        SpelledDocs::of_bytes(Bytes::new(alloc), shape, counts, 0)
    }

    pub fn len(&self) -> u32
        ensures count { result ≡ length self.now.docs }
        ensures shape { HaveShape self.now.dims self.now.kinds self.now.docs }
        ensures stored { AreStored self.now.docs }
    {
        self.count
    }

    /// The id of a document in a split dimension.
    pub fn dim(&self, at: u32, level: u8) -> u32
        requires at { at < length self.now.docs }
        requires level { level < self.now.dims }
        ensures { result ≡ dim level (doc_at self.now.docs at).0 }
    {
        let doc = doc_of(self.bytes.as_slice(), self.width, at);
        number(doc, 4 * level as usize)
    }

    /// The state of a document for a pair.
    pub fn state(&self, at: u32, pair: u8) -> AggState
        requires at { at < length self.now.docs }
        requires pair { pair < length self.now.kinds }
        ensures { slice_get (doc_at self.now.docs at).1 pair ≡ Some result }
    {
        let doc = doc_of(self.bytes.as_slice(), self.width, at);
        let kinds = self.shape.kinds.as_slice();
        let states = between(doc, 4 * self.shape.dims as usize, doc.len());
        let start = widths(&kinds[..pair as usize]) as usize;
        let kind = kinds[pair as usize];
        match AggState::take(kind, between(states, start, start + kind.width())) {
            Ok(state) => state,
            Err(_) => unreachable!(),
        }
    }
}
