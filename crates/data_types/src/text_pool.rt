//! Texts in one block of bytes.
ghost use Rattle.std.specs.Prelude.{◌≡◌, ◌<◌, ◌≤◌, ◌++◌, ◌∷◌, [], IfSome, MatchOption, OnErr, OnOk, Some, length, slice_get, true};
ghost use Rattle.std.specs.Str.{is_utf8};

use crate::text_index::text_of;
use std::alloc::{AllocError, Global};
use std::marker::Model;

// Which of the bytes a text has.
#[derive(Clone, Copy, Debug)]
struct Span {
    start: usize,
    len: usize,
}

/// A list of texts, whose bytes are one block and their places another.
#[derive(Drop)]
pub struct TextPool {
    bytes: Vec<u8>,
    spans: Vec<Span>,
}

impl Model for TextPool {
    ghost use Rattle.std.specs.Prelude.{List, ℕ};
    ghost use Rattle.data_types.specs.Pools.{ArePieces, pieces};

    ghost Value = { List (List ℕ) };

    ghost view = { λ p. pieces p.bytes.items p.spans.items };

    ghost invariant = { λ p. ArePieces p.bytes.items p.spans.items };
}

impl TextPool {
    pub fn new(alloc: Global) -> Self
        ensures { result ≡ [] }
    {
        TextPool {
            bytes: Vec::new(alloc),
            spans: Vec::new(alloc),
        }
    }

    /// How many texts there are.
    pub fn len(&self) -> usize
        ensures { result ≡ length self.now }
    {
        self.spans.len()
    }

    /// The bytes of the text at a place, if there is one.
    #[inline(always)]
    pub fn get(&self, at: usize) -> Option<&[u8]>
        ensures place { MatchOption result
            (length self.now ≤ at) (λ bytes. slice_get self.now at ≡ Some bytes.now) }
        ensures text { IfSome result (λ bytes. is_utf8 bytes.now ≡ true) }
    {
        let Some(span) = self.spans.get(at) else {
            return None;
        };
        Some(&self.bytes[span.start..span.start + span.len])
    }

    /// The text at a place.
    pub fn text(&self, at: usize) -> &str
        requires { at < length self.now }
        ensures { slice_get self.now at ≡ Some result.now }
    {
        let Some(bytes) = self.get(at) else {
            unreachable!()
        };
        let Some(text) = text_of(bytes) else {
            unreachable!()
        };
        text
    }

    /// Adds a text at the end.
    pub fn push(&mut self, text: &str) -> Result<(), AllocError>
        ensures ok { OnOk result (self.new ≡ self.old ++ text.now ∷ []) }
        ensures err { OnErr result (self.new ≡ self.old) }
    {
        let start = self.bytes.len();
        self.bytes.extend_from_slice(text.as_bytes())?;
        let len = text.len();
        self.spans.push(Span { start, len })?;
        Ok(())
    }
}
