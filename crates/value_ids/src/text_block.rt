//! Texts in bytes that have more than texts.
ghost use Rattle.std.specs.Prelude.{◌≡◌, ◌≤◌, IfSome, MatchOption, Some, length, slice_get, true, ◌<◌};
ghost use Rattle.std.specs.Str.{is_utf8};
ghost use Rattle.value_ids.specs.Blocks.{AreParts, texts_in};

use std::marker::Model;

/// Which of the bytes of a block a text has.
#[derive(Clone, Copy, Debug)]
pub struct TextPart {
    pub start: u32,
    pub len: u32,
}

/// Texts that are parts of one block of bytes, as those of a section that was read.
#[derive(Drop)]
pub struct TextBlock {
    bytes: Vec<u8>,
    places: Vec<TextPart>,
}

impl Model for TextBlock {
    ghost use Rattle.std.specs.Prelude.{List, ℕ};
    ghost use Rattle.value_ids.specs.Blocks.{AreParts, texts_in};

    ghost Value = { List (List ℕ) };

    ghost view = { λ b. texts_in b.bytes.items b.places.items };

    ghost invariant = { λ b. AreParts b.bytes.items b.places.items };
}

impl TextBlock {
    /// The texts that these parts of the bytes are.
    pub fn new(bytes: Vec<u8>, places: Vec<TextPart>) -> Self
        requires { AreParts bytes.items places.items }
        ensures { result ≡ texts_in bytes.items places.items }
    {
        TextBlock { bytes, places }
    }

    /// How many texts there are.
    pub fn len(&self) -> usize
        ensures { result ≡ length self.now }
    {
        self.places.len()
    }

    /// The bytes of the text at a place, if there is one.
    #[inline(always)]
    pub fn get(&self, at: usize) -> Option<&[u8]>
        ensures place { MatchOption result
            (length self.now ≤ at) (λ bytes. slice_get self.now at ≡ Some bytes.now) }
        ensures text { IfSome result (λ bytes. is_utf8 bytes.now ≡ true) }
    {
        let Some(part) = self.places.get(at) else {
            return None;
        };
        let start = part.start as usize;
        Some(&self.bytes[start..start + part.len as usize])
    }

    /// The text at a place.
    pub fn text(&self, at: usize) -> &str
        requires { at < length self.now }
        ensures { slice_get self.now at ≡ Some result.now }
    {
        let Some(bytes) = self.get(at) else {
            unreachable!()
        };
        let Ok(text) = str::from_utf8(bytes) else {
            unreachable!()
        };
        text
    }
}
