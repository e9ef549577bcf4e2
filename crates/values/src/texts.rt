//! A column of texts.
ghost use Rattle.std.specs.Prelude.{◌≡◌, ◌<◌, true, false, MatchBool, ◌++◌, ◌∷◌, [], length, OnOk, OnErr, IfOk, Some, slice_get};
ghost use Rattle.std.specs.Str.{is_utf8};
ghost use Rattle.data_types.specs.Texts.{IsCoding, texts_of};

use crate::{place, place_of_bytes};
use data_types::{TextIndex, TextPool};
use std::alloc::{AllocError, Global};
use std::marker::Model;

/// Texts, of which each is kept once, as a rule, and its place among those for each row.
#[derive(Drop)]
pub struct Texts {
    pool: TextPool,
    ids: Vec<u32>,
    index: TextIndex,
}

impl Model for Texts {
    ghost use Rattle.std.specs.Prelude.{List, ℕ};
    ghost use Rattle.data_types.specs.Texts.{texts_of, IsCoding};

    ghost Value = { List (List ℕ) };

    ghost view = { λ t. texts_of t.pool t.ids.items };

    ghost invariant = { λ t. IsCoding t.pool t.ids.items };
}

impl Texts {
    pub fn new(alloc: Global) -> Self
        ensures { result ≡ [] }
    {
        Texts {
            pool: TextPool::new(alloc),
            ids: Vec::new(alloc),
            index: TextIndex::new(alloc),
        }
    }

    pub fn len(&self) -> usize
        ensures { result ≡ length self.now }
    {
        self.ids.len()
    }

    /// The text of a row.
    pub fn at(&self, row: usize) -> &str
        requires { row < length self.now }
        ensures { slice_get self.now row ≡ Some result.now }
    {
        self.pool.text(self.ids[row] as usize)
    }

    /// The texts that are kept, each of which some row has, and for each row the place of its own.
    pub fn parts(&self) -> (&TextPool, &[u32])
        ensures rows { texts_of result.0.now result.1.now ≡ self.now }
        ensures coding { IsCoding result.0.now result.1.now }
    {
        (&self.pool, self.ids.as_slice())
    }

    /// Makes room for so many more rows.
    pub fn reserve(&mut self, rows: usize) -> Result<(), AllocError>
        ensures { self.new ≡ self.old }
    {
        self.ids.reserve(rows)
    }

    /// Adds a text at the end.
    #[inline(always)]
    pub fn push(&mut self, text: &str) -> Result<(), AllocError>
        ensures ok { OnOk result (self.new ≡ self.old ++ text.now ∷ []) }
        ensures err { OnErr result (self.new ≡ self.old) }
    {
        self.ids.reserve(1)?;
        let id = place(&mut self.pool, &mut self.index, text)?;
        self.ids.push(id)?;
        Ok(())
    }

    /// Adds some bytes at the end, if they are a text.
    #[inline(always)]
    pub fn push_bytes(&mut self, bytes: &[u8]) -> Result<bool, AllocError>
        ensures ok { IfOk result (λ added. MatchBool added
            ((self.new ≡ self.old ++ bytes.now ∷ []) × (is_utf8 bytes.now ≡ true))
            ((self.new ≡ self.old) × (is_utf8 bytes.now ≡ false))) }
        ensures err { OnErr result (self.new ≡ self.old) }
    {
        self.ids.reserve(1)?;
        let place = place_of_bytes(&mut self.pool, &mut self.index, bytes)?;
        let Some(id) = place else {
            return Ok(false);
        };
        self.ids.push(id)?;
        Ok(true)
    }
}
