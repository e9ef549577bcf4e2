//! A dictionary that lies in a file.
ghost use Rattle.std.specs.Prelude.{◌≡◌, ◌≤◌, ◌<◌, ◌+◌, ◌-◌, ◌*◌, ◌^◌, IfOk, IfSome, IsErrOf, IsNone, Some, length};
ghost use Rattle.outside.specs.Files.{Files};
ghost use Rattle.outside.specs.Seen.{OnlyReads, seen};
ghost use Rattle.dictionary.specs.Spelling.{texts};
ghost use Rattle.dictionary_reading.specs.Calls.{Looks};
ghost use Rattle.dictionary_reading.specs.InFile.{AreStarts, HasRoom, IsBlock, IsBlockOf, LogsInside, OfDictionary, part, room_of};

use crate::{Block, LookupFault, four_at, read_part};
use data_types::FieldKind;
use dictionary::MOST_VALUES;
use outside::{Bytes, Place, Shelf};
use std::alloc::Global;

/// A dictionary that lies in a file, of which the number of values alone is kept.
#[derive(Debug, Drop)]
pub struct FileDictionary {
    pub kind: FieldKind,
    pub place: Place,
    pub count: u32,
}

impl FileDictionary {
    /// The dictionary of a kind at this place, of so many values, if there is room for them.
    pub fn new(kind: FieldKind, place: Place, count: u32) -> Option<FileDictionary>
        requires fits { place.offset + place.length < 2 ^ 64 }
        ensures room { IfSome result HasRoom }
        ensures made { IfSome result (λ d.
            d ≡ record { kind = kind; place = place; count = count }) }
        ensures none { IsNone result → (files : Files) → OfDictionary
            (record { kind = kind; place = place; count = count }) (Some files) (λ _. ⊥) }
    {
        if count as usize > MOST_VALUES || place.length < room_of(kind, count) {
            return None;
        }
        Some(FileDictionary { kind, place, count })
    }

    /// The bytes of the values from one id up to another.
    pub fn block<S: Shelf>(
        &self,
        alloc: Global,
        shelf: &mut S,
        from: u32,
        to: u32,
    ) -> Result<Block, LookupFault>
        requires room { HasRoom self.now }
        requires order { from ≤ to }
        requires within { to ≤ self.now.count }
        ensures block { IfOk result IsBlock }
        ensures span { IfOk result (λ b. (b.from ≡ from) × (b.to ≡ to)) }
        ensures of { IfOk result (λ b.
            OfDictionary self.now (S.held shelf.old) (λ d. IsBlockOf d b)) }
        ensures looks { Looks self.now (4 + 516 * (to - from))
            (seen S.Shelf shelf.old) (seen S.Shelf shelf.new) result }
    {
        match self.kind {
            FieldKind::Int | FieldKind::Long => self.numbers(alloc, shelf, from, to),
            FieldKind::Text => self.texts(alloc, shelf, from, to),
        }
    }

    /// The bytes of the numbers from one id up to another.
    pub fn numbers<S: Shelf>(
        &self,
        alloc: Global,
        shelf: &mut S,
        from: u32,
        to: u32,
    ) -> Result<Block, LookupFault>
        requires room { HasRoom self.now }
        requires numbers { ¬ (self.now.kind ≡ FieldKind.Text) }
        requires order { from ≤ to }
        requires within { to ≤ self.now.count }
        ensures block { IfOk result IsBlock }
        ensures kind { IfOk result (λ b. b.kind ≡ self.now.kind) }
        ensures sized { IfOk result (λ b. length b.body ≡ 8 * (b.to - b.from)) }
        ensures span { IfOk result (λ b. (b.from ≡ from) × (b.to ≡ to)) }
        ensures of { IfOk result (λ b.
            OfDictionary self.now (S.held shelf.old) (λ d. IsBlockOf d b)) }
        ensures looks { Looks self.now (8 * (to - from))
            (seen S.Shelf shelf.old) (seen S.Shelf shelf.new) result }
    {
        let at = 4 + 8 * u64::from(from);
        let body = match read_part(alloc, shelf, &self.place, at, 8 * u64::from(to - from)) {
            Ok(body) => body,
            Err(fault) => return Err(fault),
        };
        Ok(Block::new(self.kind, from, to, Bytes::new(alloc), body))
    }

    // Where texts begin, from one id up to another, and where the last of these ends.
    fn starts<S: Shelf>(
        &self,
        alloc: Global,
        shelf: &mut S,
        from: u32,
        to: u32,
    ) -> Result<Bytes, LookupFault>
        requires room { HasRoom self.now }
        requires texts { self.now.kind ≡ FieldKind.Text }
        requires order { from ≤ to }
        requires within { to ≤ self.now.count }
        ensures size { IfOk result (λ starts. length starts ≡ 4 * (to - from) + 4) }
        ensures of { IfOk result (λ starts. OfDictionary self.now (S.held shelf.old)
            (λ d. AreStarts d.values from to starts)) }
        ensures looks { Looks self.now (4 * (to - from) + 4)
            (seen S.Shelf shelf.old) (seen S.Shelf shelf.new) result }
    {
        let at = 4 + 4 * u64::from(from);
        let size = 4 * u64::from(to - from) + 4;
        read_part(alloc, shelf, &self.place, at, size)
    }

    // The bytes of the texts between two starts.
    fn texts_between<S: Shelf>(
        &self,
        alloc: Global,
        shelf: &mut S,
        start: u32,
        end: u32,
    ) -> Result<Bytes, LookupFault>
        requires room { HasRoom self.now }
        requires texts { self.now.kind ≡ FieldKind.Text }
        requires order { start ≤ end }
        ensures of { IfOk result (λ body. OfDictionary self.now (S.held shelf.old)
            (λ d. body ≡ part start (end - start) (texts d.values))) }
        ensures bad { IsErrOf result LookupFault.NoDictionary →
            OfDictionary self.now (S.held shelf.old) (λ d. length (texts d.values) < end) }
        ensures only_reads { OnlyReads (IsErrOf result LookupFault.ReadFault)
            (seen S.Shelf shelf.old) (seen S.Shelf shelf.new) }
        ensures log { LogsInside self.now.place (end - start)
            (S.log shelf.old) (S.log shelf.new) }
    {
        let base = 8 + 4 * u64::from(self.count);
        if self.place.length - base < u64::from(end) {
            return Err(LookupFault::NoDictionary);
        }
        read_part(
            alloc,
            shelf,
            &self.place,
            base + u64::from(start),
            u64::from(end - start),
        )
    }

    // The bytes of the texts from one id up to another.
    fn texts<S: Shelf>(
        &self,
        alloc: Global,
        shelf: &mut S,
        from: u32,
        to: u32,
    ) -> Result<Block, LookupFault>
        requires room { HasRoom self.now }
        requires texts { self.now.kind ≡ FieldKind.Text }
        requires order { from ≤ to }
        requires within { to ≤ self.now.count }
        ensures block { IfOk result IsBlock }
        ensures span { IfOk result (λ b. (b.from ≡ from) × (b.to ≡ to)) }
        ensures of { IfOk result (λ b.
            OfDictionary self.now (S.held shelf.old) (λ d. IsBlockOf d b)) }
        ensures looks { Looks self.now (4 + 516 * (to - from))
            (seen S.Shelf shelf.old) (seen S.Shelf shelf.new) result }
    {
        let starts = match self.starts(alloc, shelf, from, to) {
            Ok(starts) => starts,
            Err(fault) => return Err(fault),
        };
        let start = four_at(starts.as_slice(), 0);
        let end = four_at(starts.as_slice(), 4 * (to - from) as usize);
        if end < start || u64::from(end - start) > 512 * u64::from(to - from) {
            return Err(LookupFault::NoDictionary);
        }
        let body = match self.texts_between(alloc, shelf, start, end) {
            Ok(body) => body,
            Err(fault) => return Err(fault),
        };
        Ok(Block::new(self.kind, from, to, starts, body))
    }
}

// The bytes before the texts, or those of the numbers.
fn room_of(kind: FieldKind, count: u32) -> u64
    ensures { result ≡ room_of kind count }
{
    match kind {
        FieldKind::Int | FieldKind::Long => 4 + 8 * u64::from(count),
        FieldKind::Text => 8 + 4 * u64::from(count),
    }
}
