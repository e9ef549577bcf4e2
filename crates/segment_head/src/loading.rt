//! The dictionaries of a head that is open are loaded.
ghost use Rattle.std.specs.Prelude.{◌≡◌, ◌≤◌, ◌<◌, ◌+◌, IfOk, IfSome, MatchOption, OnErr, None, Some, length, slice_get};
ghost use Rattle.outside.specs.Reads.{LogsUpTo};
ghost use Rattle.outside.specs.Seen.{seen};
ghost use Rattle.segment_head.specs.Calls.{FailsLoading, IsColumnOf, IsCountPart, Names, ReadsPart};
ghost use Rattle.segment_head.specs.Heads.{HasCount, IsHeadOf, IsLoaded, IsPartOf, Loads, dictionary_section, with_dictionary};

use crate::Head;
use crate::dictionaries::{of_dictionary, take_dictionary};
use crate::number_pieces::read_numbers;
use data_types::FieldKind;
use dictionary::Dictionary;
use outside::Shelf;
use segment_file::{HeadFault, Part, Section, four_at, read_exactly};
use std::alloc::Global;
use table_schema::Table;

// A dictionary of so many bytes is read at once.
const MOST_WHOLE: u64 = 65_536;

impl Head {
    /// Loads the dictionary of a column: its section alone is read, and nothing where it is loaded.
    pub fn load_dictionary<S: Shelf>(
        &mut self,
        alloc: Global,
        shelf: &mut S,
        table: &Table,
        column: u16,
    ) -> Result<(), HeadFault>
        requires { IsColumnOf table.now self.old column }
        ensures loads { IfOk result (λ _. Loads column self.old self.new) }
        ensures same { OnErr result (self.new ≡ self.old) }
        ensures of { IsHeadOf table.now self.new }
        ensures reads { ReadsPart (λ _ whole. IsPartOf whole self.new) table.now self.old
            (seen S.Shelf shelf.old) (seen S.Shelf shelf.new) result }
        ensures log { IfSome (dictionary_section self.old column) (λ s.
            LogsUpTo s.place.file s.place.offset (s.place.offset + s.place.length)
            (S.log shelf.old) (S.log shelf.new)) }
        ensures loaded { IsLoaded self.old column →
            (self.new ≡ self.old) × (S.log shelf.new ≡ S.log shelf.old) }
        ensures part { Names (FailsLoading table.now (S.held shelf.old) self.old column) result }
    {
        if self.loaded(column).is_some() {
            return Ok(());
        }
        let dictionary = match self.read_dictionary(alloc, shelf, table, column) {
            Ok(dictionary) => dictionary,
            Err(fault) => return Err(fault),
        };
        self.keep(column, dictionary);
        Ok(())
    }

    /// How many values the dictionary of a column has. Where it is not loaded, the first four bytes
    /// of its section are read.
    pub fn count<S: Shelf>(
        &self,
        alloc: Global,
        shelf: &mut S,
        table: &Table,
        column: u16,
    ) -> Result<u32, HeadFault>
        requires { IsColumnOf table.now self.now column }
        ensures reads { ReadsPart (HasCount column) table.now self.now
            (seen S.Shelf shelf.old) (seen S.Shelf shelf.new) result }
        ensures loaded { IfOk result (λ n. IsLoaded self.now column → HasCount column n self.now) }
        ensures log { IfSome (dictionary_section self.now column) (λ s.
            LogsUpTo s.place.file s.place.offset (s.place.offset + 4)
            (S.log shelf.old) (S.log shelf.new)) }
        ensures unchanged { IsLoaded self.now column → S.log shelf.new ≡ S.log shelf.old }
        ensures part { Names (IsCountPart column) result }
    {
        match self.loaded(column) {
            Some(dictionary) => Ok(dictionary.count()),
            None => self.read_count(alloc, shelf, table, column),
        }
    }

    // How many values the dictionary of a column has, read from its section.
    fn read_count<S: Shelf>(
        &self,
        alloc: Global,
        shelf: &mut S,
        table: &Table,
        column: u16,
    ) -> Result<u32, HeadFault>
        requires { IsColumnOf table.now self.now column }
        ensures reads { ReadsPart (HasCount column) table.now self.now
            (seen S.Shelf shelf.old) (seen S.Shelf shelf.new) result }
        ensures at_most { IfOk result (λ n. n ≤ self.now.rows) }
        ensures part { Names (IsCountPart column) result }
        ensures log { IfSome (dictionary_section self.now column) (λ s.
            LogsUpTo s.place.file s.place.offset (s.place.offset + 4)
            (S.log shelf.old) (S.log shelf.new)) }
    {
        let place = &self.dictionary_section(column).place;
        if place.length < 4 {
            return Err(HeadFault::NotASegment(Part::Dictionary(column)));
        }
        let bytes = match read_exactly(alloc, shelf, place.file.as_str(), place.offset, 4) {
            Ok(bytes) => bytes,
            Err(fault) => return Err(fault),
        };
        let count = four_at(bytes.as_slice(), 0);
        if count > self.rows {
            return Err(HeadFault::NotASegment(Part::Dictionary(column)));
        }
        if count == 0 && self.rows > 0 {
            return Err(HeadFault::NotASegment(Part::Dictionary(column)));
        }
        Ok(count)
    }

    // The dictionary of a column, read from its section: many numbers piece by piece.
    fn read_dictionary<S: Shelf>(
        &self,
        alloc: Global,
        shelf: &mut S,
        table: &Table,
        column: u16,
    ) -> Result<Dictionary, HeadFault>
        requires { IsColumnOf table.now self.now column }
        ensures reads { ReadsPart (λ d whole. slice_get whole.dictionaries column ≡ Some (Some d))
            table.now self.now (seen S.Shelf shelf.old) (seen S.Shelf shelf.new) result }
        ensures log { IfSome (dictionary_section self.now column) (λ s.
            LogsUpTo s.place.file s.place.offset (s.place.offset + s.place.length)
            (S.log shelf.old) (S.log shelf.new)) }
        ensures part { Names (FailsLoading table.now (S.held shelf.old) self.now column) result }
    {
        let place = &self.dictionary_section(column).place;
        if place.length <= MOST_WHOLE {
            return self.read_whole(alloc, shelf, table, column);
        }
        let kind = table.schema.fields.as_slice()[column as usize].kind;
        match kind {
            FieldKind::Text => self.read_whole(alloc, shelf, table, column),
            FieldKind::Int | FieldKind::Long => {
                read_numbers(alloc, shelf, place, kind, self.rows, column)
            }
        }
    }

    // The dictionary of a column, of whose section all bytes are read at once.
    fn read_whole<S: Shelf>(
        &self,
        alloc: Global,
        shelf: &mut S,
        table: &Table,
        column: u16,
    ) -> Result<Dictionary, HeadFault>
        requires { IsColumnOf table.now self.now column }
        ensures reads { ReadsPart (λ d whole. slice_get whole.dictionaries column ≡ Some (Some d))
            table.now self.now (seen S.Shelf shelf.old) (seen S.Shelf shelf.new) result }
        ensures log { IfSome (dictionary_section self.now column) (λ s.
            LogsUpTo s.place.file s.place.offset (s.place.offset + s.place.length)
            (S.log shelf.old) (S.log shelf.new)) }
        ensures part { Names (FailsLoading table.now (S.held shelf.old) self.now column) result }
    {
        let place = &self.dictionary_section(column).place;
        let file = place.file.as_str();
        let bytes = match read_exactly(alloc, shelf, file, place.offset, place.length) {
            Ok(bytes) => bytes,
            Err(fault) => return Err(fault),
        };
        let kind = table.schema.fields.as_slice()[column as usize].kind;
        match take_dictionary(alloc, kind, self.rows, bytes.into_vec()) {
            Ok(dictionary) => Ok(dictionary),
            Err(fault) => Err(of_dictionary(fault, column)),
        }
    }

    // The dictionary of a column, if it was loaded.
    fn loaded(&self, column: u16) -> Option<&Dictionary>
        requires { column < length self.now.dictionaries }
        ensures { MatchOption result
            (slice_get self.now.dictionaries column ≡ Some None)
            (λ d. slice_get self.now.dictionaries column ≡ Some (Some d.now)) }
    {
        match &self.dictionaries[column as usize] {
            Some(dictionary) => Some(dictionary),
            None => None,
        }
    }

    /// Keeps the dictionary of a column.
    pub(crate) fn keep(&mut self, column: u16, dictionary: Dictionary)
        requires { column < length self.old.dictionaries }
        ensures { self.new ≡ with_dictionary column dictionary self.old }
    {
        self.dictionaries[column as usize] = Some(dictionary);
    }

    /// The section of the dictionary of a column.
    pub(crate) fn dictionary_section(&self, column: u16) -> &Section
        requires { column + 1 < length self.now.sections }
        ensures { dictionary_section self.now column ≡ Some result.now }
    {
        &self.sections[column as usize + 1]
    }
}
