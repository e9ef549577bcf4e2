//! Values of a dictionary of a head that is open are read where they lie.
ghost use Rattle.std.specs.Prelude.{◌≡◌, ◌≢◌, ◌≤◌, ◌+◌, ◌*◌, ◌↔◌, IfOk, IfSome, IsTrue, length, map};
ghost use Rattle.outside.specs.Seen.{seen};
ghost use Rattle.values.specs.declared.value.Value.TheVariants as value;
ghost use Rattle.value_ids.specs.Coding.{AreBelow, values_at};
ghost use Rattle.value_ids.specs.Dictionary.{most_values};
ghost use Rattle.value_ids.specs.Ids.{Cuts, matching};
ghost use Rattle.dictionary_reading.specs.Bounds.{bounds_of};
ghost use Rattle.dictionary_reading.specs.InFile.{HasRoom};
ghost use Rattle.segment_file.specs.Columns.{kind_at};
ghost use Rattle.segment_file.specs.declared.fault.HeadFault.TheVariants.{NotASegment};
ghost use Rattle.segment_file.specs.declared.part.Part.TheVariants as part;
ghost use Rattle.segment_head.specs.Calls.{IsColumnOf, IsCountPart, Names, ReadsPart};
ghost use Rattle.segment_head.specs.Heads.{HasCount, dictionary_section};
ghost use Rattle.segment_head.specs.Lookups.{LogsDictionary, OfColumn, ReadsWhere};

use crate::{Head, Matched, NoMemory};
use data_types::FieldKind;
use dictionary_reading::{FileDictionary, LookupFault};
use outside::{Place, Shelf};
use segment_file::{HeadFault, Part};
use std::alloc::Global;
use table_schema::Table;
use value_ids::Cut;
use values::{Test, Value};

impl Head {
    /// Where a bound cuts the values of a column: it is found by halving.
    pub fn cut<S: Shelf>(
        &self,
        alloc: Global,
        shelf: &mut S,
        table: &Table,
        column: u16,
        bound: &Value,
    ) -> Result<Cut, HeadFault>
        requires { IsColumnOf table.now self.now column }
        ensures reads { ReadsPart
            (λ cut. OfColumn column (λ d. Cuts d.values bound.now cut.from cut.to))
            table.now self.now (seen S.Shelf shelf.old) (seen S.Shelf shelf.new) result }
        ensures once { IfOk result (λ cut. (cut.from ≤ cut.to) × (cut.to ≤ cut.from + 1)) }
        ensures part { Names (IsCountPart column) result }
        ensures log { LogsDictionary self.now column 10924 (S.log shelf.old) (S.log shelf.new) }
    {
        let dictionary = match self.in_file(alloc, shelf, table, column) {
            Ok(dictionary) => dictionary,
            Err(fault) => return Err(fault),
        };
        match dictionary.cut(alloc, shelf, bound) {
            Ok(cut) => Ok(cut),
            Err(fault) => Err(of_lookup(fault, column)),
        }
    }

    /// How many values a column has, and the ids of those that satisfy a test. No value is tested:
    /// each bound of the test is cut.
    pub fn matched<S: Shelf>(
        &self,
        alloc: Global,
        shelf: &mut S,
        table: &Table,
        column: u16,
        test: &Test,
    ) -> Result<Matched, HeadFault>
        requires { IsColumnOf table.now self.now column }
        ensures reads { ReadsPart (λ m. OfColumn column (λ d. (m.count ≡ length d.values)
            × (m.ids ≡ matching test.now d.values)))
            table.now self.now (seen S.Shelf shelf.old) (seen S.Shelf shelf.new) result }
        ensures few { IfOk result (λ m. m.count ≤ most_values) }
        ensures part { Names (IsCountPart column) result }
        ensures log { LogsDictionary self.now column (4 + 10920 * length (bounds_of test.now))
            (S.log shelf.old) (S.log shelf.new) }
    {
        let dictionary = match self.in_file(alloc, shelf, table, column) {
            Ok(dictionary) => dictionary,
            Err(fault) => return Err(fault),
        };
        match dictionary.ids_matching(alloc, shelf, test) {
            Ok(ids) => Ok(Matched {
                count: dictionary.count,
                ids,
            }),
            Err(fault) => Err(of_lookup(fault, column)),
        }
    }

    /// The values of these ids of a column. Ids that ascend and are near one another are read at
    /// once.
    pub fn values<S: Shelf>(
        &self,
        alloc: Global,
        shelf: &mut S,
        table: &Table,
        column: u16,
        ids: &[u32],
    ) -> Result<Vec<Value>, HeadFault>
        requires { IsColumnOf table.now self.now column }
        ensures reads { ReadsWhere
            (λ values. OfColumn column (λ d. values.items ≡ values_at d.values ids.now))
            (OfColumn column (λ d. AreBelow (length d.values) ids.now))
            table.now self.now (seen S.Shelf shelf.old) (seen S.Shelf shelf.new) result }
        ensures part { Names (IsCountPart column) result }
        ensures log { LogsDictionary self.now column (4 + 528388 * length ids.now)
            (S.log shelf.old) (S.log shelf.new) }
    {
        let dictionary = match self.in_file(alloc, shelf, table, column) {
            Ok(dictionary) => dictionary,
            Err(fault) => return Err(fault),
        };
        if !are_below(ids, dictionary.count) {
            return Err(HeadFault::NotASegment(Part::Dictionary(column)));
        }
        match dictionary.values(alloc, shelf, ids) {
            Ok(values) => Ok(values),
            Err(fault) => Err(of_lookup(fault, column)),
        }
    }

    /// The numbers of these ids of a column. Ids that ascend and are near one another are read at
    /// once.
    pub fn numbers<S: Shelf>(
        &self,
        alloc: Global,
        shelf: &mut S,
        table: &Table,
        column: u16,
        ids: &[u32],
    ) -> Result<Vec<i64>, HeadFault>
        requires column { IsColumnOf table.now self.now column }
        requires numbers { kind_at table.now column ≢ FieldKind.Text }
        ensures reads { ReadsWhere
            (λ numbers. OfColumn column
            (λ d. map value.Whole numbers.items ≡ values_at d.values ids.now))
            (OfColumn column (λ d. AreBelow (length d.values) ids.now))
            table.now self.now (seen S.Shelf shelf.old) (seen S.Shelf shelf.new) result }
        ensures count { IfOk result (λ numbers. length numbers.items ≡ length ids.now) }
        ensures part { Names (IsCountPart column) result }
        ensures log { LogsDictionary self.now column (4 + 8192 * length ids.now)
            (S.log shelf.old) (S.log shelf.new) }
    {
        let dictionary = match self.in_file(alloc, shelf, table, column) {
            Ok(dictionary) => dictionary,
            Err(fault) => return Err(fault),
        };
        if !are_below(ids, dictionary.count) {
            return Err(HeadFault::NotASegment(Part::Dictionary(column)));
        }
        match dictionary.numbers_at(alloc, shelf, ids) {
            Ok(numbers) => Ok(numbers),
            Err(fault) => Err(of_lookup(fault, column)),
        }
    }

    // The dictionary of a column, where it lies in the file: four bytes are read at most.
    fn in_file<S: Shelf>(
        &self,
        alloc: Global,
        shelf: &mut S,
        table: &Table,
        column: u16,
    ) -> Result<FileDictionary, HeadFault>
        requires { IsColumnOf table.now self.now column }
        ensures room { IfOk result HasRoom }
        ensures place { IfOk result (λ d. IfSome (dictionary_section self.now column)
            (λ s. d.place ≡ s.place)) }
        ensures kind { IfOk result (λ d. d.kind ≡ kind_at table.now column) }
        ensures reads { ReadsPart (λ d. HasCount column d.count) table.now self.now
            (seen S.Shelf shelf.old) (seen S.Shelf shelf.new) result }
        ensures part { Names (IsCountPart column) result }
        ensures log { LogsDictionary self.now column 4 (S.log shelf.old) (S.log shelf.new) }
    {
        let place = &self.dictionary_section(column).place;
        if place.length < 4 {
            return Err(HeadFault::NotASegment(Part::Dictionary(column)));
        }
        let count = match self.count(alloc, shelf, table, column) {
            Ok(count) => count,
            Err(fault) => return Err(fault),
        };
        let kind = table.schema.fields.as_slice()[column as usize].kind;
        match FileDictionary::new(kind, copied(place)?, count) {
            Some(dictionary) => Ok(dictionary),
            None => Err(HeadFault::NotASegment(Part::Dictionary(column))),
        }
    }
}

// An equal place, whose name is shared.
fn copied(place: &Place) -> Result<Place, NoMemory>
    ensures { IfOk result (λ p. p ≡ place.now) }
{
    Ok(Place {
        file: place.file.copy()?,
        offset: place.offset,
        length: place.length,
    })
}

// Each of the ids is below the count.
fn are_below(ids: &[u32], count: u32) -> bool
    ensures { IsTrue result ↔ AreBelow count ids.now }
{
    ids.iter().all(|id| *id < count)
}

// What a fault of a dictionary that is read where it lies is for the head.
fn of_lookup(fault: LookupFault, column: u16) -> HeadFault
    ensures bad { fault ≡ LookupFault.NoDictionary →
        result ≡ NotASegment (part.Dictionary column) }
    ensures memory { fault ≡ LookupFault.NoMemory → result ≡ HeadFault.NoMemory }
    ensures read { fault ≡ LookupFault.ReadFault → result ≡ HeadFault.ReadFault }
{
    match fault {
        LookupFault::NoDictionary => HeadFault::NotASegment(Part::Dictionary(column)),
        LookupFault::ReadFault => HeadFault::ReadFault,
        LookupFault::NoMemory => HeadFault::NoMemory,
    }
}
