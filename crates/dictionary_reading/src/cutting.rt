//! Where a bound cuts the values of a dictionary that lies in a file.
ghost use Rattle.std.specs.Prelude.{◌≡◌, ◌≤◌, ◌<◌, ◌+◌, ◌*◌, ◌++◌, ◌∷◌, [], IfOk, IsErrOf, OnOk, Some, get_or, length, slice_get};
ghost use Rattle.outside.specs.Seen.{OnlyReads, seen};
ghost use Rattle.values.specs.Order.{value_order};
ghost use Rattle.values.specs.declared.value.Value as spec;
ghost use Rattle.value_ids.specs.Ids.{Cuts, matching};
ghost use Rattle.dictionary_reading.specs.Bounds.{AreCutsFrom, bounds_of};
ghost use Rattle.dictionary_reading.specs.Calls.{Looks};
ghost use Rattle.dictionary_reading.specs.InFile.{HasRoom, IsBlockOf, LogsInside, OfDictionary};

use crate::{FileDictionary, LookupFault, bounds_of, matching_ids};
use outside::Shelf;
use std::alloc::{AllocError, Global};
use std::cmp::Ordering;
use value_ids::{Cut, IdSet};
use values::{Test, Value};

impl FileDictionary {
    /// Where a bound cuts the values: it is found by halving, and of at most 21 values the bytes
    /// are read.
    pub fn cut<S: Shelf>(
        &self,
        alloc: Global,
        shelf: &mut S,
        bound: &Value,
    ) -> Result<Cut, LookupFault>
        requires room { HasRoom self.now }
        ensures cut { IfOk result (λ cut. OfDictionary self.now (S.held shelf.old)
            (λ d. Cuts d.values bound.now cut.from cut.to)) }
        ensures order { IfOk result (λ cut. cut.from ≤ cut.to) }
        ensures once { IfOk result (λ cut. cut.to ≤ cut.from + 1) }
        ensures within { IfOk result (λ cut. cut.to ≤ self.now.count) }
        ensures looks { Looks self.now (520 * 21)
            (seen S.Shelf shelf.old) (seen S.Shelf shelf.new) result }
    {
        let mut low = 0;
        let mut high = self.count;
        'halves: while low < high {
            let middle = low + (high - low) / 2;
            match self.order_at(alloc, shelf, middle, bound) {
                Ok(Ordering::Less) => low = middle + 1,
                Ok(Ordering::Greater) => high = middle,
                Ok(Ordering::Equal) => {
                    return Ok(Cut {
                        from: middle,
                        to: middle + 1,
                    });
                }
                Err(fault) => return Err(fault),
            }
        }
        Ok(Cut { from: low, to: low })
    }

    /// The ids of the values that satisfy a test. Each bound of the test is cut, and no value is
    /// tested.
    pub fn ids_matching<S: Shelf>(
        &self,
        alloc: Global,
        shelf: &mut S,
        test: &Test,
    ) -> Result<IdSet, LookupFault>
        requires room { HasRoom self.now }
        ensures ids { IfOk result (λ ids. OfDictionary self.now (S.held shelf.old)
            (λ d. ids ≡ matching test.now d.values)) }
        ensures looks { Looks self.now (10920 * length (bounds_of test.now))
            (seen S.Shelf shelf.old) (seen S.Shelf shelf.new) result }
    {
        let bounds = bounds_of(alloc, test)?;
        let cuts = match self.cuts(alloc, shelf, &bounds) {
            Ok(cuts) => cuts,
            Err(fault) => return Err(fault),
        };
        Ok(matching_ids(alloc, test, &cuts, self.count)?)
    }

    // Where bounds cut the values, one after the other.
    fn cuts<S: Shelf>(
        &self,
        alloc: Global,
        shelf: &mut S,
        bounds: &[Value],
    ) -> Result<Vec<Cut>, LookupFault>
        requires room { HasRoom self.now }
        ensures each { IfOk result (λ cuts. length cuts.items ≡ length bounds.now) }
        ensures cuts { IfOk result (λ cuts. OfDictionary self.now (S.held shelf.old)
            (λ d. AreCutsFrom 0 bounds.now cuts.items d.values)) }
        ensures looks { Looks self.now (10920 * length bounds.now)
            (seen S.Shelf shelf.old) (seen S.Shelf shelf.new) result }
    {
        let mut cuts = Vec::with_capacity(alloc, bounds.len())?;
        'bounds: for bound in bounds {
            match self.cut(alloc, shelf, bound) {
                Ok(cut) => keep_cut(&mut cuts, cut)?,
                Err(fault) => return Err(fault),
            }
        }
        Ok(cuts)
    }

    // How the value of an id stands to a bound.
    fn order_at<S: Shelf>(
        &self,
        alloc: Global,
        shelf: &mut S,
        id: u32,
        bound: &Value,
    ) -> Result<Ordering, LookupFault>
        requires room { HasRoom self.now }
        requires id { id < self.now.count }
        ensures order { IfOk result (λ order. OfDictionary self.now (S.held shelf.old)
            (λ d. (e : spec.Value) → value_order (get_or d.values id e) bound.now ≡ order)) }
        ensures looks { Looks self.now 520
            (seen S.Shelf shelf.old) (seen S.Shelf shelf.new) result }
    {
        match self.value(alloc, shelf, id) {
            Ok(value) => Ok(value.cmp(bound)),
            Err(fault) => Err(fault),
        }
    }

    /// The value of an id: its bytes alone are read.
    pub fn value<S: Shelf>(
        &self,
        alloc: Global,
        shelf: &mut S,
        id: u32,
    ) -> Result<Value, LookupFault>
        requires room { HasRoom self.now }
        requires id { id < self.now.count }
        ensures value { IfOk result (λ value. OfDictionary self.now (S.held shelf.old)
            (λ d. slice_get d.values id ≡ Some value)) }
        ensures looks { Looks self.now 520
            (seen S.Shelf shelf.old) (seen S.Shelf shelf.new) result }
    {
        match self.block(alloc, shelf, id, id + 1) {
            Ok(block) => block.value(alloc, id),
            Err(fault) => Err(fault),
        }
    }
}

fn keep_cut(cuts: &mut Vec<Cut>, cut: Cut) -> Result<(), AllocError>
    ensures { OnOk result (cuts.new.items ≡ cuts.old.items ++ cut ∷ []) }
{
    cuts.push(cut)?;
    Ok(())
}
