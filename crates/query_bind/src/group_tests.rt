//! HAVING by places among group columns and aggregates.

ghost use Rattle.std.specs.Prelude.{◌≡◌, map, None, IfOk};
ghost use Rattle.query_bind.specs.GroupTests as tests;
ghost use Rattle.query_bind.specs.Names as naming;
ghost use Rattle.query_bind.specs.Bound as spec;
ghost use Rattle.table_schema.specs.Firsts.{first_of};

use crate::having::meaning;
use crate::items::{Listed, item_of};
use data_types::{Boxed, Seq};
use query_tokens::HavingCond;
use std::alloc::Global;
use table_schema::{Fields, Having, Item};
use values::{CompareOp, NoMemory, Value};

/// The fields of a table, and the group columns and the aggregates of a query.
#[derive(Clone, Copy)]
pub(crate) struct Tested<'a> {
    pub(crate) alloc: Global,
    pub(crate) fields: Fields<'a>,
    pub(crate) lists: Listed<'a>,
}

impl Tested<'_> {
    /// What a query asks of a group.
    pub(crate) fn asked(&self, having: &Option<HavingCond>) -> Result<Option<Having>, NoMemory>
        requires { tests.having_finding
            (naming.group_test_finding self.now.fields.all.now) having.now ≡ None }
        ensures { IfOk result (λ asked. asked ≡ spec.asked_of self.now.fields.all.now
            self.now.lists.groups.now self.now.lists.aggs.now having.now) }
    {
        match having {
            Some(having) => Ok(Some(self.placed(having)?)),
            None => Ok(None),
        }
    }

    #[cycle(placed)]
    fn placed(&self, having: &HavingCond) -> Result<Having, NoMemory>
        requires { tests.first_test
            (naming.group_test_finding self.now.fields.all.now) having.now ≡ None }
        ensures { IfOk result (λ placed. placed ≡ spec.having_of self.now.fields.all.now
            self.now.lists.groups.now self.now.lists.aggs.now having.now) }
    {
        match having {
            HavingCond::Compare(term, op, literal) => {
                let item = item_of(self.lists, meaning(self.fields, term));
                test_of(self.alloc, item, *op, &literal.value)
            }
            HavingCond::Not(inner) => {
                let inner = self.placed(inner.get())?;
                Ok(Having::Not(Boxed::new(self.alloc, inner)?))
            }
            HavingCond::All(members) => Ok(Having::All(self.all_placed(members.as_slice())?)),
            HavingCond::Any(members) => Ok(Having::Any(self.all_placed(members.as_slice())?)),
        }
    }

    #[cycle(placed)]
    fn all_placed(&self, conditions: &[HavingCond]) -> Result<Seq<Having>, NoMemory>
        requires { first_of (map (tests.first_test
            (naming.group_test_finding self.now.fields.all.now)) conditions.now) ≡ None }
        ensures { IfOk result (λ placed. placed ≡ map (spec.having_of self.now.fields.all.now
            self.now.lists.groups.now self.now.lists.aggs.now) conditions.now) }
    {
        let mut placed = Seq::with_capacity(self.alloc, conditions.len())?;
        for condition in conditions {
            placed.push(self.placed(condition)?)?;
        }
        Ok(placed)
    }
}

fn test_of(alloc: Global, item: Item, op: CompareOp, value: &Value) -> Result<Having, NoMemory>
    ensures { IfOk result (λ test. test ≡ spec.test_of item op value.now) }
{
    match item {
        Item::Group(place) => Ok(Having::Group(place, op, value.copy(alloc)?)),
        Item::Agg(place) => Ok(Having::Agg(place, op, whole_in(value))),
    }
}

fn whole_in(value: &Value) -> i64
    ensures { result ≡ spec.whole_in value.now }
{
    match value {
        Value::Whole(number) => *number,
        Value::Text(_) => 0,
    }
}
