//! A condition with NOT pushed in, and nested ANDs and ORs flattened.

ghost use Rattle.std.specs.Prelude.{◌≡◌, ◌++◌, map, None, IfOk, OnOk};
ghost use Rattle.values.specs.declared.test.Test.TheVariants as test;
ghost use Rattle.values.specs.Tests.{negated_if};
ghost use Rattle.query_bind.specs.Written.{field_number, value_in};
ghost use Rattle.query_bind.specs.Conjuncts.{opposite_if};
ghost use Rattle.query_bind.specs.Names.{column_finding, condition_finding};
ghost use Rattle.query_bind.specs.Joints as spec;
ghost use Rattle.table_schema.specs.Firsts.{first_of};

use crate::opposite::opposite_if;
use data_types::Seq;
use query_tokens::{Cond, LiteralAt, NameAt};
use std::alloc::Global;
use table_schema::{Field, Fields, Wide};
use values::{CompareOp, NoMemory, Test};

/// How the members of a condition are joined.
#[derive(Clone, Copy, PartialEq, Eq)]
pub(crate) enum Joint {
    All,
    Any,
}

impl Joint {
    /// The same, or under a NOT the other one.
    fn other_if(self, negated: bool) -> Joint
        ensures { result ≡ spec.other_if negated self }
    {
        match self {
            Joint::All => if negated { Joint::Any } else { Joint::All },
            Joint::Any => if negated { Joint::All } else { Joint::Any },
        }
    }

    fn join(self, members: Seq<Wide>) -> Wide
        ensures { result ≡ spec.join self members }
    {
        match self {
            Joint::All => Wide::All(members),
            Joint::Any => Wide::Any(members),
        }
    }
}

/// The fields that names in conditions stand for.
#[derive(Clone, Copy)]
pub(crate) struct Scope<'a> {
    pub(crate) alloc: Global,
    pub(crate) fields: Fields<'a>,
}

impl Scope<'_> {
    /// The number of the field of that name.
    fn field_number(&self, name: &NameAt) -> u16
        requires { column_finding self.now.fields.all.now name.now ≡ None }
        ensures { result ≡ field_number self.now.fields.all.now name.now }
    {
        match Field::number_of(self.fields.all, name.name.as_slice()) {
            Some(number) => number,
            None => unreachable!(),
        }
    }

    /// Puts the normal form of a condition among members that are joined so.
    #[cycle(gather)]
    pub(crate) fn gather(
        &self,
        condition: &Cond,
        negated: bool,
        joint: Joint,
        members: &mut Seq<Wide>,
    ) -> Result<(), NoMemory>
        requires { condition_finding self.now.fields.all.now condition.now ≡ None }
        ensures { OnOk result (members.new
            ≡ members.old ++ spec.gathered joint negated self.now.fields.all.now condition.now) }
    {
        match condition {
            Cond::Compare(name, op, bound) => {
                let test = comparison(self.alloc, negated, *op, bound)?;
                members.push(Wide::Leaf(self.field_number(name), test))
            }
            Cond::OneOf(name, literals, n) => {
                let test = one_of(self.alloc, literals.as_slice(), negated != *n)?;
                members.push(Wide::Leaf(self.field_number(name), test))
            }
            Cond::Between(name, low, high, n) => {
                let test = between(self.alloc, low, high, negated != *n)?;
                members.push(Wide::Leaf(self.field_number(name), test))
            }
            Cond::Not(inner) => self.gather(inner.get(), !negated, joint, members),
            Cond::All(inner) => {
                let own = Joint::All.other_if(negated);
                self.gather_joined(inner.as_slice(), negated, own, joint, members)
            }
            Cond::Any(inner) => {
                let own = Joint::Any.other_if(negated);
                self.gather_joined(inner.as_slice(), negated, own, joint, members)
            }
        }
    }

    /// Puts conditions that are joined by `own` among members that are joined by `joint`.
    #[cycle(gather)]
    fn gather_joined(
        &self,
        conditions: &[Cond],
        negated: bool,
        own: Joint,
        joint: Joint,
        members: &mut Seq<Wide>,
    ) -> Result<(), NoMemory>
        requires { first_of (map (condition_finding self.now.fields.all.now) conditions.now)
            ≡ None }
        ensures { OnOk result (members.new ≡ members.old ++ spec.parts joint
            (spec.join own
            (spec.all_gathered own negated self.now.fields.all.now conditions.now))) }
    {
        if own == joint {
            return self.gather_all(conditions, negated, joint, members);
        }
        let mut inner = Seq::with_capacity(self.alloc, conditions.len())?;
        self.gather_all(conditions, negated, own, &mut inner)?;
        members.push(own.join(inner))
    }

    /// Puts conditions one by one among members that are joined so.
    #[cycle(gather)]
    fn gather_all(
        &self,
        conditions: &[Cond],
        negated: bool,
        joint: Joint,
        members: &mut Seq<Wide>,
    ) -> Result<(), NoMemory>
        requires { first_of (map (condition_finding self.now.fields.all.now) conditions.now)
            ≡ None }
        ensures { OnOk result (members.new
            ≡ members.old
            ++ spec.all_gathered joint negated self.now.fields.all.now conditions.now) }
    {
        for condition in conditions {
            self.gather(condition, negated, joint, members)?;
        }
        Ok(())
    }
}

fn comparison(
    alloc: Global,
    negated: bool,
    op: CompareOp,
    bound: &LiteralAt,
) -> Result<Test, NoMemory>
    ensures { IfOk result (λ t. t ≡ test.Compare (opposite_if negated op) bound.now.value) }
{
    let bound = bound.value.copy(alloc)?;
    Ok(Test::Compare(opposite_if(negated, op), bound))
}

fn one_of(alloc: Global, literals: &[LiteralAt], negated: bool) -> Result<Test, NoMemory>
    ensures { IfOk result (λ t. t ≡ test.OneOf (map value_in literals.now) negated) }
{
    let mut values = Seq::with_capacity(alloc, literals.len())?;
    for literal in literals {
        values.push(literal.value.copy(alloc)?)?;
    }
    Ok(Test::OneOf(values, negated))
}

fn between(
    alloc: Global,
    low: &LiteralAt,
    high: &LiteralAt,
    negated: bool,
) -> Result<Test, NoMemory>
    ensures { IfOk result (λ t. t ≡ test.Between low.now.value high.now.value negated) }
{
    let low = low.value.copy(alloc)?;
    let high = high.value.copy(alloc)?;
    Ok(Test::Between(low, high, negated))
}
