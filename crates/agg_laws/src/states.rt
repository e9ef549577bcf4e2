//! States of any kind.

ghost use Rattle.std.specs.Prelude.{◌≡◌, ◌∷◌, [], length, IfOk, Ok};
ghost use Rattle.agg_laws.specs.Kind.{width_of};
ghost use Rattle.agg_laws.specs.Numbers.{most_values};

use crate::aggregate_kind::AggKind;
use crate::aggregator::{Aggregator, BadState};
use crate::averages::{Average, AverageState};
use crate::counts::Count;
use crate::extremes::{Greatest, Least};
use crate::sums::Sum;

/// The state of an aggregate, of whichever kind.
#[derive(Clone, Copy, Debug, PartialEq, Eq)]
pub enum AggState {
    /// How many values there are.
    Count(u64),
    /// Their sum.
    Sum(i128),
    /// The least of them, where there are any.
    Least(Option<i64>),
    /// The greatest of them, where there are any.
    Greatest(Option<i64>),
    /// Their sum and their number.
    Average(AverageState),
}

impl AggState {
    ghost use Rattle.agg_laws.specs.declared.states.AggState.{AggState};
    ghost use Rattle.agg_laws.specs.States.{kind_of, state_of, unit_of, merged, Fits, IsStored};
    ghost use Rattle.agg_laws.specs.States.{spelling};

    pub fn kind(&self) -> AggKind
        ensures { result ≡ kind_of self.now }
    {
        match self {
            AggState::Count(_) => AggKind::Count,
            AggState::Sum(_) => AggKind::Sum,
            AggState::Least(_) => AggKind::Least,
            AggState::Greatest(_) => AggKind::Greatest,
            AggState::Average(_) => AggKind::Average,
        }
    }

    /// The state of no value.
    pub fn unit(kind: AggKind) -> AggState
        ensures { result ≡ unit_of kind }
    {
        match kind {
            AggKind::Count => AggState::Count(Count::unit()),
            AggKind::Sum => AggState::Sum(Sum::unit()),
            AggKind::Least => AggState::Least(Least::unit()),
            AggKind::Greatest => AggState::Greatest(Greatest::unit()),
            AggKind::Average => AggState::Average(Average::unit()),
        }
    }

    /// The state of one value.
    pub fn one(kind: AggKind, value: i64) -> AggState
        ensures { result ≡ state_of kind (value ∷ []) }
    {
        match kind {
            AggKind::Count => AggState::Count(1),
            AggKind::Sum => AggState::Sum(value as i128),
            AggKind::Least => AggState::Least(Some(value)),
            AggKind::Greatest => AggState::Greatest(Some(value)),
            AggKind::Average => AggState::Average(AverageState {
                sum: value as i128,
                count: 1,
            }),
        }
    }

    /// One more value.
    pub fn add(&mut self, value: i64)
        requires { Fits (merged self.old (state_of (kind_of self.old) (value ∷ []))) most_values }
        ensures { self.new ≡ merged self.old (state_of (kind_of self.old) (value ∷ [])) }
    {
        match self {
            AggState::Count(count) => Count::add(count, value),
            AggState::Sum(sum) => Sum::add(sum, value),
            AggState::Least(least) => Least::add(least, value),
            AggState::Greatest(greatest) => Greatest::add(greatest, value),
            AggState::Average(average) => Average::add(average, value),
        }
    }

    /// The values of another state too, which is of the same kind.
    pub fn merge(&mut self, from: &AggState)
        requires kinds { kind_of self.old ≡ kind_of from.now }
        requires fits { Fits (merged self.old from.now) most_values }
        ensures { self.new ≡ merged self.old from.now }
    {
        match (self, from) {
            (AggState::Count(into), AggState::Count(from)) => Count::merge(into, from),
            (AggState::Sum(into), AggState::Sum(from)) => Sum::merge(into, from),
            (AggState::Least(into), AggState::Least(from)) => Least::merge(into, from),
            (AggState::Greatest(into), AggState::Greatest(from)) => Greatest::merge(into, from),
            (AggState::Average(into), AggState::Average(from)) => Average::merge(into, from),
            _ => unreachable!(),
        }
    }

    /// Writes a stored state.
    pub fn put(&self, out: &mut [u8])
        requires stored { IsStored self.now }
        requires width { length out.old ≡ width_of (kind_of self.now) }
        ensures { out.new ≡ spelling self.now }
    {
        match self {
            AggState::Count(count) => Count::put(count, out),
            AggState::Sum(sum) => Sum::put(sum, out),
            AggState::Least(least) => Least::put(least, out),
            AggState::Greatest(greatest) => Greatest::put(greatest, out),
            AggState::Average(average) => Average::put(average, out),
        }
    }

    /// Reads a stored state of a kind.
    pub fn take(kind: AggKind, bytes: &[u8]) -> Result<AggState, BadState>
        requires { length bytes.now ≡ width_of kind }
        ensures found { IfOk result (λ v. (kind_of v ≡ kind) × IsStored v × (spelling v
            ≡ bytes.now)) }
        ensures again { (v : AggState) → kind_of v ≡ kind → IsStored v → spelling v ≡ bytes.now
            → result ≡ Ok v }
    {
        match kind {
            AggKind::Count => Ok(AggState::Count(Count::take(bytes)?)),
            AggKind::Sum => Ok(AggState::Sum(Sum::take(bytes)?)),
            AggKind::Least => Ok(AggState::Least(Least::take(bytes)?)),
            AggKind::Greatest => Ok(AggState::Greatest(Greatest::take(bytes)?)),
            AggKind::Average => Ok(AggState::Average(Average::take(bytes)?)),
        }
    }
}
