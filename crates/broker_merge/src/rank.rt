//! What groups are compared by.

ghost use Rattle.std.specs.Prelude.{◌≡◌, refl, Some};
ghost use Rattle.std.specs.Ordering.{eq_by_cmp};
ghost use Rattle.agg_laws.specs.Order.{state_order};
ghost use Rattle.agg_laws.specs.States.{kind_of, rank_of};
ghost use Rattle.broker_merge.specs.Rank.{AreFair, IsFair, placed_order, seen_of, seen_order};
ghost use Rattle.broker_merge.specs.Rank.{sort_of};
ghost use Rattle.broker_merge.specs.Rank.Laws as laws;

use agg_laws::{AggKind, AggState, compare_states};
use std::cmp::Ordering;
use std::marker::Model;
use values::{Row, Value};

/// What a group shows in one place: a value of its key, an aggregate, or its key.
#[derive(Clone, Copy)]
pub enum Rank<'a> {
    Value(&'a Value),
    State(&'a AggState),
    Key(&'a Row),
}

/// What a group is compared by in one place.
#[derive(Drop)]
pub struct Place<'a> {
    greatest_first: bool,
    rank: Rank<'a>,
}

impl<'a> Model for Place<'a> {
    ghost use Rattle.broker_merge.specs.Rank.{Placed, AreFair, seen_of};

    ghost Value = { Placed };

    ghost view = { λ p. record { greatest_first = p.greatest_first; seen = seen_of p.rank } };

    ghost invariant = { λ p. AreFair (seen_of p.rank) };
}

// The place of a kind among the others.
fn rank_of(kind: AggKind) -> u8
    ensures { result ≡ rank_of kind }
{
    match kind {
        AggKind::Count => 0,
        AggKind::Sum => 1,
        AggKind::Least => 2,
        AggKind::Greatest => 3,
        AggKind::Average => 4,
    }
}

// Compares two states; those of two kinds by their kinds.
fn compare_any(a: &AggState, b: &AggState) -> Ordering
    requires a { IsFair a.now }
    requires b { IsFair b.now }
    ensures { result ≡ state_order a.now b.now }
{
    match rank_of(a.kind()).cmp(&rank_of(b.kind())) {
        Ordering::Equal => compare_states(a, b),
        by_kind => by_kind,
    }
}

impl Rank<'_> {
    // Which of the three it is.
    fn sort(&self) -> u8
        ensures { result ≡ sort_of (seen_of self.now) }
    {
        match self {
            Rank::Value(_) => 0,
            Rank::State(_) => 1,
            Rank::Key(_) => 2,
        }
    }

    fn compare(&self, other: &Self) -> Ordering
        requires this { AreFair (seen_of self.now) }
        requires other { AreFair (seen_of other.now) }
        ensures { result ≡ seen_order (seen_of self.now) (seen_of other.now) }
    {
        match (self, other) {
            (Rank::Value(a), Rank::Value(b)) => values::compare(a, b),
            (Rank::State(a), Rank::State(b)) => compare_any(a, b),
            (Rank::Key(a), Rank::Key(b)) => a.cmp(b),
            (a, b) => a.sort().cmp(&b.sort()),
        }
    }
}

impl<'a> Place<'a> {
    /// A place where the least comes first, or the greatest.
    pub fn new(rank: Rank<'a>, greatest_first: bool) -> Place<'a>
        requires { AreFair (seen_of rank) }
        ensures { result ≡ record { greatest_first = greatest_first; seen = seen_of rank.entry } }
    {
        Place {
            greatest_first,
            rank,
        }
    }
}

impl PartialEq for Place<'_> {
    ghost eq = { eq_by_cmp placed_order };

    ghost laws = { laws.placed_per };

    fn eq(&self, other: &Self) -> bool {
        matches!(self.cmp(other), Ordering::Equal)
    }
}

impl Eq for Place<'_> {
    ghost laws = { laws.placed_equiv };
}

impl PartialOrd for Place<'_> {
    ghost partial_cmp = { λ x y. Some (placed_order x y) };

    ghost laws = { laws.placed_partial };

    fn partial_cmp(&self, other: &Self) -> Option<Ordering> {
        Some(self.cmp(other))
    }
}

impl Ord for Place<'_> {
    ghost cmp = { placed_order };

    ghost total = { laws.placed_total };

    ghost matches_partial_cmp = { λ x y. refl };

    ghost matches_eq = { λ x y. refl };

    fn cmp(&self, other: &Self) -> Ordering {
        match (self.greatest_first, other.greatest_first) {
            (false, false) => self.rank.compare(&other.rank),
            (true, true) => self.rank.compare(&other.rank).reverse(),
            (false, true) => Ordering::Less,
            (true, false) => Ordering::Greater,
        }
    }
}
