//! Conditions on a group.

ghost use Rattle.std.specs.Prelude.{◌≡◌};
ghost use Rattle.query_parser.specs.Query as spec;
ghost use Rattle.query_parser.specs.Reading.{Reads};
ghost use Rattle.query_parser.specs.TermShrinks.{having_test_shrinks};

use crate::condition::Condition;
use crate::query::term;
use crate::terms::literal;
use crate::{Tokens, operator};
use data_types::{Boxed, Seq};
use query_tokens::{HavingCond, QueryFault, Term};
use std::alloc::{AllocError, Global};
use values::CompareOp;

fn compared(
    alloc: Global,
    tokens: &mut Tokens<'_>,
    term: Term,
    op: Option<CompareOp>,
) -> Result<HavingCond, QueryFault>
    ensures { Reads (spec.having_compared term op tokens.old) result tokens.new }
{
    let Some(op) = op else {
        return Err(tokens.refuse());
    };
    tokens.take();
    Ok(HavingCond::Compare(term, op, literal(alloc, tokens)?))
}

#[tactic(auto, unfolding(crate::specs::Query::having_test))]
fn test(alloc: Global, tokens: &mut Tokens<'_>) -> Result<HavingCond, QueryFault>
    ensures { Reads (spec.having_test tokens.old) result tokens.new }
{
    let term = term(alloc, tokens)?;
    let op = operator(tokens.peek());
    compared(alloc, tokens, term, op)
}

impl Condition for HavingCond {
    ghost leaf = { spec.having_test };

    ghost joints = { spec.group_joints };

    fn read_test(alloc: Global, tokens: &mut Tokens<'_>) -> Result<HavingCond, QueryFault> {
        test(alloc, tokens)
    }

    fn not(alloc: Global, inner: HavingCond) -> Result<HavingCond, AllocError> {
        Ok(HavingCond::Not(Boxed::new(alloc, inner)?))
    }

    fn all(members: Seq<HavingCond>) -> HavingCond
        ensures { result ≡ HavingCond.All members }
    {
        HavingCond::All(members)
    }

    fn any(members: Seq<HavingCond>) -> HavingCond
        ensures { result ≡ HavingCond.Any members }
    {
        HavingCond::Any(members)
    }

    ghost takes = { having_test_shrinks };
}
