//! Conditions on a row and on a group, as deep as is taken.

ghost use Rattle.query_parser.specs.Cond as spec;
ghost use Rattle.query_parser.specs.Query as queries;
ghost use Rattle.query_parser.specs.Reading.{Reads};

use crate::{Tokens, cond};
use query_tokens::{Cond, HavingCond, QueryFault};
use std::alloc::Global;

/// How many parentheses and NOTs may be open at once.
pub const DEEPEST: usize = 64;

/// Reads the condition of a query.
pub fn condition(alloc: Global, tokens: &mut Tokens<'_>) -> Result<Cond, QueryFault>
    ensures { Reads (spec.condition tokens.old) result tokens.new }
{
    cond::<Cond>(alloc, tokens, DEEPEST)
}

/// Reads what a query asks of a group.
pub fn having(alloc: Global, tokens: &mut Tokens<'_>) -> Result<HavingCond, QueryFault>
    ensures { Reads (queries.having tokens.old) result tokens.new }
{
    cond::<HavingCond>(alloc, tokens, DEEPEST)
}
