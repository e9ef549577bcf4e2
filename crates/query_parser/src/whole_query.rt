//! Queries.

ghost use Rattle.std.specs.Prelude.{◌≡◌, ◌≤◌, length, IfOk};
ghost use Rattle.query_parser.specs.Query as spec;
ghost use Rattle.query_parser.specs.QueryParts as parts;
ghost use Rattle.query_parser.specs.SpellsQuery.{SpellsQuery};
ghost use Rattle.query_parser.specs.Reading.{Reads};
ghost use Rattle.query_tokens.specs.Stream.{tokens};
ghost use Rattle.query_tokens.specs.declared.tree.Query.{Query};

use crate::whole_condition::condition;
use crate::{Tokens, options, selection, shape};
use query_tokens::{Cond, Kind, Query, QueryFault};
use std::alloc::Global;

/// The query of a text, or its first fault: `SET` options, then `SELECT .. FROM ..` with optional
/// `WHERE`, `GROUP BY` and `HAVING`, `ORDER BY`, `LIMIT` and `OFFSET`, and an optional `;`, after
/// the query language of Apache Pinot. Names stand bare or in `"`, texts in `'`, each doubled
/// within.
///
/// Tokens are cut as they are reached, in time linear in the text, and none is kept.
pub fn parse(alloc: Global, text: &str) -> Result<Query, QueryFault>
    requires { length text.now ≤ 65536 }
    // What is read is spelled by the tokens of the text.
    ensures spelled { IfOk result (SpellsQuery (tokens text.now)) }
    // What is spelled is read, unless memory runs out.
    ensures only { (q : Query) → SpellsQuery (tokens text.now) q → spec.Parses (Ok q) result }
    // Which fault it is.
    ensures exact { spec.Parses (spec.parsed text.now) result }
{
    whole(alloc, text)
}

#[tactic(auto, unfolding(crate::specs::Query::condition_if))]
fn condition_if(alloc: Global, tokens: &mut Tokens<'_>) -> Result<Option<Cond>, QueryFault>
    ensures { Reads (spec.condition_if tokens.old) result tokens.new }
{
    if !tokens.eat(Kind::Where) {
        return Ok(None);
    }
    Ok(Some(condition(alloc, tokens)?))
}

#[tactic(auto, unfolding(crate::specs::QueryParts::query))]
fn query(alloc: Global, tokens: &mut Tokens<'_>) -> Result<Query, QueryFault>
    ensures { Reads (parts.query tokens.old) result tokens.new }
{
    let use_tree = options(alloc, tokens)?;
    let selection = selection(alloc, tokens)?;
    let condition = condition_if(alloc, tokens)?;
    let shape = shape(alloc, tokens)?;
    Ok(Query {
        use_tree,
        select: selection.select,
        items: selection.items,
        table: selection.table,
        condition,
        groups: shape.groups,
        having: shape.having,
        order: shape.order,
        limit: shape.limit,
        offset: shape.offset,
    })
}

fn whole(alloc: Global, text: &str) -> Result<Query, QueryFault>
    requires { length text.now ≤ 65536 }
    ensures { spec.Parses (spec.parsed text.now) result }
{
    let mut tokens = Tokens::new(text);
    query(alloc, &mut tokens)
}
