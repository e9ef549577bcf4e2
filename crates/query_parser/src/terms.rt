//! Single tokens.

ghost use Rattle.query_parser.specs.Reading as spec;
ghost use Rattle.query_parser.specs.Reading.{Reads};

use crate::Tokens;
use crate::lists::Member;
use query_tokens::{Kind, LiteralAt, NameAt, QueryFault};
use std::alloc::Global;
use values::Value;

/// Reads the name of a column or a table.
#[tactic(auto, unfolding(crate::specs::Reading::name))]
pub fn name(alloc: Global, tokens: &mut Tokens<'_>) -> Result<NameAt, QueryFault>
    ensures { Reads (spec.name tokens.old) result tokens.new }
{
    if !tokens.sees(Kind::Name) {
        return Err(tokens.refuse());
    }
    let name = tokens.word(alloc)?;
    let offset = tokens.place();
    tokens.take();
    Ok(NameAt { name, offset })
}

/// Reads a whole number or a text.
#[tactic(auto, unfolding(crate::specs::Reading::literal))]
pub fn literal(alloc: Global, tokens: &mut Tokens<'_>) -> Result<LiteralAt, QueryFault>
    ensures { Reads (spec.literal tokens.old) result tokens.new }
{
    let offset = tokens.place();
    let value = match tokens.peek() {
        Kind::Number => Value::Whole(tokens.number()),
        Kind::Text => Value::Text(tokens.word(alloc)?),
        _ => return Err(tokens.refuse()),
    };
    tokens.take();
    Ok(LiteralAt { value, offset })
}

impl Member for LiteralAt {
    ghost reading = { spec.literal };

    #[tactic(auto, using(crate::specs::Shrinks::literal_shrinks))]
    fn read(alloc: Global, tokens: &mut Tokens<'_>) -> Result<LiteralAt, QueryFault> {
        literal(alloc, tokens)
    }
}

impl Member for NameAt {
    ghost reading = { spec.name };

    #[tactic(auto, using(crate::specs::Shrinks::name_shrinks))]
    fn read(alloc: Global, tokens: &mut Tokens<'_>) -> Result<NameAt, QueryFault> {
        name(alloc, tokens)
    }
}
