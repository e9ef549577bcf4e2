//! One or more, with a token between.

ghost use Rattle.query_parser.specs.Reading.{Parser, Reads, separated};
ghost use Rattle.std.specs.Prelude.{◌<◌, length, OnOk};

use crate::Tokens;
use data_types::Seq;
use query_tokens::{Kind, QueryFault};
use std::alloc::Global;

/// What can stand in a list.
pub trait Member: Drop + Sized {
    ghost reading: { Parser Self };

    /// Reads one member.
    fn read(alloc: Global, tokens: &mut Tokens<'_>) -> Result<Self, QueryFault>
        ensures value { Reads (reading tokens.old) result tokens.new }
        ensures shorter { OnOk result (length tokens.new < length tokens.old) };
}

/// Reads one member or more, with this token between them.
pub fn list<T: Member>(
    alloc: Global,
    tokens: &mut Tokens<'_>,
    separator: Kind,
) -> Result<Seq<T>, QueryFault>
    ensures { Reads (separated separator T.reading tokens.old) result tokens.new }
{
    let mut found = Seq::new(alloc);
    'turns: loop {
        let value = T::read(alloc, tokens)?;
        found.push(value)?;
        if !tokens.eat(separator) {
            return Ok(found);
        }
    }
}
