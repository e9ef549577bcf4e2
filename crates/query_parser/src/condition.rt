//! The rules of a condition, for any sort of test that begins with a name.

ghost use Rattle.std.specs.Prelude.{◌≡◌, ◌<◌, length, Ok, IfOk};
ghost use Rattle.query_parser.specs.Cond as spec;
ghost use Rattle.query_parser.specs.Cond.{Joints};
ghost use Rattle.query_tokens.specs.Stream.{Stream};
ghost use Rattle.query_parser.specs.Reading.{Parser, Reads};

use crate::Tokens;
use data_types::Seq;
use query_tokens::{Kind, QueryFault};
use std::alloc::{AllocError, Global};

/// A tree of conditions over some sort of test.
pub trait Condition: Drop + Sized {
    ghost leaf: { Parser Self };

    ghost joints: { Joints Self };

    /// Reads one test.
    fn read_test(alloc: Global, tokens: &mut Tokens<'_>) -> Result<Self, QueryFault>
        ensures { Reads (leaf tokens.old) result tokens.new };

    /// The negation of a condition.
    fn not(alloc: Global, inner: Self) -> Result<Self, AllocError>
        ensures { IfOk result (λ c. c ≡ joints.not_of inner) };

    /// The condition that all of these hold.
    fn all(members: Seq<Self>) -> Self
        ensures { result ≡ joints.all_of members };

    /// The condition that one of these holds.
    fn any(members: Seq<Self>) -> Self
        ensures { result ≡ joints.any_of members };

    ghost takes: { (ts us : Stream) (c : Self) → leaf ts ≡ Ok (c, us) → length us < length ts };
}

fn all_of<C: Condition>(members: Seq<C>) -> C
    ensures { result ≡ spec.joined C.joints.all_of members }
{
    let mut members = members.into_vec();
    if members.len() == 1
        && let Some(only) = members.pop()
    {
        return only;
    }
    C::all(Seq::from_vec(members))
}

fn any_of<C: Condition>(members: Seq<C>) -> C
    ensures { result ≡ spec.joined C.joints.any_of members }
{
    let mut members = members.into_vec();
    if members.len() == 1
        && let Some(only) = members.pop()
    {
        return only;
    }
    C::any(Seq::from_vec(members))
}

/// A member of an AND. `depth` more parentheses and NOTs may be open.
#[cycle(cond)]
fn factor<C: Condition>(
    alloc: Global,
    tokens: &mut Tokens<'_>,
    depth: usize,
) -> Result<C, QueryFault>
    ensures { Reads (spec.factor C.leaf C.joints depth tokens.old) result tokens.new }
{
    match tokens.peek() {
        Kind::Not => {
            if depth == 0 {
                return Err(tokens.too_deep());
            }
            tokens.take();
            let inner = factor(alloc, tokens, depth - 1)?;
            Ok(C::not(alloc, inner)?)
        }
        Kind::LParen => {
            if depth == 0 {
                return Err(tokens.too_deep());
            }
            tokens.take();
            let inner = cond(alloc, tokens, depth - 1)?;
            tokens.expect(Kind::RParen)?;
            Ok(inner)
        }
        Kind::Name => C::read_test(alloc, tokens),
        _ => Err(tokens.refuse()),
    }
}

/// The members of an AND, one or more.
#[cycle(cond)]
fn conjunction<C: Condition>(
    alloc: Global,
    tokens: &mut Tokens<'_>,
    depth: usize,
) -> Result<C, QueryFault>
    ensures { Reads (spec.conjunction C.joints (spec.factor C.leaf C.joints depth) tokens.old)
        result tokens.new }
{
    let mut found = Seq::new(alloc);
    'turns: loop {
        let member = factor(alloc, tokens, depth)?;
        found.push(member)?;
        if !tokens.eat(Kind::And) {
            return Ok(all_of(found));
        }
    }
}

/// A condition. `depth` parentheses and NOTs may be open in it.
#[cycle(cond)]
pub fn cond<C: Condition>(
    alloc: Global,
    tokens: &mut Tokens<'_>,
    depth: usize,
) -> Result<C, QueryFault>
    ensures { Reads (spec.cond C.joints (spec.factor C.leaf C.joints depth) tokens.old)
        result tokens.new }
{
    let mut found = Seq::new(alloc);
    'turns: loop {
        let member = conjunction(alloc, tokens, depth)?;
        found.push(member)?;
        if !tokens.eat(Kind::Or) {
            return Ok(any_of(found));
        }
    }
}
