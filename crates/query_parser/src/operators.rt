//! The signs of comparisons.

ghost use Rattle.std.specs.Prelude.{◌≡◌};
ghost use Rattle.query_parser.specs.Operators as spec;

use query_tokens::Kind;
use values::CompareOp;

/// The comparison that a token is the sign of.
#[tactic(auto, unfolding(crate::specs::Operators::operator))]
pub fn operator(kind: Kind) -> Option<CompareOp>
    ensures { result ≡ spec.operator kind }
{
    match kind {
        Kind::Eq => Some(CompareOp::Equal),
        Kind::Ne => Some(CompareOp::Unequal),
        Kind::Lt => Some(CompareOp::Less),
        Kind::Le => Some(CompareOp::AtMost),
        Kind::Gt => Some(CompareOp::More),
        Kind::Ge => Some(CompareOp::AtLeast),
        _ => None,
    }
}
