//! Comparisons under NOT.

ghost use Rattle.std.specs.Prelude.{◌≡◌};
ghost use Rattle.query_bind.specs.Conjuncts.{opposite_if};

use values::CompareOp;

/// The comparison, and where `negated` the one that holds where it does not.
pub(crate) fn opposite_if(negated: bool, op: CompareOp) -> CompareOp
    ensures { result ≡ opposite_if negated op }
{
    if !negated {
        return op;
    }
    match op {
        CompareOp::Equal => CompareOp::Unequal,
        CompareOp::Unequal => CompareOp::Equal,
        CompareOp::Less => CompareOp::AtLeast,
        CompareOp::AtMost => CompareOp::More,
        CompareOp::More => CompareOp::AtMost,
        CompareOp::AtLeast => CompareOp::Less,
    }
}
