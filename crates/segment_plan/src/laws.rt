//! Laws of plans. Each is the contract of a function that does nothing.
ghost use Rattle.segment_plan.specs.Laws.{EmptyHasNone, ExplainedIsOver, FactorsAreOver, HeadTells, OneFactors, OnePlan, PlanIsOver, PrunedHasNone};

/// No row of a segment that is pruned satisfies the query.
pub fn pruned_law()
    ensures { PrunedHasNone }
{}

/// No row of a segment with a column of which no value satisfies the conjuncts on it satisfies the
/// query.
pub fn empty_law()
    ensures { EmptyHasNone }
{}

/// The head of an image tells of the rows of its segment.
pub fn head_tells_law()
    ensures { HeadTells }
{}

/// Rows have one plan, whatever else of their segment is loaded.
pub fn one_plan_law()
    ensures { OnePlan }
{}

/// Rows give a tree one list of factors, whatever else of their segment is loaded.
pub fn one_factors_law()
    ensures { OneFactors }
{}

/// A head that tells of rows has the plan of these rows.
pub fn plan_over_law()
    ensures { PlanIsOver }
{}

/// It gives a tree their factors.
pub fn factors_over_law()
    ensures { FactorsAreOver }
{}

/// What is written of its plan is what is written of theirs.
pub fn explained_law()
    ensures { ExplainedIsOver }
{}
