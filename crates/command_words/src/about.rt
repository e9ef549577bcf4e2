//! What a query's text is asked for.

/// What a query's text is asked of a store for.
#[derive(Clone, Copy, Debug, PartialEq, Eq)]
pub enum About {
    /// The answer over the rows of its segments.
    Rows,
    /// What is to be done with each of its segments.
    Plans,
    /// The answer, and what was done with each of its segments.
    RowsAndPlans,
}
