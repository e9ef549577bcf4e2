//! Laws of tables. Each is the contract of a function that does nothing.
ghost use Rattle.segment_build.specs.Fitting.{ColumnsFit};
ghost use Rattle.segment_build.specs.Growing.{FitIsTested, LargeIsTested};

/// Of each column of a table a dictionary can be made, of the kind of its field.
pub fn columns_fit_law()
    ensures { ColumnsFit }
{}

/// Whether the trees of rows take no more bytes than they may is told by a test.
pub fn trees_fit_law()
    ensures fits { FitIsTested }
    ensures too_large { LargeIsTested }
{}
