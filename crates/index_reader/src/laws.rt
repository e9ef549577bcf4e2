//! Laws of the documents within bounds. Each is the contract of a function that does nothing.
ghost use Rattle.index_reader.specs.Buckets.{NoneLeft, NoneTwice, SureWithin};

/// No document that is sure is to be checked.
pub fn none_twice_law()
    ensures { NoneTwice }
{}

/// A document that is sure has an id within the bounds.
pub fn sure_within_law()
    ensures { SureWithin }
{}

/// A document whose id is within the bounds is sure or to be checked.
pub fn none_left_law()
    ensures { NoneLeft }
{}
