//! Laws of replies. Each is the contract of a function that does nothing.

ghost use Rattle.sql_reply.specs.Laws.{NeverForMemory, UnaskedHasNone};

/// No query wants memory by what it is: what is wrong with it is always one of the other faults.
pub fn reply_law()
    ensures { NeverForMemory }
{}

/// A text that is no query has no reply, for that reason.
pub fn unasked_law()
    ensures { UnaskedHasNone }
{}
