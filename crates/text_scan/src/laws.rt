//! A law of replies.

ghost use Rattle.text_scan.specs.Laws.{NeverForMemory};

/// No text and no query want memory by what they are: what is wrong with them is always one of the
/// other faults.
pub fn reply_law()
    ensures { NeverForMemory }
{
    sql_reply::reply_law();
}
