//! What holds of the definitions.

ghost use Rattle.query_parser.specs.SpellsQuery.{OneQuery, WhatIsParsedIsSpelled, WhatIsSpelledIsParsed};
ghost use Rattle.query_parser.specs.Final.{FaultsAreFinal};
ghost use Rattle.query_parser.specs.Spells.{WhatIsReadIsSpelled, WhatIsSpelledIsRead};

/// A condition that the tokens spell is the one that is read, where no AND or OR follows.
pub fn spelled_is_read()
    ensures { WhatIsSpelledIsRead }
{}

/// A condition that is read is spelled by the tokens, and no AND or OR follows.
pub fn read_is_spelled()
    ensures { WhatIsReadIsSpelled }
{}

/// A query that the tokens spell is the one that is read.
pub fn spelled_is_parsed()
    ensures { WhatIsSpelledIsParsed }
{}

/// A query that is read is spelled by the tokens.
pub fn parsed_is_spelled()
    ensures { WhatIsParsedIsSpelled }
{}

/// A text spells one query at most.
pub fn one_query()
    ensures { OneQuery }
{}

/// No text that agrees with a refused one up to and with the faulty token is a query, but for the
/// fault of too deep a condition.
pub fn faults_are_final()
    ensures { FaultsAreFinal }
{}
