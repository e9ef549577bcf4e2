//! Laws of dictionaries.
ghost use Rattle.dictionary.specs.Laws.{AscendsOneWay, DistinctAreThose, DistinctAscend};
ghost use Rattle.dictionary.specs.Spelling.{SpellsOne};

/// The distinct values of a column ascend, are just the values of the column, and no other
/// ascending list has them.
pub fn distinct_law()
    ensures ascend { DistinctAscend }
    ensures those { DistinctAreThose }
    ensures one { AscendsOneWay }
{}

/// Bytes spell at most one dictionary of a kind.
pub fn spells_one_law()
    ensures { SpellsOne }
{}
